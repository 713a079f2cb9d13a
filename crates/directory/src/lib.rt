// Directory entries: the numbers of two D lines, what they mean, and what rules 9, 13 and 10 ask of them.
// `order` has the numbers' order, `lines` their places on the two lines, `entries` what a reference may name. Crate `directory_rules` says
// what the numbers mean and asks the rules, `directory_read` reads the two lines, `directory_lay` lays them, `directory_lookup` looks up
// what a directory number names.
#![tactic(auto)]

pub mod entries;
pub mod lines;
pub mod order;

use columns::{DirectoryNumber, ParameterLine, Signed};

// The numbers of an entry as they are spelt, in a file or in a sheet; `entity` is its type, `display` its label display.
#[derive(Clone, Copy)]
pub struct Fields {
    pub entity: Signed,
    pub form: Signed,
    pub structure: Signed,
    pub font: Signed,
    pub level: Signed,
    pub view: Signed,
    pub matrix: Signed,
    pub display: Signed,
    pub status: Signed,
    pub weight: Signed,
    pub colour: Signed,
    pub subscript: Signed,
}

// A colour is a number or, negated, a reference to a definition entry; so are font and level.
#[derive(Clone, Copy)]
pub enum Attribute {
    Number(u32),
    Reference(DirectoryNumber),
}

// The directory record: what the numbers mean. A reference of 0 names nothing.
#[derive(Clone, Copy)]
pub struct Entry {
    pub entity: u32,
    pub form: u32,
    pub structure: DirectoryNumber,
    pub font: Attribute,
    pub level: Attribute,
    pub view: DirectoryNumber,
    pub matrix: DirectoryNumber,
    pub display: DirectoryNumber,
    pub status: u32,
    pub weight: u32,
    pub colour: Attribute,
    pub subscript: u32,
}

// An entry as its two D lines spell it: its numbers, where its parameters start and how many lines they take.
#[derive(Clone, Copy)]
pub struct Spelt {
    pub fields: Fields,
    pub pointer: ParameterLine,
    pub lines: u32,
}

// What a reference of an entry asks: that this directory number names an entry of the class wanted.
#[derive(Clone, Copy)]
pub struct Wanted {
    pub number: DirectoryNumber,
    pub want: u8,
}
