// The lines of the canonical file, laid over a lent buffer and clipped to it: with an empty buffer they are measured.
// `lines` writes an S line, an entry's two D lines and the T line, `text` ends a record and its lines. Crate `file_parameters`
// writes an entity's P lines, `file_globals` the G lines.
#![tactic(auto)]

pub mod lines;
pub mod text;

use values::Value;

// The letters of the sections.
pub const START: u8 = b'S';

pub const GLOBAL: u8 = b'G';

pub const DIRECTORY: u8 = b'D';

pub const PARAMETER: u8 = b'P';

pub const TERMINATE: u8 = b'T';

// Where the lines of a sheet go on behind those that were written, and how many lines of the file these take.
#[derive(Clone, Copy)]
pub struct Block {
    pub next: usize,
    pub lines: usize,
}

// Where the lines of a sheet go on, and the position behind the values in the record's text.
#[derive(Clone, Copy)]
pub struct Flowed {
    pub next: usize,
    pub end: usize,
}

// A G line with its number: what follows its second tab goes from `from` up to `end`.
#[derive(Clone, Copy)]
pub struct GlobalLine {
    pub number: u32,
    pub from: usize,
    pub end: usize,
    pub value: Value,
}
