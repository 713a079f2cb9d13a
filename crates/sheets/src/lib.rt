// Sheet lines in and out: what each line says, and the order of lines. `order` is the machine over the lines. Crate `sheets_numbers` reads
// the numbers of a sheet, `sheets_read` its lines, `sheets_lay` writes lines.
#![tactic(auto)]

use columns::{SheetLine, Signed};
use directory::Fields;
use values::Value;

pub mod order;

// What an entry line says: whether it is marked E, the directory number, and the entry's numbers.
#[derive(Clone, Copy)]
pub struct EntryLine {
    pub known: bool,
    pub number: Signed,
    pub fields: Fields,
}

// What a line says. A value is told with where a string stands in what follows the line's tabs: for a Global field that is from `at` on.
// `Nothing` tells whether the line begins as a value line does.
#[derive(Clone, Copy)]
pub enum Said {
    Start,
    Global {
        number: u32,
        at: usize,
        value: Value,
    },
    Entry {
        known: bool,
        number: Signed,
        fields: Fields,
    },
    Value {
        reference: bool,
        value: Value,
    },
    Last(usize),
    Nothing(bool),
}

// The sections of a sheet in their order: no line yet, S, G, entries with their values, Z.
pub const BEFORE_STARTS: u8 = 0;

pub const IN_STARTS: u8 = 1;

pub const IN_GLOBALS: u8 = 2;

pub const IN_ENTRIES: u8 = 3;

pub const AT_END: u8 = 4;

// No G line yet: below the number of any.
pub const NO_FIELD: u32 = 2;

// Where in the order of lines one stands: the section reached, the last G number, how many entries and lines there were, and the line of
// the first of the defaults that the values end with so far, if they do.
#[derive(Clone, Copy)]
pub struct SheetState {
    pub section: u8,
    pub field: u32,
    pub entries: usize,
    pub run: Option<SheetLine>,
    pub line: usize,
}
