// The values of a G or P record, one after the other, where they stand in the file; and the canonical flow of values into lines.
// `position` says where a position of such lines stands. Crate `records_read` reads the next value of a record, `records_global` the
// Global opening and the kinds of its fields, `records_flow` writes values into lines of a file.
#![tactic(auto)]

pub mod position;

use columns::Fault;
use values::Value;

// What stands behind the blanks: a delimiter, and whether it ends the record, or something else. Both say where they stand, so neither
// is missing or an error.
#[derive(Clone, Copy)]
pub enum Next {
    Delimiter { at: usize, last: bool },
    Other { at: usize },
}

// A value, where it starts, the position behind its delimiter, and whether that ends the record.
#[derive(Clone, Copy)]
pub struct Found {
    pub value: Value,
    pub start: usize,
    pub next: usize,
    pub last: bool,
}

// A refusal, where the value starts, and the first position that cannot continue it (the text's length: the text ends early).
#[derive(Clone, Copy)]
pub struct Misspelt {
    pub fault: Fault,
    pub start: usize,
    pub at: usize,
}

// What is read of a value.
pub type Got = Result<Found, Misspelt>;

// A record: how many values it has, how many up to the last that is no default, and the position behind it.
#[derive(Clone, Copy)]
pub struct Check {
    pub count: usize,
    pub kept: usize,
    pub end: usize,
}

// The Global opening: the delimiters, the position behind it, and whether the record ends there.
#[derive(Clone, Copy)]
pub struct Opening {
    pub parameter: u8,
    pub closing: u8,
    pub next: usize,
    pub last: bool,
}

// What a Global field holds.
#[derive(Clone, Copy)]
pub enum GlobalKind {
    String,
    Real,
    Integer,
}
