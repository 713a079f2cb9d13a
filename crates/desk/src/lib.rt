// The two ways of the desk: a file to its sheet, and a sheet to its canonical file; the lent table of records and the name lookup.
// What they answer, and the rules that a file meets. Crate `read_file` reads, `write_sheet` writes, `desk_table` and `desk_name` look up.
#![tactic(auto)]

pub mod answers;

use columns::format::FIELD_COLUMNS;
use columns::{DirectoryNumber, ParameterLine};
use directory::Entry;

// Accepted: number 0 and the length. Refused: the paper's number and the place; of 16 the length that is needed, else 0.
#[repr(C)]
#[derive(Clone, Copy)]
pub struct Answer {
    pub number: u64,
    pub place: u64,
    pub length: u64,
}

// A slot of the lent table: an entry line's fields, whether the list knows the entity first of them; parameter pointer and line count.
#[derive(Clone, Copy)]
pub struct Record {
    pub known: bool,
    pub number: DirectoryNumber,
    pub entry: Entry,
    pub label: [u8; FIELD_COLUMNS],
    pub pointer: ParameterLine,
    pub lines: u32,
}
