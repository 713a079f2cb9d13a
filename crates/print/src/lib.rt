// The sheet of a file that was accepted, laid over a lent buffer from a place on, clipped to it: with an empty buffer it is measured.
// `characters` copies characters of a record's text, `lines` writes a line with a value, `taking` takes a record's values. Crate
// `print_starts` writes the S lines, `print_globals` the G lines, `print_values` an entity's values with their marks, `print_sheet` the
// entries' lines and the whole.
#![tactic(auto)]

pub mod characters;
pub mod lines;
pub mod taking;

use layouts::LayoutState;
use values::Value;

// A value that is met in a record, the position behind its delimiter, and whether that ends the record.
#[derive(Clone, Copy)]
pub struct Met {
    pub value: Value,
    pub next: usize,
    pub last: bool,
}

// Behind a value's line: the place in the sheet, and where the marks stand.
#[derive(Clone, Copy)]
pub struct Behind {
    pub next: usize,
    pub marks: Option<LayoutState>,
}
