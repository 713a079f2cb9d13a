// The canonical file of a sheet: its bytes.
// `starts` lays the S lines, `entries` the D and P lines entry by entry, `file` the whole file. Crate `file_tally` counts its lines before.
#![tactic(auto)]

mod entries;
pub mod file;
mod starts;

use columns::ParameterLine;

// What the lines of a sheet so far come to: S lines; the position behind the G record's last value, and that value's field; D lines, and
// the P lines of the entries before the last; the position behind the last entry's last value.
#[derive(Clone, Copy)]
pub struct Tally {
    pub s: usize,
    pub global: usize,
    pub field: u32,
    pub d: usize,
    pub p: usize,
    pub at: usize,
}

// Where the next entry stands: its line on the sheet, its D and P lines in the file, and the number of its first P line.
#[derive(Clone, Copy)]
pub struct EntryPlace {
    pub at: usize,
    pub d: usize,
    pub p: usize,
    pub from: ParameterLine,
}
