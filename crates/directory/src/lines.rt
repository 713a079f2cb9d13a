// The eighteen slots of an entry's two D lines, from 0, nine to a line: said once, for its numbers and for its parameter pointer and
// line count.
ghost use Rattle.std.specs.Prelude.{◌≡◌, ◌+◌, ◌*◌, ◌^◌, ◌<◌};
ghost use Rattle.columns.specs.Format.{line_bytes};
ghost use Rattle.directory.specs.Lines.{Slot, slots, seek};
ghost use Rattle.directory.specs.Reading.{start_of};

use crate::order::NUMBERS;
use columns::format::{FIELD_COLUMNS, LINE_BYTES};

pub const TYPE: usize = 0;

pub const POINTER: usize = 1;

pub const STRUCTURE: usize = 2;

pub const FONT: usize = 3;

pub const LEVEL: usize = 4;

pub const VIEW: usize = 5;

pub const MATRIX: usize = 6;

pub const DISPLAY: usize = 7;

pub const STATUS: usize = 8;

pub const AGAIN: usize = 9;

pub const WEIGHT: usize = 10;

pub const COLOUR: usize = 11;

pub const COUNT: usize = 12;

pub const FORM: usize = 13;

pub const LABEL: usize = 16;

pub const SUBSCRIPT: usize = 17;

// The slot of each number of an entry, in the order of `order`.
const PLACES: [usize; NUMBERS] = [
    TYPE, FORM, STRUCTURE, FONT, LEVEL, VIEW, MATRIX, DISPLAY, STATUS, WEIGHT, COLOUR, SUBSCRIPT,
];

const SLOTS_A_LINE: usize = 9;

// The slot of number n.
pub fn place_of(n: usize) -> usize
    requires { n < 12 }
    ensures value { result ≡ seek (Slot.number n) slots }
    ensures upper_bound { result < 18 }
{
    PLACES[n]
}

// The byte where slot j starts, of the entry whose first D line is line k of the file, from 0.
pub fn start_of(k: usize, j: usize) -> usize
    requires line_bytes_bound { line_bytes * k + 2 * line_bytes < 2 ^ 64 }
    requires j_bound { j < 18 }
    ensures { result ≡ start_of k j }
{
    LINE_BYTES * (k + j / SLOTS_A_LINE) + FIELD_COLUMNS * (j % SLOTS_A_LINE)
}
