// The lines of a file: their bytes, section letters, sequence numbers, and the T line; and where each section starts.
// Crate `cards_line` looks at one line, `cards_pass` goes over all.
#![tactic(auto)]

ghost use Rattle.std.specs.Prelude.{◌≡◌, ◌+◌, ◌*◌, ◌^◌, ◌<◌, ◌≤◌};
ghost use Rattle.cards.specs.Cards.{length_ok, entry_line, parameter_line};

use columns::format::{LINE_BYTES, MOST_LINES};
use columns::{DirectoryNumber, ParameterLine, wide};

// How many lines of each section there are.
#[derive(Clone, Copy)]
pub struct Counts {
    pub s: u32,
    pub g: u32,
    pub d: u32,
    pub p: u32,
    pub t: u32,
}

// Where a line stands: the counts with it, and its number in its section.
#[derive(Clone, Copy)]
pub struct Placed {
    pub counts: Counts,
    pub number: u32,
}

// Whether a length is one of whole lines, from 1 to the most.
pub fn length_ok(len: usize) -> bool
    ensures { result ≡ length_ok len }
{
    if len % LINE_BYTES != 0 {
        return false;
    }
    let n = len / LINE_BYTES;
    if n < 1 {
        return false;
    }
    n <= MOST_LINES
}

// Entries are counted from 0 and P lines from 1. An index counts the lines of a file from 0: it is a place in the bytes, since line k
// stands from byte LINE_BYTES * k on, and so a plain number. The `FileLine` of that line, which a person is told, is k + 1.

// The directory number of entry i.
pub fn entry_number(i: usize) -> DirectoryNumber
    requires { i < 2 ^ 30 }
    ensures { result.0 ≡ 2 * i + 1 }
{
    let n = i as u32;
    DirectoryNumber(2 * n + 1)
}

// The index of entry i's first line.
pub fn entry_line(c: Counts, i: usize) -> usize
    requires { i < 2 ^ 32 }
    ensures { (result ≡ entry_line c i) × (result < 2 ^ 40) }
{
    wide(c.s) + wide(c.g) + 2 * i
}

// The index of P line k.
pub fn parameter_line(c: Counts, k: ParameterLine) -> usize
    requires { 1 ≤ k.0 }
    ensures { (result ≡ parameter_line c k.0) × (result < 2 ^ 40) }
{
    wide(c.s) + wide(c.g) + wide(c.d) + (wide(k.0) - 1)
}
