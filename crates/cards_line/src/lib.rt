// One line: its bytes, where it stands, its number.
#![tactic(auto)]

ghost use Rattle.std.specs.Prelude.{◌≡◌, ◌+◌, ◌*◌, ◌<◌, ◌≤◌, length};
ghost use Rattle.columns.specs.Columns.{columns, line_at};
ghost use Rattle.columns.specs.Format.{line_bytes, most_lines};
ghost use Rattle.cards.specs.Cards.{line_ok, counts, here, place_of, step_of, total};

use cards::{Counts, Placed};
use columns::Fault;
use columns::format::{LINE_BYTES, LINE_COLUMNS, TEXT_COLUMNS};

// Where the sequence number starts, behind the section letter.
const NUMBER: usize = TEXT_COLUMNS + 1;

// Whether the line from `at` on has 80 bytes from 32 to 126, then LF.
#[tactic(auto, using(cards::proofs::Laws::lines))]
fn line_ok(file: &[u8], at: usize) -> bool
    requires { at + line_bytes ≤ length file.now }
    ensures { result ≡ line_ok (columns file.now at (at + line_bytes)) }
{
    file[at + LINE_COLUMNS] == b'\n' && columns::look::is_printable(file, at, at + LINE_COLUMNS)
}

// A line that needs the section before it, and nothing of a later section.
fn here_if(before: u32, later: u32, counts: Counts, number: u32) -> Option<Placed>
    ensures { result ≡ here before later counts number }
{
    if before == 0 {
        return None;
    }
    if later != 0 {
        return None;
    }
    Some(Placed { counts, number })
}

fn counted(s: u32, g: u32, d: u32, p: u32, t: u32) -> Counts
    ensures { result ≡ counts s g d p t }
{
    Counts { s, g, d, p, t }
}

// Where a line of this letter stands, of which `left` more lines follow.
fn place(c: Counts, left: usize, letter: u8) -> Option<Placed>
    requires { total c < most_lines }
    ensures { result ≡ place_of c left letter }
{
    let s = c.s;
    let g = c.g;
    let d = c.d;
    let p = c.p;
    let t = c.t;
    if letter == b'T' {
        return here_if(g, t, counted(s, g, d, p, t + 1), t + 1);
    }
    if left == 0 {
        return None;
    }
    if letter == b'S' {
        return here_if(1, g + d + p + t, counted(s + 1, g, d, p, t), s + 1);
    }
    if letter == b'G' {
        return here_if(s, d + p + t, counted(s, g + 1, d, p, t), g + 1);
    }
    if letter == b'D' {
        return here_if(g, p + t, counted(s, g, d + 1, p, t), d + 1);
    }
    if letter == b'P' {
        return here_if(g, t, counted(s, g, d, p + 1, t), p + 1);
    }
    None
}

// What line k does, of which `left` more lines follow.
pub fn step_line(file: &[u8], k: usize, left: usize, c: Counts) -> Result<Counts, Fault>
    requires line_bytes_in_bounds { line_bytes * k + line_bytes ≤ length file.now }
    requires c_bound { total c < most_lines }
    ensures { result ≡ step_of c left (line_at file.now k) }
{
    let at = LINE_BYTES * k;
    if !line_ok(file, at) {
        return Err(Fault::Byte);
    }
    let found = place(c, left, file[at + TEXT_COLUMNS]).ok_or(Fault::Section)?;
    if columns_fixed::holds(file, at + NUMBER, at + LINE_COLUMNS, found.number) {
        return Ok(found.counts);
    }
    Err(Fault::Sequence)
}
