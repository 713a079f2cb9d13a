// The T line, the last of a file: it tells the counts of the sections.
ghost use Rattle.std.specs.Prelude.{◌≡◌, false, ◌&&◌, ◌+◌, ◌*◌, ◌≤◌, length};
ghost use Rattle.columns.specs.Columns.{line_at};
ghost use Rattle.columns.specs.Format.{line_bytes};
ghost use Rattle.cards.specs.Cards.{tells, closes};

use cards::Counts;
use columns::format::{FIELD_COLUMNS, LINE_BYTES, TEXT_COLUMNS};

// Where the third and the fourth field start, and what stands behind them.
const THIRD: usize = 2 * FIELD_COLUMNS;

const FOURTH: usize = 3 * FIELD_COLUMNS;

const BEHIND: usize = 4 * FIELD_COLUMNS;

// Whether a letter stands at `at`, and then n.
fn tells_at(s: &[u8], at: usize, letter: u8, n: u32) -> bool
    requires { at + 8 ≤ length s.now }
    ensures { result ≡ tells s.now at letter n }
{
    if s[at] != letter {
        return false;
    }
    columns_fixed::holds(s, at + 1, at + FIELD_COLUMNS, n)
}

fn all_five(a: bool, b: bool, c: bool, d: bool, e: bool) -> bool
    ensures { result ≡ a && (b && (c && (d && e))) }
{
    a && (b && (c && (d && e)))
}

// Whether line k is the T line of these counts.
pub fn closes_at(file: &[u8], k: usize, c: Counts) -> bool
    requires { line_bytes * k + line_bytes ≤ length file.now }
    ensures { result ≡ closes c (line_at file.now k) }
{
    let at = LINE_BYTES * k;
    if c.d % 2 != 0 {
        return false;
    }
    let s = tells_at(file, at, b'S', c.s);
    let g = tells_at(file, at + FIELD_COLUMNS, b'G', c.g);
    let d = tells_at(file, at + THIRD, b'D', c.d);
    let p = tells_at(file, at + FOURTH, b'P', c.p);
    let b = columns::look::is_blank(file, at + BEHIND, at + TEXT_COLUMNS);
    all_five(s, g, d, p, b)
}
