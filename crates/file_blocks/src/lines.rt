// The lines of which each is written whole: S, D and T.
ghost use Rattle.std.specs.Prelude.{◌≡◌, ◌∷◌, ◌++◌, ◌+◌, ◌^◌, ◌≤◌, ◌<◌, length};
ghost use Rattle.columns.specs.Columns.{joined};
ghost use Rattle.columns.specs.Decimal.{to_left};
ghost use Rattle.columns.specs.Laid.{Wrote};
ghost use Rattle.columns.specs.Format.{line_bytes, text_columns, field_columns};
ghost use Rattle.columns.specs.Letters.{letter_d, letter_g, letter_p, letter_s, letter_t};
ghost use Rattle.directory.specs.Lines.{entry_lines};
ghost use Rattle.cards.specs.Written.{zeros, line_of, section, totals_of};
ghost use Rattle.file_blocks.specs.Blocks.{tail_of};

use crate::{DIRECTORY, GLOBAL, PARAMETER, START, TERMINATE};
use cards::Counts;
use columns::format::{FIELD_COLUMNS, NUMBER_COLUMNS, TEXT_COLUMNS};
use columns::{DirectoryNumber, ParameterLine, wide};
use directory::Fields;

// The blank columns of the T line.
const REST: usize = TEXT_COLUMNS - 4 * FIELD_COLUMNS;

// A section's letter and a number in seven columns with leading zeros.
fn put_count(out: &mut [u8], at: usize, letter: u8, n: usize) -> usize
    requires at_bound { at < 2 ^ 60 }
    requires n_bound { n ≤ 9999999 }
    ensures wrote { Wrote out.old at (letter ∷ zeros n) out.new result }
    ensures value { result ≡ at + 8 }
{
    let a = columns_emit::put(out, at, letter);
    columns_decimals::put_right(out, a, b'0', NUMBER_COLUMNS, n as u64)
}

// The columns 73 to 80 and LF: a line's letter and its number in its section.
pub fn put_tail(out: &mut [u8], at: usize, letter: u8, n: usize) -> usize
    requires at_bound { at < 2 ^ 60 }
    requires n_bound { n ≤ 9999999 }
    ensures wrote { Wrote out.old at (tail_of letter n) out.new result }
    ensures value { result ≡ at + 9 }
{
    let a = put_count(out, at, letter, n);
    columns_emit::put(out, a, b'\n')
}

// S line n with this text.
pub fn put_start_line(out: &mut [u8], at: usize, text: &[u8], n: usize) -> usize
    requires at_bound { at < 2 ^ 59 }
    requires text_len_bound { length text.now ≤ text_columns }
    requires n_bound { n ≤ 9999999 }
    ensures wrote { Wrote out.old at (line_of (to_left text_columns text.now) letter_s n) out.new result }
    ensures value { result ≡ at + line_bytes }
{
    let a = columns_decimals::put_left(out, at, TEXT_COLUMNS, text);
    put_tail(out, a, START, n)
}

// The D lines of the entry with this directory number, which is also the number of the first of them: its fields, its first P line, how
// many it has, and its label.
pub fn put_entry_lines(
    out: &mut [u8],
    at: usize,
    x: Fields,
    from: ParameterLine,
    count: u32,
    label: &[u8],
    number: DirectoryNumber,
) -> usize
    requires at_bound { at < 2 ^ 58 }
    requires label_len_bound { length label.now ≤ field_columns }
    requires number_bound { number.0 + 1 ≤ 9999999 }
    ensures wrote { Wrote out.old at
        (joined (section letter_d number.0 (entry_lines x from.0 count label.now))) out.new result }
    ensures upper_bound { result ≤ at + 522 }
{
    let n = number.0 as usize;
    let a = directory_lay::put_first(out, at, x, from);
    let b = put_tail(out, a, DIRECTORY, n);
    let c = directory_lay::put_second(out, b, x, count, label);
    put_tail(out, c, DIRECTORY, n + 1)
}

// The columns of T.
fn put_totals(out: &mut [u8], at: usize, c: Counts) -> usize
    requires at_bound { at < 2 ^ 59 }
    requires s_bound { c.s ≤ 9999999 }
    requires g_bound { c.g ≤ 9999999 }
    requires d_bound { c.d ≤ 9999999 }
    requires p_bound { c.p ≤ 9999999 }
    ensures wrote { Wrote out.old at
        ((letter_s ∷ zeros c.s) ++ ((letter_g ∷ zeros c.g) ++ ((letter_d ∷ zeros c.d) ++ (letter_p ∷ zeros c.p))))
        out.new result }
    ensures value { result ≡ at + 32 }
{
    let e = put_count(out, at, START, wide(c.s));
    let f = put_count(out, e, GLOBAL, wide(c.g));
    let g = put_count(out, f, DIRECTORY, wide(c.d));
    put_count(out, g, PARAMETER, wide(c.p))
}

// The T line: how many lines each section has.
pub fn put_last_line(out: &mut [u8], at: usize, c: Counts) -> usize
    requires at_bound { at < 2 ^ 59 }
    requires s_bound { c.s ≤ 9999999 }
    requires g_bound { c.g ≤ 9999999 }
    requires d_bound { c.d ≤ 9999999 }
    requires p_bound { c.p ≤ 9999999 }
    ensures wrote { Wrote out.old at (line_of (totals_of c) letter_t 1) out.new result }
    ensures value { result ≡ at + line_bytes }
{
    let a = put_totals(out, at, c);
    let b = columns_emit::put_run(out, a, b' ', REST);
    put_tail(out, b, TERMINATE, 1)
}
