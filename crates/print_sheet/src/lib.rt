// The whole sheet. `rows` writes the entries' lines and the Z line.
#![tactic(auto)]

pub mod rows;

ghost use Rattle.std.specs.Prelude.{◌+◌, ◌*◌, ◌^◌, ◌≤◌, ◌<◌, length};
ghost use Rattle.columns.specs.Columns.{text_of};
ghost use Rattle.columns.specs.Laid.{Wrote};
ghost use Rattle.columns.specs.Format.{text_columns};
ghost use Rattle.records.specs.Reading.{Stands};
ghost use Rattle.print.specs.Rows.{RowsRead, Printable};
ghost use Rattle.print.specs.Whole.{field_bytes, whole_bytes};

use crate::rows::put_rows;
use columns::format::LINE_BYTES;
use print_globals::put_globals;
use print_starts::put_starts;

// The G lines: none if the record ends with its opening.
fn put_fields(
    out: &mut [u8],
    at: usize,
    file: &[u8],
    base: usize,
    lines: usize,
    c: u8,
    d: u8,
    from: usize,
    last: bool,
) -> usize
    requires stands { Stands file.now base text_columns lines }
    requires from_bound { from ≤ lines * text_columns }
    requires c_nonzero { 0 < c }
    requires d_nonzero { 0 < d }
    requires at_bound { at < 2 ^ 58 }
    ensures wrote { Wrote out.old at (field_bytes c d (text_of file.now base text_columns lines) from last)
        out.new result }
    ensures upper_bound { result ≤ at + 79200 * lines }
{
    if last {
        return at;
    }
    put_globals(out, at, file, base, lines, c, d, from)
}

// The sheet of a file of s S lines, g G lines and n entries, whose first P line is line parameters, whose delimiters are c and d,
// and whose G record goes on from position from on, or is at its end there.
pub fn put_sheet(
    out: &mut [u8],
    at: usize,
    list: u64,
    file: &[u8],
    s: usize,
    g: usize,
    n: usize,
    parameters: usize,
    c: u8,
    d: u8,
    from: usize,
    last: bool,
) -> usize
    requires printable { Printable file.now (s + g) n parameters c d }
    requires from_bound { from ≤ g * text_columns }
    requires at_bound { at < 2 ^ 55 }
    requires rows_read { RowsRead file.now (s + g) n parameters c d }
    ensures wrote { Wrote out.old at (whole_bytes list file.now s g n parameters c d from last)
        out.new result }
    ensures upper_bound { result ≤ at + 2 ^ 52 }
{
    let base = LINE_BYTES * s;
    let first = s + g;
    let a = put_starts(out, at, file, s);
    let b = put_fields(out, a, file, base, g, c, d, from, last);
    put_rows(out, b, list, file, first, n, parameters, c, d)
}
