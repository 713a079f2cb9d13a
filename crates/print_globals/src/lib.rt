// The G lines: a line for each Global field that is no default.
#![tactic(auto)]

ghost use Rattle.std.specs.Prelude.{◌≡◌, ◌+◌, ◌*◌, ◌^◌, ◌≤◌, ◌<◌};
ghost use Rattle.columns.specs.Columns.{text_of};
ghost use Rattle.columns.specs.Laid.{Wrote};
ghost use Rattle.columns.specs.Format.{text_columns};
ghost use Rattle.values.specs.Value.{item_of};
ghost use Rattle.records.specs.Record.{values_at};
ghost use Rattle.records.specs.Reading.{Stands, Writable};
ghost use Rattle.records.specs.Items.{items_from};
ghost use Rattle.records.specs.Global.{first_field};
ghost use Rattle.model.specs.Read.{given};
ghost use Rattle.print.specs.Bytes.{values_in, given_bytes, global_bytes};

use columns::format::TEXT_COLUMNS;
use print::lines::put_global_line;
use print::taking::value_from;
use records_read::check_from;
use values::{Value, is_missing};

const FIRST: u32 = 3;

// The line of field n, if there is one.
fn put_given(
    out: &mut [u8],
    at: usize,
    file: &[u8],
    base: usize,
    lines: usize,
    n: u32,
    v: Value,
) -> usize
    requires stands { Stands file.now base text_columns lines }
    requires writable { Writable (lines * text_columns) v }
    requires at_bound { at < 2 ^ 59 }
    ensures wrote { Wrote out.old at (given_bytes n (item_of (text_of file.now base text_columns lines) v))
        out.new result }
    ensures upper_bound { result ≤ at + 1100 }
{
    if is_missing(v) {
        return at;
    }
    put_global_line(out, at, file, base, lines, n, v)
}

// How many values the record has from position from on; none if it is refused.
fn count_from(file: &[u8], base: usize, lines: usize, c: u8, d: u8, from: usize) -> usize
    requires stands { Stands file.now base text_columns lines }
    requires from_bound { from ≤ lines * text_columns }
    requires c_nonzero { 0 < c }
    requires d_nonzero { 0 < d }
    ensures result_value { items_from text_columns c d (text_of file.now base text_columns lines) from result
        ≡ values_in (values_at text_columns c d (text_of file.now base text_columns lines) from) }
    ensures upper_bound { result ≤ lines * text_columns }
{
    match check_from(file, base, TEXT_COLUMNS, lines, c, d, from) {
        Err(_) => 0,
        Ok(check) => check.count,
    }
}

// The fields from position from of the G record on.
pub fn put_globals(
    out: &mut [u8],
    at: usize,
    file: &[u8],
    base: usize,
    lines: usize,
    c: u8,
    d: u8,
    from: usize,
) -> usize
    requires stands { Stands file.now base text_columns lines }
    requires from_bound { from ≤ lines * text_columns }
    requires c_nonzero { 0 < c }
    requires d_nonzero { 0 < d }
    requires at_bound { at < 2 ^ 58 }
    ensures wrote { Wrote out.old at
        (global_bytes (given first_field (values_in (values_at text_columns c d (text_of file.now base text_columns lines) from))))
        out.new result }
    ensures upper_bound { result ≤ at + 79200 * lines }
{
    let count = count_from(file, base, lines, c, d, from);
    let mut q = from;
    let mut next = at;
    for n in FIRST..FIRST + count as u32 {
        let x = value_from(file, base, TEXT_COLUMNS, lines, c, d, q);
        let v = x.value;
        next = put_given(out, next, file, base, lines, n, v);
        q = x.next;
    }
    next
}
