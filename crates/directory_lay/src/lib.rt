// The two D lines of an entry, laid over a lent buffer: columns 1 to 72 of each.
#![tactic(auto)]

ghost use Rattle.std.specs.Prelude.{◌+◌, ◌^◌, ◌≤◌, ◌<◌, length};
ghost use Rattle.columns.specs.Decimal.{signed_dec, padded};
ghost use Rattle.columns.specs.Laid.{Wrote};
ghost use Rattle.columns.specs.Format.{field_columns};
ghost use Rattle.directory.specs.Reading.{three, first_line, second_line};

use columns::format::{FIELD_COLUMNS, RESERVED_COLUMNS};
use columns::{ParameterLine, Signed};
use directory::Fields;

// Writes a number.
fn put_number(out: &mut [u8], at: usize, x: Signed) -> usize
    requires { at < 2 ^ 60 }
    ensures wrote { Wrote out.old at (padded field_columns (signed_dec x)) out.new result }
    ensures upper_bound { result ≤ at + 19 }
{
    columns_decimals::put_signed_right(out, at, FIELD_COLUMNS, x)
}

// Writes three numbers.
fn put_three(out: &mut [u8], at: usize, x: Signed, y: Signed, z: Signed) -> usize
    requires { at < 2 ^ 59 + 200 }
    ensures wrote { Wrote out.old at (three x y z) out.new result }
    ensures upper_bound { result ≤ at + 57 }
{
    let a = put_number(out, at, x);
    let b = put_number(out, a, y);
    put_number(out, b, z)
}

// Writes the first D line of an entry; `from` is its parameter pointer. The status has eight digits.
pub fn put_first(out: &mut [u8], at: usize, x: Fields, from: ParameterLine) -> usize
    requires { at < 2 ^ 59 }
    ensures wrote { Wrote out.old at (first_line x from.0) out.new result }
    ensures upper_bound { result ≤ at + 252 }
{
    let status = x.status;
    let a = put_number(out, at, x.entity);
    let b = columns_decimals::put_right(out, a, b' ', FIELD_COLUMNS, from.0 as u64);
    let c = put_three(out, b, x.structure, x.font, x.level);
    let d = put_three(out, c, x.view, x.matrix, x.display);
    columns_decimals::put_right(out, d, b'0', FIELD_COLUMNS, status.size as u64)
}

// Writes its second D line; `count` is its parameter line count.
pub fn put_second(out: &mut [u8], at: usize, x: Fields, count: u32, label: &[u8]) -> usize
    requires at_bound { at < 2 ^ 59 }
    requires label_len_bound { length label.now ≤ field_columns }
    ensures wrote { Wrote out.old at (second_line x count label.now) out.new result }
    ensures upper_bound { result ≤ at + 252 }
{
    let a = put_three(out, at, x.entity, x.weight, x.colour);
    let b = columns_decimals::put_right(out, a, b' ', FIELD_COLUMNS, count as u64);
    let c = put_number(out, b, x.form);
    let d = columns_emit::put_run(out, c, b' ', RESERVED_COLUMNS);
    let e = columns_emit::put_all(out, d, label);
    put_number(out, e, x.subscript)
}
