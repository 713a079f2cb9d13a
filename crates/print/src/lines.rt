// A line with a value that was read in a record's text.
ghost use Rattle.std.specs.Prelude.{◌≡◌, [], ◌∷◌, ◌++◌, ◌+◌, ◌*◌, ◌^◌, ◌≤◌, ◌<◌};
ghost use Rattle.columns.specs.Columns.{text_of};
ghost use Rattle.columns.specs.Laid.{Wrote};
ghost use Rattle.columns.specs.Format.{text_columns, parameter_columns};
ghost use Rattle.columns.specs.Letters.{newline};
ghost use Rattle.values.specs.Value.{real, item_of};
ghost use Rattle.values.specs.Writing.{chars};
ghost use Rattle.records.specs.Reading.{Stands, Writable};
ghost use Rattle.sheets.specs.Sheet.{Line, line_of};

use crate::characters::put_text;
use columns::format::{PARAMETER_COLUMNS, TEXT_COLUMNS};
use sheets_lay::{put_global_head, put_value_head, value_mark};
use values::Value;

// A string's characters; nothing of any other value.
fn put_chars(
    out: &mut [u8],
    at: usize,
    file: &[u8],
    base: usize,
    w: usize,
    lines: usize,
    v: Value,
) -> usize
    requires stands { Stands file.now base w lines }
    requires writable { Writable (lines * w) v }
    requires at_bound { at < 2 ^ 60 }
    ensures wrote { Wrote out.old at (chars (text_of file.now base w lines) v) out.new result }
    ensures upper_bound { result ≤ at + 999 }
{
    match v {
        Value::Default => at,
        Value::Whole { .. } => at,
        Value::Real { .. } => at,
        Value::Text { start, count } => put_text(out, at, file, base, w, lines, start, count),
    }
}

// The line of an entity's value.
pub fn put_value_line(
    out: &mut [u8],
    at: usize,
    file: &[u8],
    base: usize,
    lines: usize,
    reference: bool,
    v: Value,
) -> usize
    requires stands { Stands file.now base parameter_columns lines }
    requires writable { Writable (lines * parameter_columns) v }
    requires at_bound { at < 2 ^ 59 }
    ensures wrote { Wrote out.old at
        (line_of (Line.value reference (item_of (text_of file.now base parameter_columns lines) v)) ++ (newline ∷ []))
        out.new result }
    ensures upper_bound { result ≤ at + 1100 }
{
    let a = put_value_head(out, at, reference, v);
    let b = put_chars(out, a, file, base, PARAMETER_COLUMNS, lines, v);
    columns_emit::put(out, b, b'\n')
}

// The line of a real, by its fields: a value that is passed on is copied through memory.
fn put_real_line(
    out: &mut [u8],
    at: usize,
    reference: bool,
    neg: bool,
    m: u64,
    eneg: bool,
    e: u32,
    double: bool,
) -> usize
    requires { at < 2 ^ 59 }
    ensures wrote { Wrote out.old at (line_of (Line.value reference (real neg m eneg e double)) ++ (newline ∷ []))
        out.new result }
    ensures upper_bound { result ≤ at + 1100 }
{
    let a = columns_emit::put(out, at, value_mark(reference));
    let b = columns_emit::put(out, a, b'\t');
    let c = values_spell::put_real(out, b, neg, m, eneg, e, double);
    columns_emit::put(out, c, b'\n')
}

// The line of an entity's value, which is mostly a real.
pub fn put_mostly_real(
    out: &mut [u8],
    at: usize,
    file: &[u8],
    base: usize,
    lines: usize,
    reference: bool,
    v: Value,
) -> usize
    requires stands { Stands file.now base parameter_columns lines }
    requires writable { Writable (lines * parameter_columns) v }
    requires at_bound { at < 2 ^ 59 }
    ensures wrote { Wrote out.old at
        (line_of (Line.value reference (item_of (text_of file.now base parameter_columns lines) v)) ++ (newline ∷ []))
        out.new result }
    ensures upper_bound { result ≤ at + 1100 }
{
    match v {
        Value::Real {
            neg,
            m,
            eneg,
            e,
            double,
        } => put_real_line(out, at, reference, neg, m, eneg, e, double),
        _ => put_value_line(out, at, file, base, lines, reference, v),
    }
}

// The line of Global field n.
pub fn put_global_line(
    out: &mut [u8],
    at: usize,
    file: &[u8],
    base: usize,
    lines: usize,
    n: u32,
    v: Value,
) -> usize
    requires stands { Stands file.now base text_columns lines }
    requires writable { Writable (lines * text_columns) v }
    requires at_bound { at < 2 ^ 59 }
    ensures wrote { Wrote out.old at
        (line_of (Line.global n (item_of (text_of file.now base text_columns lines) v)) ++ (newline ∷ []))
        out.new result }
    ensures upper_bound { result ≤ at + 1100 }
{
    let a = put_global_head(out, at, n, v);
    let b = put_chars(out, a, file, base, TEXT_COLUMNS, lines, v);
    columns_emit::put(out, b, b'\n')
}
