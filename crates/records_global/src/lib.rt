// The Global section's opening, and what its fields may hold.
#![tactic(auto)]

ghost use Rattle.std.specs.Prelude.{◌≡◌, ◌+◌, ◌*◌, ◌≤◌, drop};
ghost use Rattle.columns.specs.Columns.{text_of};
ghost use Rattle.columns.specs.Format.{text_columns};
ghost use Rattle.records.specs.Record.{blanks};
ghost use Rattle.records.specs.Global.{may_delimit, opened, record_delimiter, opening_of, kind_of, up_to, in_range, is_kind, global_fits};
ghost use Rattle.records.specs.Reading.{Stands, Delimits, sets_apart};

use columns::format::TEXT_COLUMNS;
use records::{GlobalKind, Opening};
use values::Value;

// Neither a blank nor a digit.
fn sets_apart(x: u8) -> bool
    ensures { result ≡ sets_apart x }
{
    33 <= x && (x < b'0' || b'9' < x)
}

#[tactic(auto, unfolding(records::specs::Global::may_delimit))]
fn may_delimit(x: u8) -> bool
    ensures { result ≡ may_delimit x }
{
    match x {
        b'+' | b'-' | b'.' | b'D' | b'E' | b'H' => false,
        _ => sets_apart(x),
    }
}

#[tactic(auto, unfolding(records::specs::Global::opened))]
fn opened_of(c: u8, d: u8, next: usize, last: bool) -> Option<Opening>
    ensures { result ≡ opened c d next last }
{
    if !may_delimit(c) || !may_delimit(d) || c == d {
        return None;
    }
    Some(Opening {
        parameter: c,
        closing: d,
        next,
        last,
    })
}

// The record delimiter and what stands behind it, from position p on.
#[tactic(auto, unfolding(records::specs::Global::record_delimiter))]
fn record_delimiter(file: &[u8], base: usize, lines: usize, c: u8, p: usize) -> Option<Opening>
    requires stands { Stands file.now base text_columns lines }
    requires p_bound { p ≤ 4 }
    ensures { result ≡ record_delimiter c (text_of file.now base text_columns lines) p }
{
    let x = records_read::char_at(file, base, TEXT_COLUMNS, lines, p);
    if x == c {
        return opened_of(c, b';', p + 1, false);
    }
    if x == b';' {
        return opened_of(c, b';', p + 1, true);
    }
    let h = records_read::char_at(file, base, TEXT_COLUMNS, lines, p + 1);
    if x != b'1' || h != b'H' {
        return None;
    }
    let d = records_read::char_at(file, base, TEXT_COLUMNS, lines, p + 2);
    let y = records_read::char_at(file, base, TEXT_COLUMNS, lines, p + 3);
    if y == c {
        return opened_of(c, d, p + 4, false);
    }
    if y == d {
        return opened_of(c, d, p + 4, true);
    }
    None
}

// The opening of the Global text, which stands from base on.
#[tactic(auto, using(records::proofs::Globals::delimits_by), unfolding(records::specs::Global::opening_of))]
pub fn opening_of(file: &[u8], base: usize, lines: usize) -> Option<Opening>
    requires { Stands file.now base text_columns lines }
    ensures value { result ≡ opening_of (text_of file.now base text_columns lines) }
    ensures delimits { Delimits 8 result }
{
    let x = records_read::char_at(file, base, TEXT_COLUMNS, lines, 0);
    if x == b',' {
        return record_delimiter(file, base, lines, b',', 1);
    }
    let h = records_read::char_at(file, base, TEXT_COLUMNS, lines, 1);
    let c = records_read::char_at(file, base, TEXT_COLUMNS, lines, 2);
    let y = records_read::char_at(file, base, TEXT_COLUMNS, lines, 3);
    if x != b'1' || h != b'H' || y != c {
        return None;
    }
    record_delimiter(file, base, lines, c, 4)
}

// The first position from p on that is no blank, or the text's length: stray text, if the record ends at p.
pub fn stray(file: &[u8], base: usize, w: usize, lines: usize, p: usize) -> usize
    requires stands { Stands file.now base w lines }
    requires p_bound { p ≤ lines * w }
    ensures value { result ≡ p + blanks (drop p (text_of file.now base w lines)) }
    ensures lower_bound { (p ≤ result) × (result ≤ lines * w) }
{
    records_read::behind_blanks(file, base, w, lines, p)
}

// What field n holds.
#[tactic(auto, unfolding(records::specs::Global::kind_of))]
fn kind_of(n: u32) -> GlobalKind
    ensures { result ≡ kind_of n }
{
    match n {
        3..=6 | 12 | 15 | 18 | 21 | 22 => GlobalKind::String,
        13 | 17 | 19 | 20 => GlobalKind::Real,
        _ => GlobalKind::Integer,
    }
}

fn up_to(high: u32, neg: bool, size: u32) -> bool
    ensures { result ≡ up_to high neg size }
{
    !neg && 1 <= size && size <= high
}

#[tactic(auto, unfolding(records::specs::Global::in_range))]
fn in_range(n: u32, neg: bool, size: u32) -> bool
    ensures { result ≡ in_range n neg size }
{
    match n {
        14 => up_to(11, neg, size),
        23 => up_to(6, neg, size),
        _ => true,
    }
}

fn is_kind(k: GlobalKind, n: u32, v: Value) -> bool
    ensures { result ≡ is_kind k n v }
{
    match k {
        GlobalKind::String => matches!(v, Value::Default | Value::Text { .. }),
        GlobalKind::Real => !matches!(v, Value::Text { .. }),
        GlobalKind::Integer => match v {
            Value::Default => true,
            Value::Whole { neg, size } => in_range(n, neg, size),
            _ => false,
        },
    }
}

// Whether Global field n may hold this value.
#[tactic(auto, unfolding(records::specs::Global::global_fits))]
pub fn global_fits(n: u32, v: Value) -> bool
    ensures { result ≡ global_fits n v }
{
    if 24 < n {
        return false;
    }
    let k = kind_of(n);
    is_kind(k, n, v)
}
