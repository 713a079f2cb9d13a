// Sheets out: each function writes a line and its LF, clipped to the buffer, and returns the place after it.
#![tactic(auto)]

ghost use Rattle.std.specs.Prelude.{◌≡◌, false, cond, [], ◌∷◌, ◌++◌, ◌+◌, ◌^◌, ◌≤◌, ◌<◌, length};
ghost use Rattle.columns.specs.Laid.{Wrote};
ghost use Rattle.columns.specs.Letters.{tab, newline, letter_e, letter_r, letter_u, letter_v};
ghost use Rattle.directory.specs.Fields.{in_order};
ghost use Rattle.sheets.specs.Plain.{sized};
ghost use Rattle.sheets.specs.Line.{number_count, spell, spells};
ghost use Rattle.sheets.specs.Sheet.{Line, line_of};
ghost use Rattle.sheets.specs.Writing.{global_head, value_head, entry_length};

use columns::format::FIELD_COLUMNS;
use columns::{DirectoryNumber, Signed};
use directory::{Fields, order};
use values::Value;

// Writes a mark and a tab.
fn put_mark(out: &mut [u8], at: usize, m: u8) -> usize
    requires { at < 2 ^ 61 }
    ensures wrote { Wrote out.old at (m ∷ tab ∷ []) out.new result }
    ensures value { result ≡ at + 2 }
{
    let next = columns_emit::put(out, at, m);
    columns_emit::put(out, next, b'\t')
}

// Writes a text and LF.
fn put_tail(out: &mut [u8], at: usize, t: &[u8]) -> usize
    requires { at < 2 ^ 61 }
    ensures wrote { Wrote out.old at (t.now ++ (newline ∷ [])) out.new result }
    ensures value { result ≡ at + length t.now + 1 }
{
    let next = columns_emit::put_all(out, at, t);
    columns_emit::put(out, next, b'\n')
}

// An S line.
pub fn put_start(out: &mut [u8], at: usize, text: &[u8]) -> usize
    requires { at < 2 ^ 60 }
    ensures wrote { Wrote out.old at (line_of (Line.start text.now) ++ (newline ∷ [])) out.new result }
    ensures value { result ≡ at + length text.now + 3 }
{
    let next = put_mark(out, at, b'S');
    put_tail(out, next, text)
}

// A G line up to a string's characters.
pub fn put_global_head(out: &mut [u8], at: usize, n: u32, v: Value) -> usize
    requires { at < 2 ^ 59 }
    ensures wrote { Wrote out.old at (global_head n v) out.new result }
    ensures upper_bound { result ≤ at + 67 }
{
    let a = put_mark(out, at, b'G');
    let b = columns_decimals::put_decimal(out, a, n as u64);
    let c = columns_emit::put(out, b, b'\t');
    values_spell::put_front(out, c, v)
}

// R of a reference, V of any other value.
pub fn value_mark(reference: bool) -> u8
    ensures { result ≡ cond reference letter_r letter_v }
{
    if reference { b'R' } else { b'V' }
}

// A value line up to a string's characters.
pub fn put_value_head(out: &mut [u8], at: usize, reference: bool, v: Value) -> usize
    requires { at < 2 ^ 59 }
    ensures wrote { Wrote out.old at (value_head reference v) out.new result }
    ensures upper_bound { result ≤ at + 46 }
{
    let m = value_mark(reference);
    let a = put_mark(out, at, m);
    values_spell::put_front(out, a, v)
}

// Writes a number of an entry line that `left` others follow: the status has eight digits.
fn put_num(out: &mut [u8], at: usize, left: usize, x: Signed) -> usize
    requires { at < 2 ^ 61 }
    ensures wrote { Wrote out.old at (spell left x) out.new result }
    ensures upper_bound { result ≤ at + 28 }
{
    if left == 3 {
        return columns_decimals::put_right(out, at, b'0', FIELD_COLUMNS, x.size as u64);
    }
    columns_decimals::put_signed(out, at, x)
}

// The numbers of an entry line in their order: its directory number, and those of the entry.
fn in_order(n: DirectoryNumber, x: Fields) -> [Signed; 13]
    ensures { result ≡ sized false n.0 ∷ in_order x }
{
    let number = Signed {
        neg: false,
        size: n.0,
    };
    let mut xs = [number; 13];
    xs[1..].copy_from_slice(&order::in_order(x));
    xs
}

// Writes the numbers, a tab behind each.
#[tactic(auto, using(sheets::proofs::Written::written))]
fn put_numbers(out: &mut [u8], at: usize, xs: [Signed; 13]) -> usize
    requires { at < 2 ^ 60 }
    ensures wrote { Wrote out.old at (spells number_count xs) out.new result }
    ensures upper_bound { result ≤ at + 377 }
{
    let mut next = at;
    for (k, x) in xs.iter().enumerate() {
        next = put_num(out, next, order::NUMBERS - k, *x);
        next = columns_emit::put(out, next, b'\t');
    }
    next
}

fn mark_of(known: bool) -> u8
    ensures { result ≡ cond known letter_e letter_u }
{
    if known { b'E' } else { b'U' }
}

// An entry line.
pub fn put_entry(
    out: &mut [u8],
    at: usize,
    known: bool,
    number: DirectoryNumber,
    fields: Fields,
    label: &[u8],
) -> usize
    requires { at < 2 ^ 59 }
    ensures wrote { Wrote out.old at
        (line_of (Line.entry known (sized false number.0) fields label.now) ++ (newline ∷ [])) out.new result }
    ensures upper_bound { result ≤ at + length label.now + 380 }
{
    let m = mark_of(known);
    let xs = in_order(number, fields);
    let a = put_mark(out, at, m);
    let b = put_numbers(out, a, xs);
    put_tail(out, b, label)
}

// How many bytes a number of an entry line takes that `left` others follow: the status has eight digits.
fn num_len(left: usize, x: Signed) -> usize
    ensures value { result ≡ length (spell left x) }
    ensures upper_bound { result ≤ 20 }
{
    if left != 3 {
        return columns_decimals::count_signed(x);
    }
    let count = columns_decimals::count_digits(x.size as u64);
    if count < FIELD_COLUMNS {
        FIELD_COLUMNS
    } else {
        count
    }
}

// How many bytes the numbers take, a tab behind each.
#[tactic(auto, using(sheets::proofs::Measured::measured))]
fn numbers_len(xs: [Signed; 13]) -> usize
    ensures value { result ≡ length (spells number_count xs) }
    ensures upper_bound { result ≤ 273 }
{
    let mut size = 0;
    for (k, x) in xs.iter().enumerate() {
        size += num_len(order::NUMBERS - k, *x) + 1;
    }
    size
}

// How many bytes an entry line takes whose label has so many.
pub fn entry_len(number: DirectoryNumber, fields: Fields, label: usize) -> usize
    requires { label < 2 ^ 60 }
    ensures value { result ≡ entry_length number.0 fields label }
    ensures upper_bound { result ≤ label + 276 }
{
    let xs = in_order(number, fields);
    let n = numbers_len(xs);
    n + label + 3
}

// The Z line.
pub fn put_last(out: &mut [u8], at: usize, n: usize) -> usize
    requires { at < 2 ^ 60 }
    ensures wrote { Wrote out.old at (line_of (Line.last n) ++ (newline ∷ [])) out.new result }
    ensures upper_bound { result ≤ at + 23 }
{
    let a = put_mark(out, at, b'Z');
    let b = columns_decimals::put_decimal(out, a, n as u64);
    columns_emit::put(out, b, b'\n')
}
