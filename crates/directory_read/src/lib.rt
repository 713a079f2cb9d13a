// The two D lines of an entry, read where they stand. A line is told by its index in the file, from 0: it is a place in the bytes.
#![tactic(auto)]

ghost use Rattle.std.specs.Prelude.{false, ◌≡◌, ◌+◌, ◌*◌, ◌^◌, ◌≤◌, ◌<◌, length};
ghost use Rattle.columns.specs.Columns.{columns};
ghost use Rattle.columns.specs.Fixed.{field_of, signed_of, with_sign};
ghost use Rattle.columns.specs.Reading.{SizeBelow};
ghost use Rattle.columns.specs.Format.{line_bytes, field_columns};
ghost use Rattle.directory.specs.Fields.{type_at};
ghost use Rattle.directory.specs.Lines.{Slot, slot_in, unsigned, number_in, Numbers, numbers_from, entry_at};
ghost use Rattle.directory.specs.Lines.{positive, size_of, is_same, spelt_as};
ghost use Rattle.directory.specs.Reading.{slot_at, Small};

use columns::format::FIELD_COLUMNS;
use columns::{ParameterLine, Signed};
use directory::{Fields, Spelt, lines, order};

// What the slot from `at` on holds, a sign allowed.
fn signed_at(file: &[u8], at: usize) -> Option<Signed>
    requires { at + field_columns ≤ length file.now }
    ensures value { result ≡ signed_of (columns file.now at (at + field_columns)) }
    ensures size_below { SizeBelow 100000000 result }
{
    columns_fixed::read_signed(file, at, at + FIELD_COLUMNS)
}

// What slot j holds, a sign allowed.
fn signed_in(file: &[u8], k: usize, j: usize) -> Option<Signed>
    requires line_bytes_in_bounds { line_bytes * k + 2 * line_bytes ≤ length file.now }
    requires j_bound { j < 18 }
    ensures value { result ≡ signed_of (slot_at file.now k j) }
    ensures size_below { SizeBelow 100000000 result }
{
    let at = lines::start_of(k, j);
    signed_at(file, at)
}

// A field without a sign.
fn plain(f: Option<u32>) -> Option<Signed>
    ensures { result ≡ with_sign false f }
{
    f.map(|n| Signed {
        neg: false,
        size: n,
    })
}

// What slot j holds, no sign allowed.
fn plain_in(file: &[u8], k: usize, j: usize) -> Option<Signed>
    requires line_bytes_in_bounds { line_bytes * k + 2 * line_bytes ≤ length file.now }
    requires j_bound { j < 18 }
    ensures { result ≡ with_sign false (field_of (slot_at file.now k j)) }
{
    let at = lines::start_of(k, j);
    plain(columns_fixed::read_field(file, at, at + FIELD_COLUMNS))
}

// Whether number n has no sign: status and subscript.
fn is_plain(n: usize) -> bool
    ensures { result ≡ unsigned n }
{
    n == order::STATUS || n == order::SUBSCRIPT
}

// Number n of the entry.
fn number_in(file: &[u8], k: usize, n: usize) -> Option<Signed>
    requires line_bytes_in_bounds { line_bytes * k + 2 * line_bytes ≤ length file.now }
    requires n_bound { n < 12 }
    ensures { result ≡ number_in file.now k n }
{
    let j = lines::place_of(n);
    if is_plain(n) {
        return plain_in(file, k, j);
    }
    signed_in(file, k, j)
}

fn is_same(x: Signed, f: Option<Signed>) -> bool
    ensures { result ≡ is_same x f }
{
    let Some(n) = f else {
        return false;
    };
    if x.size != n.size {
        return false;
    }
    if x.neg {
        return n.neg;
    }
    !n.neg
}

fn is_positive(f: Option<Signed>) -> bool
    ensures { result ≡ positive f }
{
    let Some(n) = f else {
        return false;
    };
    if n.neg {
        return false;
    }
    1 <= n.size
}

fn size_of(f: Option<Signed>) -> u32
    ensures { result ≡ size_of f }
{
    f.map_or(0, |n| n.size)
}

// The numbers x, with the type again, the parameter pointer and the line count.
fn spelt_as(
    x: Fields,
    again: Option<Signed>,
    from: Option<Signed>,
    count: Option<Signed>,
) -> Option<Spelt>
    ensures { result ≡ spelt_as x again from count }
{
    if !is_same(x.entity, again) {
        return None;
    }
    if !is_positive(from) {
        return None;
    }
    if !is_positive(count) {
        return None;
    }
    Some(Spelt {
        fields: x,
        pointer: ParameterLine(size_of(from)),
        lines: size_of(count),
    })
}

// The entry of the numbers xs.
fn with_pointer(file: &[u8], k: usize, xs: [Signed; order::NUMBERS]) -> Option<Spelt>
    requires line_bytes_in_bounds { line_bytes * k + 2 * line_bytes ≤ length file.now }
    requires k_value { numbers_from file.now k 0 12 ≡ Numbers.numbers xs }
    ensures value { result ≡ entry_at file.now k }
    ensures small { Small result }
{
    let again = signed_in(file, k, lines::AGAIN);
    let from = signed_in(file, k, lines::POINTER);
    let count = signed_in(file, k, lines::COUNT);
    spelt_as(order::fields_of(xs), again, from, count)
}

// The entry whose first D line is line k; `None` if a field of it is wrong.
#[tactic(auto, using(crate::proofs::Spelt::entries))]
pub fn entry_at(file: &[u8], k: usize) -> Option<Spelt>
    requires { line_bytes * k + 2 * line_bytes ≤ length file.now }
    ensures value { result ≡ entry_at file.now k }
    ensures small { Small result }
{
    let none = Signed {
        neg: false,
        size: 0,
    };
    let mut xs = [none; order::NUMBERS];
    for n in 0..order::NUMBERS {
        xs[n] = number_in(file, k, n)?;
    }
    with_pointer(file, k, xs)
}

// The size of what slot j holds.
#[tactic(auto, using(crate::proofs::Spelt::sizes))]
fn size_in(file: &[u8], k: usize, j: usize) -> u32
    requires line_bytes_in_bounds { line_bytes * k + 2 * line_bytes ≤ length file.now }
    requires j_bound { j < 18 }
    ensures value { result ≡ size_of (signed_of (slot_at file.now k j)) }
    ensures upper_bound { result < 100000000 }
{
    let at = lines::start_of(k, j);
    let f = signed_at(file, at);
    size_of(f)
}

// Its type.
pub fn type_at(file: &[u8], k: usize) -> u32
    requires { line_bytes * k + 2 * line_bytes ≤ length file.now }
    ensures value { result ≡ size_of (signed_of (slot_in file.now k (Slot.number type_at))) }
    ensures upper_bound { result < 100000000 }
{
    size_in(file, k, lines::TYPE)
}

// The byte where its label starts.
pub fn label_at(k: usize) -> usize
    requires { line_bytes * k + 2 * line_bytes < 2 ^ 64 }
    ensures { result ≡ line_bytes * (k + 1) + 7 * field_columns }
{
    lines::start_of(k, lines::LABEL)
}
