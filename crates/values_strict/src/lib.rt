// A value's one spelling read back, and no other: straight from the text, by what stands behind its sign and its digits.
#![tactic(auto)]

ghost use Rattle.std.specs.Prelude.{◌≡◌, ◌||◌, ◌+◌, ◌≤◌, ◌<◌, min, length, drop, ltb, eqb, Some};
ghost use Rattle.columns.specs.Decimal.{minus};
ghost use Rattle.columns.specs.Letters.{letter_d, letter_e};
ghost use Rattle.values.specs.Strict.{strict_of, meant};
ghost use Rattle.values.specs.Writing.{front, Placed};
ghost use Rattle.values.specs.Direct.{decimal, is_whole, is_nought, is_normal, as_whole, as_real, behind_letter, behind_point};
ghost use Rattle.values.specs.Direct.{behind_count};

use columns::format::MOST_INTEGER_WIDE;
use columns::{byte_u64, look};
use values::{Decimal, Value};

// Where digits are read to: a number has seventeen at most, and the text ends at n.
fn stop_of(n: usize, at: usize) -> usize
    requires { at ≤ n }
    ensures { result ≡ min n (at + 17) }
{
    if n - at < 17 { n } else { at + 17 }
}

// The number that stands at `at`, of seventeen digits at most; it ends there if there is none.
#[tactic(auto, using(values::proofs::Backs::decimals))]
fn decimal_at(l: &[u8], at: usize) -> Decimal
    requires { at ≤ length l.now }
    ensures value { result ≡ decimal (drop at l.now) at }
    ensures at_le_end { (at ≤ result.end) × (result.end ≤ length l.now) }
{
    let c = look::byte_at(l, at);
    if c < b'0' {
        return Decimal { value: 0, end: at };
    }
    if b'9' < c {
        return Decimal { value: 0, end: at };
    }
    let mut v = byte_u64(c - b'0');
    if c == b'0' {
        return Decimal {
            value: 0,
            end: at + 1,
        };
    }
    let stop = stop_of(l.len(), at);
    for k in at + 1..stop {
        let d = l[k];
        if d < b'0' {
            return Decimal { value: v, end: k };
        }
        if b'9' < d {
            return Decimal { value: v, end: k };
        }
        v = v * 10 + byte_u64(d - b'0');
    }
    Decimal {
        value: v,
        end: stop,
    }
}

// How many characters a minus takes.
fn minus_len(neg: bool) -> usize
    ensures { (result ≡ length (minus neg)) × (result ≤ 1) }
{
    if neg { 1 } else { 0 }
}

// Whether an integer keeps its limit; 0 has no sign.
fn is_whole(neg: bool, size: u64) -> bool
    ensures { result ≡ is_whole neg size }
{
    size <= MOST_INTEGER_WIDE && (!neg || 0 < size)
}

// An integer that ends with the text.
#[tactic(auto, using(values::proofs::Backs::limits))]
fn as_whole(neg: bool, size: u64) -> Option<Value>
    ensures { result ≡ as_whole neg size }
{
    is_whole(neg, size).then(|| Value::Whole {
        neg,
        size: size as u32,
    })
}

// Nought has no sign and no exponent.
fn is_nought(neg: bool, m: u64, eneg: bool, e: u64) -> bool
    ensures { result ≡ is_nought neg m eneg e }
{
    m == 0 && !neg && !eneg && e == 0
}

// Whether a real is normal and keeps its limits.
fn is_normal(neg: bool, m: u64, eneg: bool, e: u64) -> bool
    ensures { result ≡ is_normal neg m eneg e }
{
    if 400 < e {
        return false;
    }
    if m % 10 == 0 {
        return is_nought(neg, m, eneg, e);
    }
    !eneg || 0 < e
}

// A real that ends with the text.
#[tactic(auto, using(values::proofs::Backs::limits))]
fn as_real(neg: bool, m: u64, eneg: bool, e: u64, double: bool) -> Option<Value>
    ensures { result ≡ as_real neg m eneg e double }
{
    is_normal(neg, m, eneg, e).then(|| Value::Real {
        neg,
        m,
        eneg,
        e: e as u32,
        double,
    })
}

// A single has no exponent 0.
fn is_spelt(e: u64, double: bool) -> bool
    ensures { result ≡ (double || ltb 0 e) }
{
    double || 0 < e
}

// A real, whose exponent stands at i.
fn behind_letter(l: &[u8], neg: bool, m: u64, double: bool, i: usize) -> Option<Value>
    requires { i ≤ length l.now }
    ensures { result ≡ behind_letter l.now neg m double i }
{
    let eneg = look::byte_at(l, i) == b'-';
    let k = i + minus_len(eneg);
    let x = decimal_at(l, k);
    if x.end == k {
        return None;
    }
    if x.end != l.len() {
        return None;
    }
    if is_spelt(x.value, double) {
        return as_real(neg, m, eneg, x.value, double);
    }
    None
}

// E or D.
fn is_letter(c: u8) -> bool
    ensures { result ≡ (eqb c letter_e || eqb c letter_d) }
{
    c == b'E' || c == b'D'
}

// A real, whose point stands before i.
fn behind_point(l: &[u8], neg: bool, m: u64, i: usize) -> Option<Value>
    requires { i ≤ length l.now }
    ensures { result ≡ behind_point l.now neg m i }
{
    if i == l.len() {
        return as_real(neg, m, false, 0, false);
    }
    let c = l[i];
    if is_letter(c) {
        return behind_letter(l, neg, m, c == b'D', i + 1);
    }
    None
}

// A string, whose characters start at i.
#[tactic(auto, using(values::proofs::Backs::behinds))]
fn behind_count(l: &[u8], neg: bool, count: u64, i: usize) -> Option<Value>
    requires { i ≤ length l.now }
    ensures { result ≡ behind_count l.now neg count i }
{
    if neg {
        return None;
    }
    if count < 1 {
        return None;
    }
    if 999 < count {
        return None;
    }
    let n = count as usize;
    if i + n != l.len() {
        return None;
    }
    look::is_printable(l, i, l.len()).then_some(Value::Text { start: i, count: n })
}

// The value that has this spelling, if there is one. A string is where its characters stand in that text.
pub fn strict(l: &[u8]) -> Option<Value>
    ensures value { result ≡ strict_of l.now }
    ensures placed { Placed (length l.now) result }
{
    if l.len() == 0 {
        return Some(Value::Default);
    }
    let neg = l[0] == b'-';
    let a = minus_len(neg);
    let x = decimal_at(l, a);
    let i = x.end;
    if i == a {
        return None;
    }
    if i == l.len() {
        return as_whole(neg, x.value);
    }
    let c = l[i];
    if c == b'.' {
        return behind_point(l, neg, x.value, i + 1);
    }
    if c == b'H' {
        return behind_count(l, neg, x.value, i + 1);
    }
    None
}

// How much of a value's spelling stands before a string's characters; of any other value all. An H ends a string's count, of one to three
// digits, and no other spelling has one.
pub fn front_of(l: &[u8]) -> usize
    requires { strict_of l.now ≡ Some (meant l.now) }
    ensures value { result ≡ length (front (meant l.now)) }
    ensures upper_bound { result ≤ length l.now }
{
    let n = l.len();
    if n < 3 {
        return n;
    }
    if l[1] == b'H' {
        return 2;
    }
    if l[2] == b'H' {
        return 3;
    }
    if n < 4 {
        return n;
    }
    if l[3] == b'H' {
        return 4;
    }
    n
}
