// A value's one spelling, laid over a lent buffer; with an empty buffer it is measured.
#![tactic(auto)]

ghost use Rattle.std.specs.Prelude.{◌≡◌, ◌+◌, ◌^◌, ◌≤◌, ◌<◌, length};
ghost use Rattle.columns.specs.Decimal.{minus};
ghost use Rattle.columns.specs.Laid.{Wrote};
ghost use Rattle.values.specs.Value.{whole, real, letter, ten_to, exponent, head, spelled};
ghost use Rattle.values.specs.Writing.{front};

use values::Value;

// A minus, or nothing.
fn put_sign(out: &mut [u8], at: usize, neg: bool) -> usize
    requires { at < 2 ^ 62 }
    ensures wrote { Wrote out.old at (minus neg) out.new result }
    ensures upper_bound { result ≤ at + 1 }
{
    if neg {
        return columns_emit::put(out, at, b'-');
    }
    at
}

// D for a double, E for a single.
fn letter_of(double: bool) -> u8
    ensures { result ≡ letter double }
{
    if double { b'D' } else { b'E' }
}

// The letter, the sign and the digits of an exponent.
fn put_power(out: &mut [u8], at: usize, eneg: bool, e: u32, double: bool) -> usize
    requires { at < 2 ^ 61 }
    ensures wrote { Wrote out.old at (ten_to eneg e double) out.new result }
    ensures upper_bound { result ≤ at + 22 }
{
    let n = u64::from(e);
    let x = letter_of(double);
    let a = columns_emit::put(out, at, x);
    let b = put_sign(out, a, eneg);
    columns_decimals::put_decimal(out, b, n)
}

// The exponent, where the spelling has one.
fn put_exponent(out: &mut [u8], at: usize, eneg: bool, e: u32, double: bool) -> usize
    requires { at < 2 ^ 61 }
    ensures wrote { Wrote out.old at (exponent eneg e double) out.new result }
    ensures upper_bound { result ≤ at + 22 }
{
    if double {
        return put_power(out, at, eneg, e, double);
    }
    if e == 0 {
        return at;
    }
    put_power(out, at, eneg, e, double)
}

// An integer.
pub fn put_whole(out: &mut [u8], at: usize, neg: bool, size: u32) -> usize
    requires { at < 2 ^ 60 }
    ensures wrote { Wrote out.old at (spelled (whole neg size)) out.new result }
    ensures upper_bound { result ≤ at + 44 }
{
    let n = u64::from(size);
    let a = put_sign(out, at, neg);
    columns_decimals::put_decimal(out, a, n)
}

// A real.
pub fn put_real(
    out: &mut [u8],
    at: usize,
    neg: bool,
    m: u64,
    eneg: bool,
    e: u32,
    double: bool,
) -> usize
    requires { at < 2 ^ 60 }
    ensures wrote { Wrote out.old at (spelled (real neg m eneg e double)) out.new result }
    ensures upper_bound { result ≤ at + 44 }
{
    let a = put_sign(out, at, neg);
    let b = columns_decimals::put_decimal(out, a, m);
    let c = columns_emit::put(out, b, b'.');
    put_exponent(out, c, eneg, e, double)
}

// A string's count and its H.
pub fn put_head(out: &mut [u8], at: usize, count: usize) -> usize
    requires { at < 2 ^ 60 }
    ensures wrote { Wrote out.old at (head count) out.new result }
    ensures upper_bound { result ≤ at + 44 }
{
    let a = columns_decimals::put_decimal(out, at, count as u64);
    columns_emit::put(out, a, b'H')
}

// A value but for a string's characters.
pub fn put_front(out: &mut [u8], at: usize, v: Value) -> usize
    requires { at < 2 ^ 60 }
    ensures wrote { Wrote out.old at (front v) out.new result }
    ensures upper_bound { result ≤ at + 44 }
{
    match v {
        Value::Default => at,
        Value::Whole { neg, size } => put_whole(out, at, neg, size),
        Value::Real {
            neg,
            m,
            eneg,
            e,
            double,
        } => put_real(out, at, neg, m, eneg, e, double),
        Value::Text { count, .. } => put_head(out, at, count),
    }
}

// How long a sign is.
fn sign_len(neg: bool) -> usize
    ensures { (result ≡ length (minus neg)) × (result ≤ 1) }
{
    if neg { 1 } else { 0 }
}

// How long the exponent is, where the spelling has one.
fn exponent_len(eneg: bool, e: u32, double: bool) -> usize
    ensures { (result ≡ length (exponent eneg e double)) × (result ≤ 22) }
{
    let s = sign_len(eneg);
    if double {
        return 1 + s + columns_decimals::count_digits(u64::from(e));
    }
    if e == 0 {
        return 0;
    }
    1 + s + columns_decimals::count_digits(u64::from(e))
}

// How long an integer is.
pub fn whole_len(neg: bool, size: u32) -> usize
    ensures { (result ≡ length (spelled (whole neg size))) × (result ≤ 44) }
{
    sign_len(neg) + columns_decimals::count_digits(u64::from(size))
}

// How long a real is.
pub fn real_len(neg: bool, m: u64, eneg: bool, e: u32, double: bool) -> usize
    ensures { (result ≡ length (spelled (real neg m eneg e double))) × (result ≤ 44) }
{
    sign_len(neg) + columns_decimals::count_digits(m) + 1 + exponent_len(eneg, e, double)
}

// How long a string's count and its H are.
pub fn head_len(count: usize) -> usize
    ensures { (result ≡ length (head count)) × (result ≤ 44) }
{
    columns_decimals::count_digits(count as u64) + 1
}

// How long a value is but for a string's characters.
pub fn front_len(v: Value) -> usize
    ensures { (result ≡ length (front v)) × (result ≤ 44) }
{
    match v {
        Value::Default => 0,
        Value::Whole { neg, size } => whole_len(neg, size),
        Value::Real {
            neg,
            m,
            eneg,
            e,
            double,
        } => real_len(neg, m, eneg, e, double),
        Value::Text { count, .. } => head_len(count),
    }
}
