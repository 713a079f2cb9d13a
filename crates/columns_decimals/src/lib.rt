// Numbers laid over a lent buffer from a place on, clipped to it, digit by digit.
#![tactic(auto)]

ghost use Rattle.std.specs.Prelude.{◌≡◌, ◌+◌, ◌-◌, ◌≤◌, ◌<◌, ◌^◌, length};
ghost use Rattle.columns.specs.Laid.{Wrote};
ghost use Rattle.columns.specs.Decimal.{dec, signed_dec, to_right, to_left};
ghost use Rattle.columns.specs.Letters.{space, digit0};

use columns::Signed;
use columns_emit::{put, put_all, put_run};

// The digit of n.
fn digit(n: u64) -> u8
    requires { n < 10 }
    ensures { result ≡ digit0 + n }
{
    b'0' + n as u8
}

// Writes n, whose digits end before `end`, from the last to the first.
fn put_clipped(out: &mut [u8], at: usize, n: u64, end: usize) -> usize
    requires { end ≡ at + length (dec n) }
    ensures wrote { Wrote out.old at (dec n) out.new result }
    ensures value { result ≡ end }
{
    let mut x = n;
    let mut i = end;
    // It ends with the digits of x: no index says when.
    while 10 <= x {
        i -= 1;
        put(out, i, digit(x % 10));
        x = x / 10;
    }
    put(out, at, digit(x));
    end
}

// The same where there is room for them: two at a time.
fn put_inside(out: &mut [u8], at: usize, n: u64, end: usize) -> usize
    requires end_value { end ≡ at + length (dec n) }
    requires end_in_bounds { end ≤ length out.old }
    ensures wrote { Wrote out.old at (dec n) out.new result }
    ensures value { result ≡ end }
{
    let mut x = n;
    let mut i = end;
    // As above, by x itself.
    while 100 <= x {
        let pair = x % 100;
        i -= 2;
        out[i] = digit(pair / 10);
        out[i + 1] = digit(pair % 10);
        x = x / 100;
    }
    if x < 10 {
        out[at] = digit(x);
        return end;
    }
    out[at] = digit(x / 10);
    out[at + 1] = digit(x % 10);
    end
}

// Writes n, which has `count` digits.
fn put_counted(out: &mut [u8], at: usize, n: u64, count: usize) -> usize
    requires at_bound { at + 20 < 2 ^ 64 }
    requires count_value { count ≡ length (dec n) }
    requires count_nonzero { 0 < count }
    requires count_bound { count ≤ 20 }
    ensures wrote { Wrote out.old at (dec n) out.new result }
    ensures lower_bound { (at < result) × (result ≤ at + 20) }
{
    let end = at + count;
    if end <= out.len() {
        return put_inside(out, at, n, end);
    }
    if out.len() <= at {
        return end;
    }
    put_clipped(out, at, n, end)
}

// How many digits n has, if it has eight at most.
fn count_few(n: u64) -> usize
    requires { n < 100000000 }
    ensures value { result ≡ length (dec n) }
    ensures result_nonzero { (0 < result) × (result ≤ 8) }
{
    if n < 10000 {
        if n < 100 {
            return if n < 10 { 1 } else { 2 };
        }
        return if n < 1000 { 3 } else { 4 };
    }
    if n < 1000000 {
        return if n < 100000 { 5 } else { 6 };
    }
    if n < 10000000 { 7 } else { 8 }
}

// How many digits n has.
pub fn count_digits(n: u64) -> usize
    ensures value { result ≡ length (dec n) }
    ensures result_nonzero { (0 < result) × (result ≤ 20) }
{
    if n < 100000000 {
        return count_few(n);
    }
    let high = n / 100000000;
    if high < 100000000 {
        return count_few(high) + 8;
    }
    count_few(high / 100000000) + 16
}

// Writes n in decimal.
pub fn put_decimal(out: &mut [u8], at: usize, n: u64) -> usize
    requires { at + 20 < 2 ^ 64 }
    ensures wrote { Wrote out.old at (dec n) out.new result }
    ensures lower_bound { (at < result) × (result ≤ at + 20) }
{
    let count = count_digits(n);
    put_counted(out, at, n, count)
}

// Writes n to the right of `width` columns, with b before it.
pub fn put_right(out: &mut [u8], at: usize, b: u8, width: usize, n: u64) -> usize
    requires at_bound { at < 2 ^ 62 }
    requires width_bound { width < 2 ^ 62 }
    ensures wrote { Wrote out.old at (to_right b width (dec n)) out.new result }
    ensures lower_bound { (at + width ≤ result) × (result ≤ at + width + 20) }
{
    let count = count_digits(n);
    let gap = width.saturating_sub(count);
    let next = put_run(out, at, b, gap);
    put_counted(out, next, n, count)
}

// Writes x in decimal, with its sign if it is negative.
pub fn put_signed(out: &mut [u8], at: usize, x: Signed) -> usize
    requires { at < 2 ^ 63 }
    ensures wrote { Wrote out.old at (signed_dec x) out.new result }
    ensures lower_bound { (at < result) × (result ≤ at + 11) }
{
    let neg = x.neg;
    let size = x.size as u64;
    if neg {
        let next = put(out, at, b'-');
        return put_decimal(out, next, size);
    }
    put_decimal(out, at, size)
}

// How many bytes x takes.
pub fn count_signed(x: Signed) -> usize
    ensures value { result ≡ length (signed_dec x) }
    ensures result_nonzero { (0 < result) × (result ≤ 11) }
{
    let neg = x.neg;
    let count = count_digits(x.size as u64);
    if neg { count + 1 } else { count }
}

// Writes x to the right of `width` columns, with blanks before it.
pub fn put_signed_right(out: &mut [u8], at: usize, width: usize, x: Signed) -> usize
    requires at_bound { at < 2 ^ 62 }
    requires width_bound { width < 2 ^ 62 }
    ensures wrote { Wrote out.old at (to_right space width (signed_dec x)) out.new result }
    ensures lower_bound { (at + width ≤ result) × (result ≤ at + width + 11) }
{
    let neg = x.neg;
    let size = x.size as u64;
    if neg {
        let count = count_signed(x);
        let gap = width.saturating_sub(count);
        let next = put_run(out, at, b' ', gap);
        return put_signed(out, next, x);
    }
    put_right(out, at, b' ', width, size)
}

// Writes s to the left of `width` columns, with blanks behind it.
pub fn put_left(out: &mut [u8], at: usize, width: usize, s: &[u8]) -> usize
    requires at_bound { at < 2 ^ 62 }
    requires width_bound { width < 2 ^ 62 }
    ensures wrote { Wrote out.old at (to_left width s.now) out.new result }
    ensures lower_bound { (at + width ≤ result) × (result ≤ at + width + length s.now) }
{
    let gap = width.saturating_sub(s.len());
    let next = put_all(out, at, s);
    put_run(out, next, b' ', gap)
}
