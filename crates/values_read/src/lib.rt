// A number in the rest of a line, of any length, read without a loss; and the head of a string.
// Crate `values_digits` reads digits, `values_limits` makes the number of them.
#![tactic(auto)]

ghost use Rattle.std.specs.Prelude.{◌≡◌, true, false, ◌&&◌, ◌+◌, ◌-◌, ◌^◌, ◌≤◌, ◌<◌, length, drop, leb};
ghost use Rattle.std.specs.Prelude.{eqb};
ghost use Rattle.columns.specs.Letters.{letter_h};
ghost use Rattle.values.specs.Number.{sign_len, point_len, power_of, power, power_at, number_of};
ghost use Rattle.values.specs.Reading.{start, scan, cap_run, Small, Within};
ghost use Rattle.values.specs.Head.{head_of};

use columns::look;
use values::{Head, Power, Run, Token};
use values_digits::scan_at;
use values_limits::finish_of;

// How many characters a sign takes.
fn sign_len(c: u8) -> usize
    ensures { (result ≡ sign_len c) × (result ≤ 1) }
{
    if c == b'+' {
        1
    } else if c == b'-' {
        1
    } else {
        0
    }
}

// How many characters a point takes.
fn point_len(c: u8) -> usize
    ensures { (result ≡ point_len c) × (result ≤ 1) }
{
    if c == b'.' { 1 } else { 0 }
}

// The exponent of size x that count digits spell, if they are one to three.
fn power_from(neg: bool, count: usize, x: u64, double: bool, from: usize, end: usize) -> Power
    requires x_bound { x < 10 ^ count }
    requires from_bound { from ≤ 2 ^ 63 + 9 }
    ensures { result ≡ power_of neg count x double from end }
{
    if count < 1 {
        return Power::Wrong { at: from };
    }
    if 3 < count {
        return Power::Wrong { at: from + 3 };
    }
    if neg {
        Power::Of {
            up: 0,
            down: x as u16,
            double,
            end,
        }
    } else {
        Power::Of {
            up: x as u16,
            down: 0,
            double,
            end,
        }
    }
}

// The exponent behind its letter.
fn power_of(t: &[u8], i: usize, double: bool) -> Power
    requires { i ≤ 2 ^ 63 + 8 }
    ensures { result ≡ power t.now i double }
{
    let s = look::byte_at(t, i);
    let k = sign_len(s);
    let z = Run {
        value: 0,
        mant: 0,
        zeros: 0,
        count: 0,
    };
    let x = scan_at(t, i + k, z);
    power_from(s == b'-', x.count, x.value, double, i + k, i + k + x.count)
}

// The exponent at i, if its letter stands there.
fn power_at(t: &[u8], i: usize) -> Power
    requires { i ≤ 2 ^ 63 + 7 }
    ensures { result ≡ power_at t.now i }
{
    let c = look::byte_at(t, i);
    if c == b'E' {
        return power_of(t, i + 1, false);
    }
    if c == b'D' {
        return power_of(t, i + 1, true);
    }
    Power::None
}

// The digits before a point, behind a sign of a characters; r are those with which the text begins.
fn before_of(t: &[u8], a: usize, r: Run) -> Run
    requires r_value { r ≡ cap_run (scan t.now start) }
    requires count_in_bounds { r.count ≤ length t.now }
    requires small { Small r }
    ensures value { result ≡ cap_run (scan (drop a t.now) start) }
    ensures count_in_bounds_2 { (result.count ≤ length t.now - a) × Small result }
{
    if a == 0 {
        return r;
    }
    let z = Run {
        value: 0,
        mant: 0,
        zeros: 0,
        count: 0,
    };
    scan_at(t, a, z)
}

// The number that a text begins with; z are the digits with which it begins, read already.
fn read_from(t: &[u8], z: Run) -> Token
    requires z_value { z ≡ cap_run (scan t.now start) }
    requires count_in_bounds { z.count ≤ length t.now }
    requires small { Small z }
    ensures value { result ≡ number_of t.now }
    ensures len_in_bounds { result.len ≤ length t.now }
{
    let s = look::byte_at(t, 0);
    let a = sign_len(s);
    let w = before_of(t, a, z);
    let i = a + w.count;
    let p = point_len(look::byte_at(t, i));
    let r = scan_at(t, i + p, w);
    let end = a + r.count + p;
    finish_of(power_at(t, end), s == b'-', r, r.count - w.count, p, end)
}

// The number that a text begins with.
pub fn read(t: &[u8]) -> Token
    ensures value { result ≡ number_of t.now }
    ensures len_in_bounds { result.len ≤ length t.now }
{
    let z = Run {
        value: 0,
        mant: 0,
        zeros: 0,
        count: 0,
    };
    let r = scan_at(t, 0, z);
    read_from(t, r)
}

// Whether n digits that spell v, and x behind them, are a string's count.
fn is_count(x: u8, n: usize, v: u64) -> bool
    ensures { result ≡ (eqb x letter_h && (leb n 3 && leb 1 v)) }
{
    if x != b'H' {
        return false;
    }
    if 3 < n {
        return false;
    }
    1 <= v
}

// What the rest of a line begins with.
pub fn head_of(l: &[u8]) -> Head
    ensures value { result ≡ head_of l.now }
    ensures within { Within (length l.now) result }
{
    let z = Run {
        value: 0,
        mant: 0,
        zeros: 0,
        count: 0,
    };
    let r = scan_at(l, 0, z);
    let x = look::byte_at(l, r.count);
    if is_count(x, r.count, r.value) {
        return Head::Count {
            count: r.value as usize,
            len: r.count + 1,
        };
    }
    Head::Plain(read_from(l, r))
}
