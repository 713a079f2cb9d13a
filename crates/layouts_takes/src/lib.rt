// What a place makes of a value.
#![tactic(auto)]

ghost use Rattle.std.specs.Prelude.{◌≡◌, true, ◌||◌, ◌&&◌, ◌^◌, ◌<◌, eqb, Some};
ghost use Rattle.layouts.specs.Machine.{need, with_k1, with_k2, with_m1, with_m2, with_bad, refer, takes};

use columns::format::MOST_INTEGER;
use layouts::{Kind, LayoutState};
use layouts_rows::told::{above_in, numeric_in, size_in, text_in, within_in};
use values::{Value, is_missing};

const MOST_UPPER: u32 = 10000;

// A test that fails is refusal 14.
fn need_of(b: bool, s: LayoutState) -> Option<LayoutState>
    ensures { result ≡ need b s }
{
    b.then_some(s)
}

fn zero_in(free: bool, n: u32) -> bool
    ensures { result ≡ (free && eqb n 0) }
{
    free && n == 0
}

// A bad reference is kept to the end.
fn noted(s: LayoutState, bad: bool) -> Option<LayoutState>
    ensures { result ≡ Some (with_bad s (s.bad || bad)) }
{
    let mut t = s;
    t.bad = s.bad || bad;
    Some(t)
}

// A number that is right is kept.
fn keep_k1(b: bool, s: LayoutState, n: u32) -> Option<LayoutState>
    ensures { result ≡ need b (with_k1 s n) }
{
    let mut t = s;
    t.k1 = n;
    need_of(b, t)
}

fn keep_k2(b: bool, s: LayoutState, n: u32) -> Option<LayoutState>
    requires { b ≡ true → n < 2 ^ 16 }
    ensures { result ≡ need b (with_k2 s n) }
{
    b.then(|| {
        let mut t = s;
        t.k2 = n as u16;
        t
    })
}

fn keep_m1(b: bool, s: LayoutState, n: u32) -> Option<LayoutState>
    ensures { result ≡ need b (with_m1 s n) }
{
    let mut t = s;
    t.m1 = n;
    need_of(b, t)
}

fn keep_m2(b: bool, s: LayoutState, n: u32) -> Option<LayoutState>
    ensures { result ≡ need b (with_m2 s n) }
{
    let mut t = s;
    t.m2 = n;
    need_of(b, t)
}

// A reference, which may be 0 or missing where free.
fn refer_in(free: bool, want: u8, s: LayoutState, v: Value, class: u8) -> Option<LayoutState>
    ensures { result ≡ refer free want s v class }
{
    match v {
        Value::Default => noted(s, !free),
        Value::Whole { size: n, .. } => noted(
            s,
            !(zero_in(free, n) || references::fits(want, class)),
        ),
        Value::Real { .. } => None,
        Value::Text { .. } => None,
    }
}

// What a place of kind k makes of a value.
#[tactic(auto, using(crate::proofs::Taking::small_outer, crate::proofs::Taking::small_upper), unfolding(layouts::specs::Machine::takes))]
pub fn takes_in(k: Kind, s: LayoutState, v: Value, class: u8) -> Option<LayoutState>
    ensures { result ≡ takes k s v class }
{
    match k {
        Kind::R => need_of(numeric_in(v) || is_missing(v), s),
        Kind::Given => need_of(numeric_in(v), s),
        Kind::Weight => need_of(above_in(v), s),
        Kind::S => need_of(text_in(v) || is_missing(v), s),
        Kind::I { low, high } => need_of(within_in(false, low, high, v), s),
        Kind::Flag => need_of(within_in(true, 0, 1, v), s),
        Kind::Count => keep_k1(within_in(false, 0, MOST_INTEGER, v), s, size_in(v)),
        Kind::Outer => keep_k2(within_in(false, 0, 1, v), s, size_in(v)),
        Kind::Upper1 => keep_k1(within_in(true, 1, MOST_UPPER, v), s, size_in(v)),
        Kind::Upper2 => keep_k2(within_in(true, 1, MOST_UPPER, v), s, size_in(v)),
        Kind::Degree1 => keep_m1(within_in(true, 1, s.k1, v), s, size_in(v)),
        Kind::Degree2 => keep_m2(within_in(true, 1, s.k2 as u32, v), s, size_in(v)),
        Kind::P { want } => refer_in(true, want, s, v, class),
        Kind::Q { want } => refer_in(false, want, s, v, class),
        Kind::Bound { want } => refer_in(s.k2 != 1, want, s, v, class),
        Kind::Rest => need_of(is_missing(v), s),
    }
}
