// The number that digits, a point and an exponent make, within its limits.
#![tactic(auto)]

ghost use Rattle.std.specs.Prelude.{◌≡◌, false, ◌+◌, ◌-◌, ◌^◌, ◌≤◌, ◌<◌};
ghost use Rattle.values.specs.Number.{whole_of, normal};
ghost use Rattle.values.specs.Reading.{finish_run};

use columns::format::MOST_INTEGER_WIDE;
use values::{Number, Power, Run, Token};

// An integer within its limit.
fn whole_of(neg: bool, v: u64, end: usize) -> Token
    ensures { result ≡ whole_of neg v end }
{
    if MOST_INTEGER_WIDE < v {
        return Token {
            number: Number::Beyond,
            len: end,
        };
    }
    if v == 0 {
        return Token {
            number: Number::Whole {
                neg: false,
                size: 0,
            },
            len: end,
        };
    }
    Token {
        number: Number::Whole {
            neg,
            size: v as u32,
        },
        len: end,
    }
}

// m times ten to up less down, within its limits.
fn real_of(neg: bool, m: u64, up: usize, down: usize, double: bool, end: usize) -> Token
    ensures { result ≡ normal neg m up down double end }
{
    if m == 0 {
        return Token {
            number: Number::Real {
                neg: false,
                m: 0,
                eneg: false,
                e: 0,
                double,
            },
            len: end,
        };
    }
    let e = up.abs_diff(down);
    if 100_000_000_000_000_000 <= m {
        return Token {
            number: Number::Beyond,
            len: end,
        };
    }
    if 400 < e {
        return Token {
            number: Number::Beyond,
            len: end,
        };
    }
    Token {
        number: Number::Real {
            neg,
            m,
            eneg: up < down,
            e: e as u32,
            double,
        },
        len: end,
    }
}

// The number of these digits, n of them behind the point, p of it there, with this exponent.
pub fn finish_of(x: Power, neg: bool, r: Run, n: usize, p: usize, end: usize) -> Token
    requires zeros_bound { r.zeros ≤ 2 ^ 63 }
    requires n_bound { n ≤ 2 ^ 63 }
    ensures { result ≡ finish_run x neg r n p end }
{
    if r.count == 0 {
        return Token {
            number: Number::Bad,
            len: end,
        };
    }
    match x {
        Power::None => {
            if p == 0 {
                whole_of(neg, r.value, end)
            } else {
                real_of(neg, r.mant, r.zeros, n, false, end)
            }
        }
        Power::Wrong { at } => Token {
            number: Number::Bad,
            len: at,
        },
        Power::Of {
            up,
            down,
            double,
            end: last,
        } => real_of(
            neg,
            r.mant,
            r.zeros + usize::from(up),
            n + usize::from(down),
            double,
            last,
        ),
    }
}
