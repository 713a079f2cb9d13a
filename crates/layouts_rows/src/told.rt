// What a place must know of a value.
ghost use Rattle.std.specs.Prelude.{◌≡◌};
ghost use Rattle.layouts.specs.Machine.{numeric, above, text, within, size};

use values::Value;

// A real, or an integer, which counts as that whole number.
pub fn numeric_in(v: Value) -> bool
    ensures { result ≡ numeric v }
{
    matches!(v, Value::Whole { .. } | Value::Real { .. })
}

// Above zero.
pub fn above_in(v: Value) -> bool
    ensures { result ≡ above v }
{
    match v {
        Value::Whole { neg, size: n } => !neg && 0 < n,
        Value::Real { neg, m, .. } => !neg && 0 < m,
        _ => false,
    }
}

pub fn text_in(v: Value) -> bool
    ensures { result ≡ text v }
{
    matches!(v, Value::Text { .. })
}

// An integer from low to high; a default is 0 where it need not be given.
pub fn within_in(given: bool, low: u32, high: u32, v: Value) -> bool
    ensures { result ≡ within given low high v }
{
    match v {
        Value::Default => !given && low == 0,
        Value::Whole { neg, size: n } => !neg && low <= n && n <= high,
        _ => false,
    }
}

// A default counts as 0.
pub fn size_in(v: Value) -> u32
    ensures { result ≡ size v }
{
    match v {
        Value::Whole { size: n, .. } => n,
        _ => 0,
    }
}
