// One value of free format: an integer, a real, a string or a default. Crate `values_read` reads a number or a string's head from the rest
// of a line, `values_spell` writes a value in its one spelling, `values_strict` reads that spelling alone.
#![tactic(auto)]

ghost use Rattle.std.specs.Prelude.{◌≡◌};
ghost use Rattle.values.specs.Value.{is_missing};

// A value as it is read. A real is m times ten to plus or minus e; a string is where its characters stand in the record's text, and how
// many.
#[derive(Clone, Copy)]
pub enum Value {
    Default,
    Whole {
        neg: bool,
        size: u32,
    },
    Real {
        neg: bool,
        m: u64,
        eneg: bool,
        e: u32,
        double: bool,
    },
    Text {
        start: usize,
        count: usize,
    },
}

// What the rest of a line spells as a number; beyond its limits; or no number.
#[derive(Clone, Copy)]
pub enum Number {
    Whole {
        neg: bool,
        size: u32,
    },
    Real {
        neg: bool,
        m: u64,
        eneg: bool,
        e: u32,
        double: bool,
    },
    Beyond,
    Bad,
}

// What was read, and of how many characters: for a bad one, up to the first that cannot continue it.
#[derive(Clone, Copy)]
pub struct Token {
    pub number: Number,
    pub len: usize,
}

// What the rest of a line begins with: a string's count with its H, of so many characters, or a number.
#[derive(Clone, Copy)]
pub enum Head {
    Count { count: usize, len: usize },
    Plain(Token),
}

// An exponent: none, a wrong one with the first place that cannot continue it, or ten to up less down.
#[derive(Clone, Copy)]
pub enum Power {
    None,
    Wrong {
        at: usize,
    },
    Of {
        up: u16,
        down: u16,
        double: bool,
        end: usize,
    },
}

// The digits read so far: the number that they spell, the number that they spell up to the last that is not 0, how many zeros
// follow that one, and how many digits there are.
#[derive(Clone, Copy)]
pub struct Run {
    pub value: u64,
    pub mant: u64,
    pub zeros: usize,
    pub count: usize,
}

// A number in plain decimal, and where it ends.
#[derive(Clone, Copy)]
pub struct Decimal {
    pub value: u64,
    pub end: usize,
}

// Whether a value is a default.
pub fn is_missing(v: Value) -> bool
    ensures { result ≡ is_missing v }
{
    matches!(v, Value::Default)
}
