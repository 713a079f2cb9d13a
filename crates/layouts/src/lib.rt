// The type list and the layouts of its types, as one machine: a state, a step for each value of an entity, a verdict at the end.
// Crate `layouts_lists` says what a list knows, `layouts_rows` has the table of places, `layouts_takes` is what a place makes of a value,
// `layouts_machine` goes from place to place.
#![tactic(auto)]

// A kind of place. R, S, I, P, Q are the paper's r, s, i, p, q.
#[derive(Clone, Copy)]
pub enum Kind {
    R,
    // 126 and 128: a real that must be given, a weight.
    Given,
    Weight,
    S,
    I { low: u32, high: u32 },
    // 126 and 128: a flag.
    Flag,
    // A count, N; the N1 of 144.
    Count,
    Outer,
    // 126 and 128: K or K1, K2, M or M1, M2.
    Upper1,
    Upper2,
    Degree1,
    Degree2,
    P { want: u8 },
    Q { want: u8 },
    // The p of 144.
    Bound { want: u8 },
    // After the layout and its two groups: nothing but defaults.
    Rest,
}

// Where it goes on after a place: in this edition always at the next one.
#[derive(Clone, Copy)]
pub enum Then {
    Next,
}

// How many places of a kind stand side by side.
#[derive(Clone, Copy)]
pub enum Times {
    Fixed(u8),
    N,
    Knots1,
    Knots2,
    C,
    ThreeC,
}

// So many places of a kind, and where it goes on.
#[derive(Clone, Copy)]
pub struct LayoutPlace {
    pub kind: Kind,
    pub times: Times,
    pub next: Then,
}

// Where the machine stands: at a place, with so many of it left; the numbers read so far; whether a reference was bad. Where a value
// can't stand there is no state behind it: that is refusal 14.
// The widths keep 3(K1+1)(K2+1) in 64 bits.
#[derive(Clone, Copy)]
pub struct LayoutState {
    pub at: usize,
    pub left: u64,
    pub k1: u32,
    pub k2: u16,
    pub m1: u32,
    pub m2: u32,
    pub bad: bool,
}
