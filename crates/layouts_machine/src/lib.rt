// From place to place: a start, a step for each value, a verdict at the end.
#![tactic(auto)]

ghost use Rattle.std.specs.Prelude.{◌≡◌, ◌+◌, ◌≤◌, ◌<◌};
ghost use Rattle.layouts.specs.Table.{place_at, start_of};
ghost use Rattle.layouts.specs.Machine.{times, follow, enter, beyond, settle, onward, step, closed, end, start};
ghost use Rattle.layouts.specs.Machine.{reals, refers, kind_at, stand, runs_on};
ghost use Rattle.layouts.specs.Coded.{told};
ghost use Rattle.layouts.specs.Verdict.{OfLayout};

use columns::Fault;
use layouts::{LayoutState, Then, Times};
use layouts_lists::{ROWS, bit_of};
use layouts_rows::told::numeric_in;
use layouts_rows::{look, rests_in};
use layouts_takes::takes_in;
use references::NO_ENTRY;
use values::Value;

// How many places of a kind there are, by what was read.
#[tactic(auto, using(layouts::proofs::Values::products))]
fn times_in(t: Times, s: LayoutState) -> u64
    ensures { result ≡ times t s }
{
    match t {
        Times::Fixed(n) => n as u64,
        Times::N => s.k1 as u64,
        Times::Knots1 => s.k1 as u64 + s.m1 as u64 + 2,
        Times::Knots2 => s.k2 as u64 + s.m2 as u64 + 2,
        Times::C => (s.k1 as u64 + 1) * (s.k2 as u64 + 1),
        Times::ThreeC => 3 * ((s.k1 as u64 + 1) * (s.k2 as u64 + 1)),
    }
}

// The place after. The bounds on `at`, here and below, say that it does not wrap: the table is far smaller.
fn follow_to(x: Then, s: LayoutState) -> LayoutState
    requires { s.at < 4000 }
    ensures { (result ≡ follow x s) × (result.at ≤ s.at + 256) }
{
    let mut r = s;
    r.left = 0;
    match x {
        Then::Next => {
            r.at = s.at + 1;
            r
        }
    }
}

// At a place, with all of it left.
fn enter_at(s: LayoutState) -> LayoutState
    ensures { (result ≡ enter s) × (result.at ≡ s.at) }
{
    let p = look(s.at);
    let t = p.times;
    let mut r = s;
    r.left = times_in(t, s);
    r
}

// At the place after.
fn beyond_of(s: LayoutState) -> LayoutState
    requires { s.at < 4000 }
    ensures { (result ≡ beyond s) × (result.at ≤ s.at + 256) }
{
    let p = look(s.at);
    let x = p.next;
    enter_at(follow_to(x, s))
}

// Past a place of which there is none.
fn settle_of(s: LayoutState) -> LayoutState
    requires { s.at < 4000 }
    ensures { result ≡ settle s }
{
    if s.left == 0 {
        return beyond_of(s);
    }
    s
}

// Past a place that took a value.
#[tactic(auto, using(layouts::proofs::Moves::moves))]
fn onward_of(s: LayoutState) -> LayoutState
    requires { s.at < 900 }
    ensures { result ≡ onward s }
{
    if 1 < s.left {
        let mut r = s;
        r.left = s.left - 1;
        r
    } else {
        settle_of(beyond_of(s))
    }
}

// The state with so many left: a new one, so that its fields are kept apart and a step needs no copy of the whole.
pub fn with_left(s: LayoutState, left: u64) -> LayoutState
    ensures { result ≡ stand s s.at left }
{
    LayoutState { left, ..s }
}

// One value more, at a place of any kind.
fn step_from(s: LayoutState, v: Value, class: u8) -> Option<LayoutState>
    ensures { result ≡ step s v class }
{
    let p = look(s.at);
    let k = p.kind;
    let t = takes_in(k, s, v, class)?;
    if rests_in(k) {
        Some(t)
    } else {
        Some(onward_of(t))
    }
}

// The same, with the fields of the state kept apart.
fn step_any(s: LayoutState, v: Value, class: u8) -> Option<LayoutState>
    ensures { result ≡ step s v class }
{
    let t = with_left(s, s.left);
    step_from(t, v, class)
}

// What is told of the places by a bit for each: those below 64, and the others.
const REALS_LOW: u64 = 30400293984804865;

const REALS_HIGH: u64 = 70368760954880;

const REFERENCES_LOW: u64 = 7277827994311363220;

const REFERENCES_HIGH: u64 = 1453645242837802;

fn told_by(low: u64, high: u64, at: usize) -> bool
    ensures { result ≡ told low high at }
{
    if at < 64 {
        (low >> at) % 2 == 1
    } else if at < 128 {
        (high >> (at - 64)) % 2 == 1
    } else {
        false
    }
}

// Whether a place takes numbers as they come: R and Given.
fn reals_at(at: usize) -> bool
    ensures { result ≡ reals (place_at at).kind }
{
    told_by(REALS_LOW, REALS_HIGH, at)
}

// Whether a number stands where more of its kind follow: most values do.
pub fn runs_on(s: LayoutState, v: Value) -> bool
    ensures { result ≡ runs_on s v }
{
    if s.left <= 1 {
        return false;
    }
    if reals_at(s.at) {
        return numeric_in(v);
    }
    false
}

// One value more. The commonest case comes first, and is small enough to stand where the step is called.
#[tactic(auto, using(layouts::proofs::Steps::one_step))]
pub fn step(s: LayoutState, v: Value, class: u8) -> Option<LayoutState>
    ensures { result ≡ step s v class }
{
    if runs_on(s, v) {
        return Some(with_left(s, s.left - 1));
    }
    let t = with_left(s, s.left);
    let u = step_any(t, v, class)?;
    Some(with_left(u, u.left))
}

// At the rest of a row.
fn closed_of(bad: bool) -> Result<(), Fault>
    ensures { result ≡ closed bad }
{
    if bad {
        Err(Fault::LayoutReference)
    } else {
        Ok(())
    }
}

// No value more: what is missing is a default. The refusal is 14 or 15.
#[tactic(auto, using(layouts::proofs::Steps::ends))]
pub fn end(s: LayoutState) -> Result<(), Fault>
    ensures value { result ≡ end s }
    ensures of_layout { OfLayout result }
{
    let mut t = s;
    for _ in 0..16_usize {
        let p = look(t.at);
        let k = p.kind;
        if rests_in(k) {
            return closed_of(t.bad);
        }
        // A default passes the whole place, however many of it were left.
        let last = with_left(t, 1);
        let Some(u) = step_any(last, Value::Default, NO_ENTRY) else {
            return Err(Fault::Layout);
        };
        t = u;
    }
    Err(Fault::Layout)
}

// Where the places of each row start.
const STARTS: [u8; 14] = [0, 6, 13, 19, 26, 32, 45, 60, 69, 79, 88, 95, 102, 109];

// No row: where the first one starts.
#[tactic(auto, using(layouts::proofs::Steps::start_past), unfolding(layouts::specs::Table::start_of, layouts::specs::Layout::paper))]
fn start_of(bit: usize) -> usize
    ensures { result ≡ start_of bit }
{
    if bit < ROWS {
        usize::from(STARTS[bit])
    } else {
        0
    }
}

// At the first place of a type and form.
pub fn start(typ: u32, form: u32) -> LayoutState
    ensures { result ≡ start typ form }
{
    let i = start_of(bit_of(typ, form));
    let s = LayoutState {
        at: i,
        left: 0,
        k1: 0,
        k2: 0,
        m1: 0,
        m2: 0,
        bad: false,
    };
    enter_at(s)
}

// Whether the next value stands at a reference place: its mark in the sheet is R.
pub fn is_reference(s: LayoutState) -> bool
    ensures { result ≡ refers (kind_at s) }
{
    told_by(REFERENCES_LOW, REFERENCES_HIGH, s.at)
}
