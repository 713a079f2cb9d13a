// How many lines the canonical file of a sheet has, line by line, for a walk over the sheet. Nothing is counted further than a file goes.
#![tactic(auto)]

ghost use Rattle.std.specs.Prelude.{◌≡◌, false, ◌+◌, ◌-◌, ◌^◌, ◌≤◌, ◌<◌, Some};
ghost use Rattle.columns.specs.Format.{text_columns, parameter_columns};
ghost use Rattle.values.specs.declared.Value.TheVariants.{Whole};
ghost use Rattle.values.specs.Value.{item_of};
ghost use Rattle.values.specs.Strict.{strict_of};
ghost use Rattle.records.specs.Flow.{line_count};
ghost use Rattle.records.specs.Written.{copied, piece_end};
ghost use Rattle.file_canonical.specs.Counting.{skipped, with_start, with_global, with_entry, with_value};
ghost use Rattle.file_canonical.specs.Counting.{tally_said, counts_in, total_in, within, behind_value, capped, Under, Few, Short};

use cards::Counts;
use columns::format::{MOST_LINES, PARAMETER_COLUMNS, TEXT_COLUMNS};
use file_canonical::Tally;
use records_flow::{line_count, piece_end, spelled_end};
use sheets::Said;
use values::Value;

// Those of the P lines that a file may have.
const MOST_COLUMNS: usize = MOST_LINES * PARAMETER_COLUMNS;

// How many fields are default between two that are given.
fn skipped(field: u32, n: u32) -> usize
    ensures { (result ≡ skipped field n) × (result < 2 ^ 32) }
{
    if field < n {
        return (n - field - 1) as usize;
    }
    0
}

// An S line.
fn with_start(x: Tally) -> Tally
    requires { Under (2 ^ 36) x }
    ensures value { result ≡ with_start x }
    ensures under { Under (2 ^ 38) result }
{
    Tally {
        s: x.s + 1,
        global: x.global,
        field: x.field,
        d: x.d,
        p: x.p,
        at: x.at,
    }
}

// A G line.
fn with_global(x: Tally, n: u32, v: Value) -> Tally
    requires under { Under (2 ^ 36) x }
    requires v_bound { copied v ≤ 999 }
    ensures value { result ≡ with_global x n (piece_end text_columns (x.global + skipped x.field n) v) }
    ensures under_2 { Under (2 ^ 38) result }
{
    let k = skipped(x.field, n);
    let e = piece_end(TEXT_COLUMNS, x.global + k, v);
    Tally {
        s: x.s,
        global: e,
        field: n,
        d: x.d,
        p: x.p,
        at: x.at,
    }
}

// An entry line: the lines of the entry before are whole.
fn with_entry(x: Tally, typ: u32) -> Tally
    requires { Under (2 ^ 36) x }
    ensures value { result ≡ with_entry x (line_count parameter_columns x.at) (piece_end parameter_columns 0 (Whole false typ)) }
    ensures under { Under (2 ^ 38) result }
{
    let k = line_count(PARAMETER_COLUMNS, x.at);
    let v = Value::Whole {
        neg: false,
        size: typ,
    };
    let e = piece_end(PARAMETER_COLUMNS, 0, v);
    Tally {
        s: x.s,
        global: x.global,
        field: x.field,
        d: x.d + 2,
        p: x.p + k,
        at: e,
    }
}

// A value line.
fn with_value(x: Tally, v: Value) -> Tally
    requires under { Under (2 ^ 36) x }
    requires v_bound { copied v ≤ 999 }
    ensures value { result ≡ with_value x (piece_end parameter_columns x.at v) }
    ensures under_2 { Under (2 ^ 38) result }
{
    let e = piece_end(PARAMETER_COLUMNS, x.at, v);
    Tally {
        s: x.s,
        global: x.global,
        field: x.field,
        d: x.d,
        p: x.p,
        at: e,
    }
}

// One line more.
pub fn tally_said(x: Tally, y: Said) -> Tally
    requires under { Under (2 ^ 36) x }
    requires short { Short y }
    ensures value { result ≡ tally_said x y }
    ensures under_2 { Under (2 ^ 38) result }
{
    match y {
        Said::Start => with_start(x),
        Said::Global { number, value, .. } => with_global(x, number, value),
        Said::Entry { fields, .. } => {
            let entity = fields.entity;
            with_entry(x, entity.size)
        }
        Said::Value { value, .. } => with_value(x, value),
        Said::Last(_) => x,
        Said::Nothing(_) => x,
    }
}

// The position behind the value of a value line, which stands at p: what the line says is its canonical spelling, so its length tells it.
pub fn behind_value(p: usize, l: &[u8], v: Value) -> usize
    requires p_bound { p ≤ 2 ^ 38 }
    requires l_value { strict_of l.now ≡ Some v }
    ensures value { result ≡ behind_value p (item_of l.now v) }
    ensures upper_bound { result ≤ 2 ^ 38 }
{
    if MOST_COLUMNS < p {
        return p;
    }
    spelled_end(PARAMETER_COLUMNS, p, l.len(), v)
}

fn total_of(x: Tally) -> usize
    requires { Under (2 ^ 38) x }
    ensures { result ≡ total_in x }
{
    let g = line_count(TEXT_COLUMNS, x.global);
    let p = line_count(PARAMETER_COLUMNS, x.at);
    x.s + g + x.d + (x.p + p) + 1
}

// Behind the value lines of an entry, the last of which ends at this position. Too many lines are told by one too many, so that no sum
// grows on.
pub fn with_values(x: Tally, at: usize) -> Tally
    requires under { Under (2 ^ 38) x }
    requires at_bound { at ≤ 2 ^ 38 }
    ensures value { result ≡ capped (with_value x at) }
    ensures under_2 { Under (2 ^ 36) result }
{
    let y = Tally {
        s: x.s,
        global: x.global,
        field: x.field,
        d: x.d,
        p: x.p,
        at,
    };
    if total_of(y) <= MOST_LINES {
        return y;
    }
    Tally {
        s: MOST_LINES + 1,
        global: 0,
        field: 0,
        d: 0,
        p: 0,
        at: 0,
    }
}

// The counts of a tally that a file may have.
fn counts_in(x: Tally) -> Counts
    requires under { Under (2 ^ 36) x }
    requires few { Few x }
    ensures { result ≡ counts_in x }
{
    let g = line_count(TEXT_COLUMNS, x.global);
    let p = line_count(PARAMETER_COLUMNS, x.at);
    Counts {
        s: x.s as u32,
        g: g as u32,
        d: x.d as u32,
        p: (x.p + p) as u32,
        t: 1,
    }
}

// The lines of a tally, unless they are more than a file may have.
pub fn lines_of(x: Tally) -> Option<Counts>
    requires { Under (2 ^ 36) x }
    ensures { result ≡ within x }
{
    if total_of(x) <= MOST_LINES {
        return Some(counts_in(x));
    }
    None
}
