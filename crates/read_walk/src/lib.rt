// One walk over an entity's values behind its type: it checks them, steps the layout and measures their lines in the sheet.
// The layout and the sheet see the values up to the last that is no default, so defaults are owed until a value is given behind them.
#![tactic(auto)]

ghost use Rattle.std.specs.Prelude.{◌≡◌, ◌+◌, ◌*◌, ◌^◌, ◌≤◌, ◌<◌, length, replicate};
ghost use Rattle.columns.specs.Columns.{text_of};
ghost use Rattle.columns.specs.Format.{line_bytes, parameter_columns};
ghost use Rattle.values.specs.Value.{default};
ghost use Rattle.records.specs.Record.{values_at};
ghost use Rattle.records.specs.Written.{copied};
ghost use Rattle.directory.specs.Naming.{types_at};
ghost use Rattle.layouts.specs.Walk.{run};
ghost use Rattle.read_entities.specs.Walking.{EntityStands, state_after, owed_after, length_after, walked_from, Light};

use columns::Fault;
use columns::format::PARAMETER_COLUMNS;
use layouts::LayoutState;
use layouts_machine::{runs_on, with_left};
use read_entities::Walked;
use read_entities::marks::mark_step;
use records::{Found, Misspelt};
use records_read::value_at;
use values::{Value, is_missing};
use values_spell::{head_len, real_len, whole_len};

// The mark, the tab and the LF of a value line.
const AROUND: usize = 3;

// The layout behind so many defaults.
fn behind_defaults(
    file: &[u8],
    first: usize,
    n: usize,
    g: Option<LayoutState>,
    owed: usize,
) -> Option<LayoutState>
    requires { line_bytes * (first + 2 * n) ≤ length file.now }
    ensures { result ≡ run (types_at file.now first n) g (replicate owed default) }
{
    let mut state = g;
    for _ in 0..owed {
        state = mark_step(file, first, n, state, Value::Default);
    }
    state
}

// The layout behind this value and the defaults owed before it; a default is owed. Most values are numbers where more of their kind follow:
// they are answered here, for a state or a value that is passed on is copied through memory.
fn state_after(
    file: &[u8],
    first: usize,
    n: usize,
    g: Option<LayoutState>,
    owed: usize,
    v: Value,
) -> Option<LayoutState>
    requires { line_bytes * (first + 2 * n) ≤ length file.now }
    ensures { result ≡ state_after (types_at file.now first n) g owed v }
{
    if is_missing(v) {
        return g;
    }
    match g {
        None => None,
        Some(s) => {
            if owed == 0 {
                if runs_on(s, v) {
                    return Some(with_left(s, s.left - 1));
                }
            }
            let h = behind_defaults(file, first, n, Some(with_left(s, s.left)), owed);
            mark_step(file, first, n, h, v)
        }
    }
}

// The bytes of the value lines up to this value; its fields are passed, not the value.
fn length_after(length: usize, owed: usize, v: Value) -> usize
    requires length_len_bound { length < 2 ^ 60 }
    requires owed_bound { owed < 2 ^ 60 }
    requires v_bound { copied v ≤ 999 }
    ensures value { result ≡ length_after length owed v }
    ensures upper_bound { result ≤ length + 3 * owed + 1046 }
{
    match v {
        Value::Default => length,
        Value::Whole { neg, size } => length + AROUND * owed + AROUND + whole_len(neg, size),
        Value::Real {
            neg,
            m,
            eneg,
            e,
            double,
        } => length + AROUND * owed + AROUND + real_len(neg, m, eneg, e, double),
        Value::Text { count, .. } => length + AROUND * owed + AROUND + head_len(count) + count,
    }
}

// How many defaults are owed behind it.
fn owed_after(owed: usize, v: Value) -> usize
    requires { owed < 2 ^ 60 }
    ensures { result ≡ owed_after owed v }
{
    if is_missing(v) {
        return owed + 1;
    }
    0
}

// The values from position from on, the layout begun.
pub fn walk(
    file: &[u8],
    base: usize,
    lines: usize,
    c: u8,
    d: u8,
    from: usize,
    begun: Option<LayoutState>,
    first: usize,
    n: usize,
) -> Result<Walked, Fault>
    requires entity_stands { EntityStands file.now base lines c d first n }
    requires from_bound { from ≤ lines * parameter_columns }
    ensures value { result ≡ walked_from (types_at file.now first n) begun 0 0
        (values_at parameter_columns c d (text_of file.now base parameter_columns lines) from) }
    ensures light { Light (70400 * lines) result }
{
    let mut q = from;
    let mut state = begun;
    let mut owed: usize = 0;
    let mut length: usize = 0;
    // From value to value: the last says that it is.
    loop {
        let g = value_at(file, base, PARAMETER_COLUMNS, lines, c, d, q);
        match g {
            Err(Misspelt { fault, .. }) => {
                return Err(fault);
            }
            Ok(
                Found {
                    value,
                    next,
                    last,
                    ..
                },
            ) => {
                state = state_after(file, first, n, state, owed, value);
                length = length_after(length, owed, value);
                owed = owed_after(owed, value);
                if last {
                    return Ok(Walked { state, length });
                }
                q = next;
            }
        }
    }
}
