// The order of a sheet's lines: what each line does to the state, and the verdict at the end.
ghost use Rattle.std.specs.Prelude.{◌≡◌, ◌+◌, ◌*◌, ◌^◌, ◌≤◌, ◌<◌};
ghost use Rattle.sheets.specs.Order.{start_step, global_step, entry_step, value_step, last_step, none_step, finish};
ghost use Rattle.sheets.specs.Reading.{step_said, piece_verdict};

use crate::{AT_END, IN_ENTRIES, IN_GLOBALS, IN_STARTS, Said, SheetState};
use columns::{SheetLine, Signed};
use values::{Value, is_missing};

#[tactic(auto, using(crate::proofs::Steps::starts))]
fn start_step(st: SheetState) -> Result<SheetState, SheetLine>
    requires { st.line < 2 ^ 63 }
    ensures { result ≡ start_step st }
{
    if let Some(run) = st.run {
        return Err(run);
    }
    if IN_STARTS < st.section {
        return Err(SheetLine(st.line + 1));
    }
    Ok(SheetState {
        section: IN_STARTS,
        field: st.field,
        entries: st.entries,
        run: None,
        line: st.line + 1,
    })
}

// G numbers rise.
#[tactic(auto, using(crate::proofs::Steps::globals))]
fn global_step(st: SheetState, n: u32) -> Result<SheetState, SheetLine>
    requires { st.line < 2 ^ 63 }
    ensures { result ≡ global_step st n }
{
    if let Some(run) = st.run {
        return Err(run);
    }
    if st.section < IN_STARTS {
        return Err(SheetLine(st.line + 1));
    }
    if IN_GLOBALS < st.section {
        return Err(SheetLine(st.line + 1));
    }
    if n <= st.field {
        return Err(SheetLine(st.line + 1));
    }
    Ok(SheetState {
        section: IN_GLOBALS,
        field: n,
        entries: st.entries,
        run: None,
        line: st.line + 1,
    })
}

// Directory numbers are 1, 3, 5 on.
#[tactic(auto, using(crate::proofs::Steps::entries))]
fn entry_step(st: SheetState, x: Signed) -> Result<SheetState, SheetLine>
    requires line_bound { st.line < 2 ^ 63 }
    requires entries_le_line { st.entries ≤ st.line }
    ensures { result ≡ entry_step st x }
{
    if let Some(run) = st.run {
        return Err(run);
    }
    if st.section < IN_STARTS {
        return Err(SheetLine(st.line + 1));
    }
    if IN_ENTRIES < st.section {
        return Err(SheetLine(st.line + 1));
    }
    if x.neg {
        return Err(SheetLine(st.line + 1));
    }
    if x.size as usize != 2 * st.entries + 1 {
        return Err(SheetLine(st.line + 1));
    }
    Ok(SheetState {
        section: IN_ENTRIES,
        field: st.field,
        entries: st.entries + 1,
        run: None,
        line: st.line + 1,
    })
}

// Values may not end with a default: the first of such a run is remembered.
#[tactic(auto, using(crate::proofs::Steps::values))]
pub fn value_step(st: SheetState, default: bool) -> Result<SheetState, SheetLine>
    requires { st.line < 2 ^ 63 }
    ensures { result ≡ value_step st default }
{
    let line = st.line + 1;
    if st.section != IN_ENTRIES {
        return Err(SheetLine(line));
    }
    if default {
        let first = st.run.unwrap_or(SheetLine(line));
        return Ok(SheetState {
            section: IN_ENTRIES,
            field: st.field,
            entries: st.entries,
            run: Some(first),
            line,
        });
    }
    Ok(SheetState {
        section: IN_ENTRIES,
        field: st.field,
        entries: st.entries,
        run: None,
        line,
    })
}

// The Z line counts the entries.
#[tactic(auto, using(crate::proofs::Steps::lasts))]
fn last_step(st: SheetState, n: usize) -> Result<SheetState, SheetLine>
    requires { st.line < 2 ^ 63 }
    ensures { result ≡ last_step st n }
{
    if let Some(run) = st.run {
        return Err(run);
    }
    if st.section < IN_STARTS {
        return Err(SheetLine(st.line + 1));
    }
    if IN_ENTRIES < st.section {
        return Err(SheetLine(st.line + 1));
    }
    if n != st.entries {
        return Err(SheetLine(st.line + 1));
    }
    Ok(SheetState {
        section: AT_END,
        field: st.field,
        entries: st.entries,
        run: None,
        line: st.line + 1,
    })
}

#[tactic(auto, using(crate::proofs::Steps::nones))]
fn none_step(st: SheetState, b: bool) -> Result<SheetState, SheetLine>
    requires { st.line < 2 ^ 63 }
    ensures { result ≡ none_step st b }
{
    let line = st.line + 1;
    if b {
        return Err(SheetLine(line));
    }
    if let Some(run) = st.run {
        return Err(run);
    }
    Err(SheetLine(line))
}

// What a line does.
#[tactic(auto, using(crate::proofs::Steps::steps))]
pub fn step_line(st: SheetState, x: Said) -> Result<SheetState, SheetLine>
    requires line_bound { st.line < 2 ^ 63 }
    requires entries_le_line { st.entries ≤ st.line }
    ensures { result ≡ step_said st x }
{
    match x {
        Said::Start => start_step(st),
        Said::Global { number, .. } => global_step(st, number),
        Said::Entry { number, .. } => entry_step(st, number),
        Said::Value { value, .. } => value_step(st, is_missing(value)),
        Said::Last(n) => last_step(st, n),
        Said::Nothing(b) => none_step(st, b),
    }
}

// The verdict where the sheet has ended.
#[tactic(auto, using(crate::proofs::Walk::ends))]
pub fn finish_of(st: SheetState) -> Result<usize, SheetLine>
    requires { st.line < 2 ^ 63 }
    ensures { result ≡ finish st }
{
    if st.section == AT_END {
        return Ok(st.entries);
    }
    if let Some(run) = st.run {
        return Err(run);
    }
    Err(SheetLine(st.line + 1))
}

// The verdict where a piece with no LF stands behind the last line; b tells whether it begins as a value line does.
#[tactic(auto, using(crate::proofs::Walk::ends))]
pub fn wrong_piece(st: SheetState, b: bool) -> Result<usize, SheetLine>
    requires { st.line < 2 ^ 63 }
    ensures { result ≡ piece_verdict st b }
{
    let x = none_step(st, b)?;
    Ok(x.entries)
}
