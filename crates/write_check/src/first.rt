// The first walk over a sheet: its lines in order (17), what each is asked by itself (8, 9, 13), the class of each entry for the table,
// and how many lines the file has (19).
ghost use Rattle.std.specs.Prelude.{◌≡◌, ◌^◌, ◌≤◌, length};
ghost use Rattle.columns.specs.Laid.{laid};
ghost use Rattle.sheets.specs.Sheet.{lines_in};
ghost use Rattle.sheets.specs.Order.{verdict_of};
ghost use Rattle.sheets_rows.specs.Rows.{lines_at};
ghost use Rattle.file_canonical.specs.Counting.{within, lines_of_sheet, Under};
ghost use Rattle.write_lines.specs.Classes.{classes_in};
ghost use Rattle.write_lines.specs.Passes.{rules_pass};
ghost use Rattle.write_check.specs.Answers.{walked_so, IfGood};
ghost use Rattle.write_check.specs.Ahead.{Ahead};

use crate::{Past, SheetWalked};
use columns::SheetLine;
use columns::format::OPENING_COLUMNS;
use file_canonical::Tally;
use file_tally::{behind_value, tally_said, with_values};
use sheets::{BEFORE_STARTS, NO_FIELD, SheetState, order};
use sheets_read::{end_of, is_mark, is_value, line_at, strict_at};
use values::is_missing;
use write_lines::SheetPass;
use write_lines::rules::rule_too;
use write_lines::table::keep;

// Before the first line.
const BEGIN: SheetState = SheetState {
    section: BEFORE_STARTS,
    field: NO_FIELD,
    entries: 0,
    run: None,
    line: 0,
};

// What no lines come to: the G record's opening has eight columns.
const BEGUN: Tally = Tally {
    s: 0,
    global: OPENING_COLUMNS,
    field: NO_FIELD,
    d: 0,
    p: 0,
    at: 0,
};

// Past the value lines from `from` on, as far as they are in order: they have no rule and no class. The first value stands at position p
// of its record.
fn past_values(t: &[u8], from: usize, begun: SheetState, p: usize) -> Past
    requires from_in_bounds { from ≤ length t.now }
    requires line_le_from { begun.line ≤ from }
    requires entries_le_line { begun.entries ≤ begun.line }
    requires p_bound { p ≤ 2 ^ 38 }
    ensures ahead { Ahead begun p (lines_at t.now from) result.state result.at (lines_at t.now result.next) }
    ensures from_le_next { (from ≤ result.next) × (result.next ≤ length t.now) × (result.at ≤ 2 ^ 38) }
    ensures line_le_next { (result.state.line ≤ result.next) × (result.state.entries ≤ result.state.line) }
{
    let n = t.len();
    let mut state = begun;
    let mut next = from;
    let mut at = p;
    // From line to line: each is told by where the one before ends.
    while next < n {
        let end = end_of(t, next);
        if end == n {
            return Past { state, next, at };
        }
        if !is_value(t, next, end) {
            return Past { state, next, at };
        }
        let spelled = next + 2;
        match strict_at(t, spelled, end) {
            Some(value) => match order::value_step(state, is_missing(value)) {
                Ok(st) => {
                    at = behind_value(at, &t[spelled..end], value);
                    state = st;
                    next = end + 1;
                }
                Err(_) => {
                    return Past { state, next, at };
                }
            },
            None => {
                return Past { state, next, at };
            }
        }
    }
    Past { state, next, at }
}

// What the walk tells behind the last line that it read.
fn told(verdict: Result<usize, SheetLine>, pass: SheetPass, tally: Tally) -> SheetWalked
    ensures { result ≡ walked_so verdict pass tally }
{
    SheetWalked {
        verdict,
        pass,
        tally,
    }
}

// All lines; the classes of all entries are laid over the table. A sheet whose lines are wrong is not asked further.
pub fn walk(classes: &mut [u8], t: &[u8]) -> SheetWalked
    ensures verdict_value { result.verdict ≡ verdict_of t.now }
    ensures if_good { IfGood result.verdict (result.pass ≡ rules_pass t.now) }
    ensures if_good_2 { IfGood result.verdict
        (classes.new ≡ laid classes.old 0 (classes_in (lines_in t.now))) }
    ensures if_good_3 { IfGood result.verdict (within result.tally ≡ lines_of_sheet (lines_in t.now)) }
    ensures under { Under (2 ^ 36) result.tally }
{
    let n = t.len();
    let mut st = BEGIN;
    let mut tally = BEGUN;
    let mut pass = Ok(());
    let mut at = 0;
    let mut k = 0;
    // From line to line, and past value lines at once.
    while at < n {
        let end = end_of(t, at);
        if end == n {
            return told(order::wrong_piece(st, is_mark(t[at])), pass, tally);
        }
        let said = line_at(t, at, end);
        pass = rule_too(pass, said, SheetLine(st.line + 1));
        k = keep(classes, k, said);
        let more = tally_said(tally, said);
        match order::step_line(st, said) {
            Ok(next) => {
                let past = past_values(t, end + 1, next, more.at);
                tally = with_values(more, past.at);
                st = past.state;
                at = past.next;
            }
            Err(line) => {
                return told(Err(line), pass, tally);
            }
        }
    }
    told(order::finish_of(st), pass, tally)
}
