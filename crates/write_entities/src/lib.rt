// What the entities of a sheet are asked: 10, then 14 and 15 by their layouts, where the list knows them, then 18 by their marks. `naming`
// has what a value names.
#![tactic(auto)]

mod naming;

ghost use Rattle.std.specs.Prelude.{◌≡◌, true, ◌+◌, ◌≤◌, length};
ghost use Rattle.layouts.specs.Walk.{stepped};
ghost use Rattle.sheets_rows.specs.Rows.{lines_at, values_first};
ghost use Rattle.write_lines.specs.Lines.{or_else, Skipped};
ghost use Rattle.write_lines.specs.Heads.{said_entity};
ghost use Rattle.write_lines.specs.Classes.{sheet_types, Tabled};
ghost use Rattle.write_entities.specs.Judging.{right_too, judged_so, judged, values_of, verdict_if, answer_of};
ghost use Rattle.write_lines.specs.Passes.{references_from, references_pass, entities_pass};

use crate::naming::named_for;
use columns::{Fault, Refusal, SheetLine};
use layouts::LayoutState;
use layouts_lists::known;
use read_entities::marks::{mark_of, marks_begun};
use sheets::Said;
use sheets_read::{end_of, is_value, strict_at};
use values::Value;
use write_lines::SheetPass;
use write_lines::heads::head_at;
use write_lines::refer::{reference_of, references};

// The layout's state behind an entity's values, and whether all their marks are right.
#[derive(Clone, Copy)]
pub struct Judged {
    pub state: Option<LayoutState>,
    pub right: bool,
}

// The same of the value lines behind a line, with the place behind them and how many they are.
#[derive(Clone, Copy)]
pub struct Values {
    pub state: Option<LayoutState>,
    pub right: bool,
    pub next: usize,
    pub lines: usize,
}

// What comes of a line and the value lines behind it, with the place behind them and how many they are.
#[derive(Clone, Copy)]
pub struct Asked {
    pub found: SheetPass,
    pub next: usize,
    pub lines: usize,
}

// The layout behind this value.
#[tactic(auto, using(crate::proofs::Judging::values))]
fn step_at(
    classes: &[u8],
    n: usize,
    t: &[u8],
    g: Option<LayoutState>,
    v: Value,
) -> Option<LayoutState>
    requires { Tabled classes.now n t.now }
    ensures { result ≡ stepped (sheet_types t.now) g v }
{
    let s = g?;
    let class = named_for(classes, n, t, s, v);
    layouts_machine::step(s, v, class)
}

// Whether this mark is right, as all before it.
fn right_too(right: bool, reference: bool, g: Option<LayoutState>) -> bool
    ensures { result ≡ right_too right reference g }
{
    let mark = mark_of(g);
    let too = reference == mark;
    right && too
}

// What is judged so far, with the place and how many lines.
fn values_of(state: Option<LayoutState>, right: bool, next: usize, lines: usize) -> Values
    ensures { result ≡ values_of state right next lines }
{
    Values {
        state,
        right,
        next,
        lines,
    }
}

// The values of the value lines from `from` on, from this state.
fn judge(classes: &[u8], n: usize, t: &[u8], from: usize, begun: Option<LayoutState>) -> Values
    requires tabled { Tabled classes.now n t.now }
    requires from_in_bounds { from ≤ length t.now }
    ensures right_value { judged_so result.state result.right
        ≡ judged (sheet_types t.now) begun true (values_first (lines_at t.now from)) }
    ensures skipped { Skipped t.now from result.next result.lines }
    ensures lines_bound { (from + result.lines ≤ result.next) × (result.next ≤ length t.now) }
{
    let size = t.len();
    let mut next = from;
    let mut lines = 0;
    let mut state = begun;
    let mut right = true;
    // From line to line: the first that is no value line ends it.
    while next < size {
        let end = end_of(t, next);
        if end == size {
            return values_of(state, right, next, lines);
        }
        if !is_value(t, next, end) {
            return values_of(state, right, next, lines);
        }
        match strict_at(t, next + 2, end) {
            Some(value) => {
                let reference = t[next] == b'R';
                right = right_too(right, reference, state);
                state = step_at(classes, n, t, state, value);
                next = end + 1;
                lines += 1;
            }
            None => {
                return values_of(state, right, next, lines);
            }
        }
    }
    values_of(state, right, next, lines)
}

// The verdict of a layout, where the list knows the entity.
#[tactic(auto, using(crate::proofs::Judging::verdicts))]
fn verdict_if(inside: bool, g: Option<LayoutState>) -> Result<(), Fault>
    ensures { result ≡ verdict_if inside g }
{
    if !inside {
        return Ok(());
    }
    match g {
        Some(s) => layouts_machine::end(s),
        None => Err(Fault::Layout),
    }
}

// 14 and 15 come before 18.
#[tactic(auto, using(crate::proofs::Judging::answers))]
fn answer_of(inside: bool, marked: bool, j: Judged, line: SheetLine) -> SheetPass
    ensures { result ≡ answer_of inside marked j line.0 }
{
    let g = j.state;
    let verdict = verdict_if(inside, g);
    let right = marked == inside;
    match verdict {
        Err(fault) => Err(Refusal { fault, line }),
        Ok(()) => {
            if right {
                if j.right {
                    return Ok(());
                }
            }
            Err(Refusal {
                fault: Fault::Mark,
                line,
            })
        }
    }
}

// What a line says, at its place; its values stand from `from` on.
#[tactic(auto, using(crate::proofs::Judging::entities))]
fn entity_of(
    list: u64,
    classes: &[u8],
    n: usize,
    t: &[u8],
    from: usize,
    said: Said,
    line: SheetLine,
) -> Asked
    requires tabled { Tabled classes.now n t.now }
    requires from_in_bounds { from ≤ length t.now }
    ensures found_value { result.found
        ≡ said_entity list (sheet_types t.now) line.0 (values_first (lines_at t.now from)) said }
    ensures skipped { Skipped t.now from result.next result.lines }
    ensures lines_bound { (from + result.lines ≤ result.next) × (result.next ≤ length t.now) }
{
    let Said::Entry {
        known: marked,
        fields,
        ..
    } = said
    else {
        return Asked {
            found: Ok(()),
            next: from,
            lines: 0,
        };
    };
    let typ = fields.entity.size;
    let form = fields.form.size;
    let inside = known(list, typ, form);
    let begun = marks_begun(list, typ, form);
    let values = judge(classes, n, t, from, begun);
    let state = values.state;
    let right = values.right;
    let judged = Judged { state, right };
    let found = answer_of(inside, marked, judged, line);
    Asked {
        found,
        next: values.next,
        lines: values.lines,
    }
}

// Behind an entity with this refusal: what 10 refuses from `from` on comes first.
#[tactic(auto, using(write_lines::proofs::Naming::firsts))]
fn refused_later(
    classes: &[u8],
    n: usize,
    t: &[u8],
    from: usize,
    place: SheetLine,
    found: SheetPass,
) -> SheetPass
    requires tabled { Tabled classes.now n t.now }
    requires from_in_bounds { from ≤ length t.now }
    requires place_bound { place.0 ≤ from + 1 }
    ensures { result ≡ or_else (references_from (sheet_types t.now) t.now place.0 from) found }
{
    references(classes, n, t, from, place)?;
    found
}

// All 10, then each entity 14, 15, 18, of a sheet of n entries. Behind a refused entity only 10 is left to ask.
#[tactic(auto, using(write_lines::proofs::Naming::naming))]
pub fn named_rules(list: u64, classes: &[u8], n: usize, t: &[u8]) -> SheetPass
    requires { Tabled classes.now n t.now }
    ensures { result ≡ or_else (references_pass t.now) (entities_pass list t.now) }
{
    let size = t.len();
    let mut at = 0;
    let mut place = 1;
    // From line to line, and past an entity at once.
    while at < size {
        let end = end_of(t, at);
        if end == size {
            return Ok(());
        }
        let said = head_at(t, at, end);
        reference_of(classes, n, t, said, SheetLine(place))?;
        let asked = entity_of(list, classes, n, t, end + 1, said, SheetLine(place));
        let found = asked.found;
        if found.is_err() {
            return refused_later(classes, n, t, end + 1, SheetLine(place + 1), found);
        }
        at = asked.next;
        place += 1 + asked.lines;
    }
    Ok(())
}
