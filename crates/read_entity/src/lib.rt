// The pass over one entity: its record's values, the type that stands first, its layout.
#![tactic(auto)]

ghost use Rattle.std.specs.Prelude.{◌≡◌, ◌*◌, ◌≤◌};
ghost use Rattle.columns.specs.Columns.{text_of};
ghost use Rattle.columns.specs.Format.{parameter_columns};
ghost use Rattle.records.specs.Record.{values_at};
ghost use Rattle.directory.specs.Naming.{types_at};
ghost use Rattle.read_entities.specs.Marks.{carried_in};
ghost use Rattle.read_entities.specs.Walking.{EntityStands, carried_length};
ghost use Rattle.read_entities.specs.Answers.{type_read, verdict_answer, pass_answer, weighed_of, entity_pass_of};

use columns::Fault;
use columns::format::PARAMETER_COLUMNS;
use layouts::LayoutState;
use layouts_lists::known;
use layouts_machine::end;
use read_entities::marks::marks_begun;
use read_entities::{Walked, Weighed};
use read_walk::walk;
use records::{Found, Misspelt};
use records_read::value_at;
use values::Value;

// Whether a value is the integer type.
fn is_type(typ: u32, v: Value) -> bool
    ensures { result ≡ type_read typ v }
{
    match v {
        Value::Default => false,
        Value::Whole { neg, size } => {
            if neg {
                return false;
            }
            size == typ
        }
        Value::Real { .. } => false,
        Value::Text { .. } => false,
    }
}

#[tactic(auto, using(read_entities::proofs::Passes::answering))]
fn verdict_answer(w: Result<(), Fault>) -> Result<(), Fault>
    ensures { result ≡ verdict_answer w }
{
    match w {
        Ok(()) => Ok(()),
        Err(fault) => Err(fault),
    }
}

// What is said of an entity whose first value is its type or not, that the list knows or not, and whose layout stands there
// behind its values.
fn pass_answer(typed: bool, inside: bool, g: Option<LayoutState>) -> Result<(), Fault>
    ensures { result ≡ pass_answer typed inside g }
{
    if !typed {
        return Err(Fault::FirstValue);
    }
    if !inside {
        return Ok(());
    }
    match g {
        Some(s) => {
            let w = end(s);
            verdict_answer(w)
        }
        None => Err(Fault::Layout),
    }
}

// The same by the walk over its values, with the bytes of their lines.
fn weighed_by(typed: bool, inside: bool, walked: Result<Walked, Fault>) -> Weighed
    ensures { result ≡ weighed_of typed inside walked }
{
    match walked {
        Err(fault) => Weighed {
            answer: Err(fault),
            length: 0,
        },
        Ok(walked) => Weighed {
            answer: pass_answer(typed, inside, walked.state),
            length: walked.length,
        },
    }
}

// The entity of this type and form whose record stands in so many P lines from base on. The values behind the first are those
// of its layout, up to the last that is no default.
pub fn entity_pass(
    list: u64,
    file: &[u8],
    base: usize,
    lines: usize,
    c: u8,
    d: u8,
    typ: u32,
    form: u32,
    first: usize,
    n: usize,
) -> Weighed
    requires { EntityStands file.now base lines c d first n }
    ensures answer_value { result.answer ≡ entity_pass_of list (types_at file.now first n) typ form
        (values_at parameter_columns c d (text_of file.now base parameter_columns lines) 0) }
    ensures length_value { result.length ≡ carried_length
        (carried_in (values_at parameter_columns c d (text_of file.now base parameter_columns lines) 0)) }
    ensures length_bound { result.length ≤ 70400 * lines }
{
    let g = value_at(file, base, PARAMETER_COLUMNS, lines, c, d, 0);
    match g {
        Err(Misspelt { fault, .. }) => Weighed {
            answer: Err(fault),
            length: 0,
        },
        Ok(
            Found {
                value,
                next,
                last,
                ..
            },
        ) => {
            let typed = is_type(typ, value);
            let inside = known(list, typ, form);
            let begun = marks_begun(list, typ, form);
            if last {
                let answer = pass_answer(typed, inside, begun);
                return Weighed { answer, length: 0 };
            }
            let walked = walk(file, base, lines, c, d, next, begun, first, n);
            weighed_by(typed, inside, walked)
        }
    }
}
