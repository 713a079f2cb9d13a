// What lines are asked by themselves: 8 of a G line, 9 and 13 of an entry line. G lines stand before entries, so one walk asks them all.
ghost use Rattle.std.specs.Prelude.{◌≡◌};
ghost use Rattle.write_lines.specs.Lines.{or_else};
ghost use Rattle.write_lines.specs.Heads.{said_rule};

use crate::SheetPass;
use columns::{Fault, Refusal, SheetLine};
use sheets::Said;

// What a line says, at its place.
#[tactic(auto, using(crate::proofs::Saying::saying))]
fn rule_of(said: Said, line: SheetLine) -> SheetPass
    ensures { result ≡ said_rule line.0 said }
{
    match said {
        Said::Global { number, value, .. } => {
            if records_global::global_fits(number, value) {
                return Ok(());
            }
            Err(Refusal {
                fault: Fault::Global,
                line,
            })
        }
        Said::Entry { fields, .. } => {
            directory_rules::entry_rules(fields).map_err(|fault| Refusal { fault, line })
        }
        _ => Ok(()),
    }
}

// The first refusal so far, or that of this line.
#[tactic(auto, using(crate::proofs::Saying::saying))]
pub fn rule_too(first: SheetPass, said: Said, place: SheetLine) -> SheetPass
    ensures { result ≡ or_else first (said_rule place.0 said) }
{
    first?;
    rule_of(said, place)
}
