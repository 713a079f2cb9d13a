// All that is asked of a file before the last pass, in the paper's order.
#![tactic(auto)]

ghost use Rattle.std.specs.Prelude.{◌≡◌};
ghost use Rattle.cards.specs.Rules.{Holds};
ghost use Rattle.owners.specs.InFile.{owners_in, outcome};
ghost use Rattle.model.specs.Read.{before};
ghost use Rattle.read_passes.specs.Passes.{pass_of, before_answer};
ghost use Rattle.read_passes.specs.Walks.{directory_outcome, behind_cards};

use cards::Counts;
use columns::{Fault, FileLine, Refusal};
use owners::Owned;
use read_passes::{Before, FilePass};

// 11: over entries, then over P lines.
fn owners_pass(file: &[u8], c: Counts) -> FilePass
    requires { Holds file.now c }
    ensures { result ≡ pass_of (outcome c (owners_in file.now c)) }
{
    let found = owners_pass::owners(file, c);
    let line = owners_pass::line_of(c, found);
    match found {
        Owned::Everyone => Ok(()),
        Owned::Entry(_) | Owned::Line(_) => Err(Refusal {
            fault: Fault::Ownership,
            line,
        }),
    }
}

// Each entry 9, 13; all 10; then 11.
fn directory_pass(file: &[u8], c: Counts) -> FilePass
    requires { Holds file.now c }
    ensures { result ≡ pass_of (directory_outcome file.now c) }
{
    read_directory::entries(file, c)?;
    owners_pass(file, c)
}

// Behind the lines: G, then the directory.
fn behind_cards(file: &[u8], c: Counts) -> Result<Before, Refusal<FileLine>>
    requires { Holds file.now c }
    ensures { result ≡ before_answer (behind_cards file.now c) }
{
    let global = read_global::globals(file, c)?;
    directory_pass(file, c)?;
    Ok(Before {
        counts: c,
        parameter: global.parameter,
        closing: global.closing,
    })
}

// All that is asked of a file before the last pass.
pub fn before(file: &[u8]) -> Result<Before, Refusal<FileLine>>
    ensures { result ≡ before_answer (before file.now) }
{
    let c = cards_pass::cards(file)?;
    behind_cards(file, c)
}
