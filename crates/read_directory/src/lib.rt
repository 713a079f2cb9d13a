// Each entry in turn, read once: 9, then 13; and on the way 10, whose first refusal is kept for the end: it counts if all entries pass 9
// and 13.
#![tactic(auto)]

mod refer;

ghost use Rattle.std.specs.Prelude.{◌≡◌, ◌<◌};
ghost use Rattle.cards.specs.Cards.{entries};
ghost use Rattle.cards.specs.Rules.{Holds};
ghost use Rattle.read_passes.specs.Passes.{pass_of};
ghost use Rattle.read_passes.specs.Walks.{or_else, turn_of, entry_check, reference_check, entries_outcome};

use crate::refer::reference_check;
use cards::Counts;
use columns::{Fault, FileLine, Refusal, wide};
use directory::Spelt;
use directory_lookup::Directory;
use read_passes::FilePass;

// Entry i, whose first D line is its place: it passes 9 and 13, with what is kept of 10 behind the entries before it; or it is refused.
fn entry_check(
    file: &[u8],
    c: Counts,
    i: usize,
    kept: FilePass,
) -> Result<FilePass, Refusal<FileLine>>
    requires holds { Holds file.now c }
    requires i_bound { i < entries c }
    ensures { result ≡ turn_of (entry_check file.now c i) (or_else kept (reference_check file.now c i)) }
{
    let first = cards::entry_line(c, 0);
    let all = Directory {
        file,
        first,
        entries: wide(c.d) / 2,
    };
    let k = cards::entry_line(c, i);
    let line = FileLine(k + 1);
    let read = directory_read::entry_at(file, k);
    let Some(Spelt { fields, .. }) = read else {
        return Err(Refusal {
            fault: Fault::Directory,
            line,
        });
    };
    let rule = directory_rules::entry_rules(fields);
    match rule {
        Err(fault) => Err(Refusal { fault, line }),
        Ok(()) => Ok(reference_check(&all, fields, line, kept)),
    }
}

// All entries.
pub fn entries(file: &[u8], c: Counts) -> FilePass
    requires { Holds file.now c }
    ensures { result ≡ pass_of (entries_outcome file.now c) }
{
    let n = wide(c.d) / 2;
    let mut kept = Ok(());
    for i in 0..n {
        kept = entry_check(file, c, i, kept)?;
    }
    kept
}
