// Writing: the checks of a sheet in the paper's order, 1 (list only), 17, 8, each entry 9 and 13, all 10, each entry 14, 15, 18; and
// the lines of its file (19). A sheet is walked twice. The first walk asks 17 of each line, and 8, 9 and 13, the first refusal of which
// is kept, since 17 comes before all of them; on it the class of each entry is put into a table, and the lines of the file are counted.
// The second walk asks 10 of each entry, then 14, 15 and 18 with the value lines behind it, and goes on behind these; behind a refused
// entity only 10 is left to ask. `first` is the first walk; `marks` makes another table for a sheet that has more entries than a file
// can have. Crate `write_lines` has what it asks of a line and keeps of an entry, `write_entities` makes the second walk.
#![tactic(auto)]

mod first;
mod marks;

ghost use Rattle.std.specs.Prelude.{◌≡◌};
ghost use Rattle.write_lines.specs.Classes.{Tabled};
ghost use Rattle.write_lines.specs.Passes.{rules_pass, sheet_pass};
ghost use Rattle.write_check.specs.Answers.{ruled_of};

use cards::Counts;
use columns::{Fault, Refusal, SheetLine};
use file_canonical::Tally;
use file_tally::lines_of;
use sheets::SheetState;
use write_lines::SheetPass;
use write_lines::table::TABLE;

// Where the first walk stands behind value lines: the state, the place, and the position behind the last value in its record.
#[derive(Clone, Copy)]
pub struct Past {
    pub state: SheetState,
    pub next: usize,
    pub at: usize,
}

// What the first walk tells: the verdict on a sheet's lines and, where that is good, whether all is good that lines are asked by
// themselves, and what its lines come to.
#[derive(Clone, Copy)]
pub struct SheetWalked {
    pub verdict: Result<usize, SheetLine>,
    pub pass: SheetPass,
    pub tally: Tally,
}

// The number of entries of a sheet that passes all checks, and the lines of its file, unless they are more than a file may have.
#[derive(Clone, Copy)]
pub struct Ruled {
    pub entries: usize,
    pub lines: Option<Counts>,
}

// The passes behind 17 over a sheet of n entries, the first of which found this.
#[tactic(auto, using(crate::proofs::Checking::passing))]
fn passes(list: u64, classes: &[u8], n: usize, t: &[u8], first: SheetPass) -> SheetPass
    requires tabled { Tabled classes.now n t.now }
    requires first_value { first ≡ rules_pass t.now }
    ensures { result ≡ sheet_pass list t.now }
{
    first?;
    write_entities::named_rules(list, classes, n, t)
}

// All checks of a sheet under a list: what it tells if it passes them, or its first refusal.
#[tactic(auto, using(crate::proofs::Checking::checks, crate::proofs::Walking::walked))]
pub fn check(list: u64, t: &[u8]) -> Result<Ruled, Refusal<SheetLine>>
    ensures { result ≡ ruled_of list t.now }
{
    if !layouts_lists::is_list(list) {
        return Err(Refusal {
            fault: Fault::ListOrLength,
            line: SheetLine(0),
        });
    }
    let mut classes = [0u8; TABLE];
    let walked = first::walk(&mut classes, t);
    let lines = lines_of(walked.tally);
    let n = walked.verdict.map_err(|line| Refusal {
        fault: Fault::SheetLine,
        line,
    })?;
    marks::mark(&mut classes, n, t);
    passes(list, &classes, n, t, walked.pass)?;
    Ok(Ruled { entries: n, lines })
}
