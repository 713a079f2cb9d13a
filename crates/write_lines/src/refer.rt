// What the entries of a sheet name: an entry of it, of the type wanted (10).
ghost use Rattle.std.specs.Prelude.{◌≡◌, ◌+◌, ◌≤◌, length};
ghost use Rattle.write_lines.specs.Heads.{said_references};
ghost use Rattle.write_lines.specs.Classes.{sheet_types, Tabled};
ghost use Rattle.write_lines.specs.Passes.{references_from};

use crate::SheetPass;
use crate::heads::head_at;
use crate::table::{class_at, some_at};
use columns::{Fault, Refusal, SheetLine};
use directory::Wanted;
use directory::entries::Entries;
use references::ANY;
use sheets::Said;
use sheets_read::end_of;

// The entries of a sheet: so many, with the table of their classes.
#[derive(Clone, Copy)]
pub struct Classes<'t> {
    pub classes: &'t [u8],
    pub n: usize,
    pub t: &'t [u8],
    ghost tabled: { Tabled classes.now n t.now },
}

impl<'t> Entries for Classes<'t> {
    ghost types = { λ c. sheet_types c.t.now };

    #[tactic(auto, using(crate::proofs::Referring::asks_some))]
    fn meet(&self, wanted: Wanted) -> bool {
        if wanted.want == ANY {
            let class = some_at(self.n, wanted.number);
            return references::fits(wanted.want, class);
        }
        let class = class_at(self.classes, self.n, self.t, wanted.number);
        references::fits(wanted.want, class)
    }
}

// What a line says, at its place.
#[tactic(auto, using(crate::proofs::Referring::refers))]
pub fn reference_of(classes: &[u8], n: usize, t: &[u8], said: Said, line: SheetLine) -> SheetPass
    requires { Tabled classes.now n t.now }
    ensures { result ≡ said_references (sheet_types t.now) line.0 said }
{
    let Said::Entry { fields, .. } = said else {
        return Ok(());
    };
    let e = directory_rules::entry_of(fields);
    if directory_rules::all_ask_ok(&Classes { classes, n, t }, e) {
        return Ok(());
    }
    Err(Refusal {
        fault: Fault::Reference,
        line,
    })
}

// All entries from `from` on, where the line has this place.
#[tactic(auto, using(crate::proofs::Naming::referring))]
pub fn references(classes: &[u8], n: usize, t: &[u8], from: usize, first: SheetLine) -> SheetPass
    requires tabled { Tabled classes.now n t.now }
    requires from_in_bounds { from ≤ length t.now }
    requires first_bound { first.0 ≤ from + 1 }
    ensures { result ≡ references_from (sheet_types t.now) t.now first.0 from }
{
    let size = t.len();
    let mut at = from;
    let mut place = first.0;
    // From line to line: each is told by where the one before ends.
    while at < size {
        let end = end_of(t, at);
        if end == size {
            return Ok(());
        }
        let said = head_at(t, at, end);
        reference_of(classes, n, t, said, SheetLine(place))?;
        at = end + 1;
        place += 1;
    }
    Ok(())
}
