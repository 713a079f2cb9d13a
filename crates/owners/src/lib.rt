// Which P line is whose: every line in an entry's range names the entry, and every P line lies in the range of the entry that it names.
// `places` reads names, pointers and line counts where they stand in a file; crate `owners_pass` has the checks over them.
#![tactic(auto)]

pub mod places;

use columns::{DirectoryNumber, ParameterLine};

// Every line has its entry; or the first entry, or else the first line, that has not its own.
#[derive(Clone, Copy)]
pub enum Owned {
    Everyone,
    Entry(DirectoryNumber),
    Line(ParameterLine),
}
