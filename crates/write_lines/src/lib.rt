// What a sheet's lines are asked behind 17, one line at a time, each with the class of the entries that it names. `heads` reads the
// lines that are asked on the second walk, `rules` asks 8, 9 and 13, `table` keeps the class of each entry, `far` finds it in a sheet
// too long for the table, `refer` asks 10.
#![tactic(auto)]

mod far;
pub mod heads;
pub mod refer;
pub mod rules;
pub mod table;

use columns::{Refusal, SheetLine};

// All is good, or the first refusal and its line.
pub type SheetPass = Result<(), Refusal<SheetLine>>;
