// The answer of a refusal.
ghost use Rattle.std.specs.Prelude.{◌≡◌};
ghost use Rattle.columns.specs.declared.Fault.TheVariants.{Room};
ghost use Rattle.columns.specs.Refusal.{number};
ghost use Rattle.desk.specs.Answers.{answer};

use crate::Answer;
use columns::Fault;

// A refusal's number and its place, and no length.
pub fn refusal(fault: Fault, place: usize) -> Answer
    ensures { result ≡ answer (number fault) place 0 }
{
    Answer {
        number: u64::from(fault),
        place: place as u64,
        length: 0,
    }
}

// 16: how much room is needed.
pub fn no_room(needed: usize) -> Answer
    ensures { result ≡ answer (number Room) 0 needed }
{
    Answer {
        number: u64::from(Fault::Room),
        place: 0,
        length: needed as u64,
    }
}
