// A sheet to its canonical file.
#![tactic(auto)]

mod file;

ghost use Rattle.std.specs.Prelude.{◌≡◌, length};
ghost use Rattle.model.specs.Write.{writes};
ghost use Rattle.desk.specs.Answers.{answer_of, left_in};

use columns::Fault;
use desk::{Answer, answers};

// The canonical file of a sheet under a list. Its lines are counted first, since a refusal changes no byte of out.
#[tactic(auto, using(crate::proofs::WritingAnswers::writings))]
pub fn write(list: u64, sheet: &[u8], out: &mut [u8]) -> Answer
    ensures value { result ≡ answer_of (length out.old) (writes list sheet.now) }
    ensures out_after { out.new ≡ left_in out.old (writes list sheet.now) }
{
    let ruled = match write_check::check(list, sheet) {
        Err(refusal) => return answers::refusal(refusal.fault, refusal.line.0),
        Ok(ruled) => ruled,
    };
    let Some(counts) = ruled.lines else {
        return answers::refusal(Fault::TooLong, 0);
    };
    let bytes = file::bytes(counts);
    // With a name, so that what is shown of it stays where the test is spelt otherwise.
    let short = out.len() < bytes;
    if short {
        return answers::no_room(bytes);
    }
    let laid = file_canonical::file::put_file(out, sheet, counts, ruled.entries);
    Answer {
        number: 0,
        place: 0,
        length: laid as u64,
    }
}
