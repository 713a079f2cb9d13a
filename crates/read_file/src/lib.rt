// A file to its sheet.
#![tactic(auto)]

mod sheet;

ghost use Rattle.std.specs.Prelude.{◌≡◌, length};
ghost use Rattle.model.specs.Read.{reads};
ghost use Rattle.desk.specs.Answers.{answer_of, left_in};

use desk::{Answer, answers};
use read_passes::Before;

// The sheet of a file under a list. It is measured first, since a refusal changes no byte of out.
#[tactic(auto, using(crate::proofs::ReadingAnswers::readings))]
pub fn read(list: u64, file: &[u8], out: &mut [u8]) -> Answer
    ensures value { result ≡ answer_of (length out.old) (reads list file.now) }
    ensures out_after { out.new ≡ left_in out.old (reads list file.now) }
{
    let weight = match read_check::weigh(list, file) {
        Ok(weight) => weight,
        Err(refusal) => return answers::refusal(refusal.fault, refusal.line.0),
    };
    let Before {
        counts,
        parameter,
        closing,
    } = weight.told;
    let length = sheet::measure(list, file, counts, parameter, closing, weight.rows);
    if out.len() < length {
        return answers::no_room(length);
    }
    let end = sheet::put_file(out, list, file, counts, parameter, closing);
    Answer {
        number: 0,
        place: 0,
        length: end as u64,
    }
}
