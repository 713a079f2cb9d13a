// One vector tried.
ghost use Rattle.std.specs.Prelude.{◌≡◌, length};
ghost use Rattle.desk.specs.Answers.{answer_of, left_in};
ghost use Rattle.vectors.specs.Passing.{is_answer, holds, ran, gives, wants_room};

use crate::room::{fill, untouched};
use columns::look::same;
use desk::Answer;

// What a vector asks for: to be read, or else to be written.
const READ: u64 = 0;

// Whether an answer is the expected one, with this length.
fn is_answer(a: Answer, number: u64, place: u64, length: usize) -> bool
    ensures { result ≡ is_answer a number place length }
{
    if a.number != number {
        return false;
    }
    if a.place != place {
        return false;
    }
    a.length == length as u64
}

// Whether the expected bytes stand at the start of out, and nothing else was changed.
fn holds(out: &[u8], expected: &[u8]) -> bool
    ensures { result ≡ holds out.now expected.now }
{
    let n = expected.len();
    if out.len() < n {
        return false;
    }
    if !same(&out[..n], expected) {
        return false;
    }
    untouched(out, n)
}

// Reads or writes.
fn run(op: u64, list: u64, input: &[u8], out: &mut [u8]) -> Answer
    ensures value { result ≡ answer_of (length out.old) (ran op list input.now) }
    ensures out_after { out.new ≡ left_in out.old (ran op list input.now) }
    ensures out_len_unchanged { length out.new ≡ length out.old }
{
    if op == READ {
        return read_file::read(list, input, out);
    }
    write_sheet::write(list, input, out)
}

// Whether the answer and the bytes are the expected ones; a refusal has no bytes.
pub fn gives(
    op: u64,
    list: u64,
    number: u64,
    place: u64,
    input: &[u8],
    expected: &[u8],
    out: &mut [u8],
) -> bool
    ensures value { result ≡ gives op list number place input.now expected.now (length out.old) }
    ensures out_len_unchanged { length out.new ≡ length out.old }
{
    fill(out);
    let told = run(op, list, input, out);
    if !is_answer(told, number, place, expected.len()) {
        return false;
    }
    holds(out, expected)
}

// Whether a buffer that is one byte too short gives 16 and the length that is needed, and stays as it was.
pub fn wants_room(op: u64, list: u64, input: &[u8], room: usize, out: &mut [u8]) -> bool
    ensures value { result ≡ wants_room op list input.now room (length out.old) }
    ensures out_len_unchanged { length out.new ≡ length out.old }
{
    if room == 0 {
        return true;
    }
    if out.len() < room {
        return false;
    }
    fill(out);
    let told = run(op, list, input, &mut out[..room - 1]);
    if !is_answer(told, 16, 0, room) {
        return false;
    }
    untouched(out, 0)
}
