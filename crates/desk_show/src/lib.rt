// What igsheet prints of a file: its sheet, or the line that says why there is none.
#![tactic(auto)]

ghost use Rattle.std.specs.Prelude.{◌≡◌, [], ◌∷◌, ◌++◌, ◌+◌, ◌^◌, ◌≤◌, ◌<◌, length};
ghost use Rattle.columns.specs.Decimal.{dec};
ghost use Rattle.columns.specs.Laid.{Wrote};
ghost use Rattle.desk.specs.Answers.{igsheet, most_output};
ghost use Rattle.desk_show.specs.Refusal.{refusal_line};

use columns::format::MOST_LIST;

// 808 lines.
const MOST_INPUT: usize = 65448;

// A number, and the byte that ends it.
fn put_number(out: &mut [u8], at: usize, n: u64, end: u8) -> usize
    requires { at < 2 ^ 61 }
    ensures wrote { Wrote out.old at (dec n ++ (end ∷ [])) out.new result }
    ensures upper_bound { result ≤ at + 21 }
{
    let next = columns_decimals::put_decimal(out, at, n);
    columns_emit::put(out, next, end)
}

// The line of a refusal, laid over out from its start.
fn put_refusal(out: &mut [u8], number: u64, place: u64) -> usize
    ensures wrote { Wrote out.old 0 (refusal_line number place) out.new result }
    ensures upper_bound { result ≤ 44 }
{
    let a = columns_emit::put(out, 0, b'X');
    let b = columns_emit::put(out, a, b'\t');
    let c = put_number(out, b, number, b'\t');
    put_number(out, c, place, b'\n')
}

// Lays what igsheet prints of a file over out from its start, and returns how many bytes that is.
// A refusal leaves out as it was lent, so its line is laid over the same bytes as a sheet would be.
pub fn show(file: &[u8], out: &mut [u8]) -> usize
    requires { length out.old ≡ most_output }
    ensures wrote { Wrote out.old 0 (igsheet file.now) out.new result }
    ensures upper_bound { (result ≤ most_output) × (length out.new ≡ most_output) }
{
    if MOST_INPUT < file.len() {
        return put_refusal(out, 1, 0);
    }
    let told = read_file::read(MOST_LIST, file, out);
    let number = told.number;
    let place = told.place;
    let length = told.length as usize;
    if 0 < number {
        return put_refusal(out, number, place);
    }
    length
}
