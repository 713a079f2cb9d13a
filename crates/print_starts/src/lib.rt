// The S lines: the text of columns 1 to 72 without trailing blanks.
#![tactic(auto)]

ghost use Rattle.std.specs.Prelude.{◌≡◌, [], ◌∷◌, ◌++◌, map, ◌+◌, ◌*◌, ◌^◌, ◌≤◌, ◌<◌, length, take};
ghost use Rattle.std.specs.Prelude.{drop};
ghost use Rattle.columns.specs.First.{up_from};
ghost use Rattle.columns.specs.Trim.{trim_end};
ghost use Rattle.columns.specs.Laid.{Wrote};
ghost use Rattle.columns.specs.Format.{line_bytes, text_columns, most_lines};
ghost use Rattle.columns.specs.Letters.{newline};
ghost use Rattle.sheets.specs.Sheet.{Line, line_of};
ghost use Rattle.model.specs.Read.{is_blank, start_text};
ghost use Rattle.print.specs.Bytes.{start_bytes};

use columns::format::{LINE_BYTES, TEXT_COLUMNS};
use sheets_lay::put_start;

// How many bytes of the text from here on are kept.
#[tactic(auto, using(print::proofs::Started::trims))]
fn kept(file: &[u8], from: usize) -> usize
    requires { from + text_columns ≤ length file.now }
    ensures file_value { take result (drop from file.now) ≡ trim_end is_blank (take text_columns (drop from file.now)) }
    ensures upper_bound { result ≤ text_columns }
{
    for i in (0..TEXT_COLUMNS).rev() {
        if file[from + i] != b' ' {
            return i + 1;
        }
    }
    0
}

// The S line of line k of the file.
fn put_start_line(out: &mut [u8], at: usize, file: &[u8], k: usize) -> usize
    requires line_bytes_in_bounds { line_bytes * k + line_bytes ≤ length file.now }
    requires at_bound { at < 2 ^ 60 }
    ensures wrote { Wrote out.old at (line_of (Line.start (start_text file.now k)) ++ (newline ∷ []))
        out.new result }
    ensures upper_bound { result ≤ at + 75 }
{
    let from = LINE_BYTES * k;
    let n = kept(file, from);
    let end = from + n;
    put_start(out, at, &file[from..end])
}

// Those of the first s lines.
#[tactic(auto, using(print::proofs::Started::started))]
pub fn put_starts(out: &mut [u8], at: usize, file: &[u8], s: usize) -> usize
    requires s_in_bounds { line_bytes * s ≤ length file.now }
    requires s_le_most_lines { s ≤ most_lines }
    requires at_bound { at < 2 ^ 59 }
    ensures wrote { Wrote out.old at
        (start_bytes (map (start_text file.now) (up_from 0 s))) out.new result }
    ensures upper_bound { result ≤ at + 75 * s }
{
    let mut next = at;
    for i in 0..s {
        next = put_start_line(out, next, file, i);
    }
    next
}
