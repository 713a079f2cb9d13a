// Characters of a record's text, which may cross lines of its file.
ghost use Rattle.std.specs.Prelude.{◌≡◌, ◌+◌, ◌*◌, ◌^◌, ◌≤◌, ◌<◌, take, drop};
ghost use Rattle.columns.specs.Columns.{text_of};
ghost use Rattle.columns.specs.Laid.{Wrote};
ghost use Rattle.records.specs.Reading.{Stands};

use records_read::char_at;

// Writes count characters from position start of the text on.
pub fn put_text(
    out: &mut [u8],
    at: usize,
    file: &[u8],
    base: usize,
    w: usize,
    lines: usize,
    start: usize,
    count: usize,
) -> usize
    requires stands { Stands file.now base w lines }
    requires count_bound { start + count ≤ lines * w }
    requires at_bound { at < 2 ^ 60 }
    ensures wrote { Wrote out.old at (take count (drop start (text_of file.now base w lines)))
        out.new result }
    ensures value { result ≡ at + count }
{
    let mut next = at;
    for i in 0..count {
        let x = char_at(file, base, w, lines, start + i);
        next = columns_emit::put(out, next, x);
    }
    next
}
