// The D and P lines, entry by entry: D lines in their section, P lines in theirs.
ghost use Rattle.std.specs.Prelude.{◌≡◌, ◌<◌, length};
ghost use Rattle.file_canonical.specs.Laying.{entries_at, both_laid, Turn, Turned, EntryHasRoom, EntryLaid};

use crate::EntryPlace;
use columns::ParameterLine;
use columns::format::{FIELD_COLUMNS, LINE_BYTES};
use directory::Fields;
use file_blocks::lines::put_entry_lines;
use file_parameters::put_block;
use sheets::EntryLine;
use sheets_read::{end_of, entry_at};

// Lays the lines of entry k, whose line ends at `end` and has these numbers: the values behind it tell how many P lines it has.
fn put_entry(
    out: &mut [u8],
    t: &[u8],
    x: EntryPlace,
    k: usize,
    end: usize,
    fields: Fields,
) -> EntryPlace
    requires { EntryHasRoom t.now x k end fields.entity.size }
    ensures { EntryLaid out.old t.now x k end fields out.new result }
{
    let entity = fields.entity;
    let number = cards::entry_number(k);
    let from = x.from;
    let b = put_block(out, x.p, t, end + 1, entity.size, number, from);
    let lines = b.lines as u32;
    let label = end - FIELD_COLUMNS;
    let d = put_entry_lines(out, x.d, fields, from, lines, &t[label..end], number);
    EntryPlace {
        at: b.next,
        d,
        p: x.p + LINE_BYTES * b.lines,
        from: ParameterLine(from.0 + lines),
    }
}

// Lays the lines of entry k.
fn put_row(out: &mut [u8], t: &[u8], x: EntryPlace, k: usize) -> EntryPlace
    requires turn { Turn t.now x k }
    requires nonzero { 0 < length (entries_at t.now x.at) }
    ensures { Turned out.old t.now x k out.new result }
{
    let at = x.at;
    let end = end_of(t, at);
    match entry_at(t, at, end) {
        Some(EntryLine { fields, .. }) => put_entry(out, t, x, k, end, fields),
        None => x,
    }
}

// Lays the lines of all n entries.
pub fn put_rows(out: &mut [u8], t: &[u8], x: EntryPlace, n: usize)
    requires turn { Turn t.now x 0 }
    requires at_len { length (entries_at t.now x.at) ≡ n }
    ensures { out.new ≡ both_laid out.old t.now x 0 }
{
    let mut y = x;
    for k in 0..n {
        y = put_row(out, t, y, k);
    }
}
