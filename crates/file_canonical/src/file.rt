// The canonical file of a sheet: S, G, D and P lines and the T line, laid over a lent buffer and clipped to it.
ghost use Rattle.std.specs.Prelude.{◌≡◌, ◌*◌, Some, Ok};
ghost use Rattle.columns.specs.Laid.{Wrote};
ghost use Rattle.columns.specs.Format.{line_bytes};
ghost use Rattle.cards.specs.Cards.{total};
ghost use Rattle.sheets.specs.Sheet.{lines_in, sheet_of};
ghost use Rattle.sheets.specs.Order.{verdict_of};
ghost use Rattle.sheets.specs.WellFormed.{Each};
ghost use Rattle.model.specs.Model.{model_of};
ghost use Rattle.model.specs.Canonical.{canonical};
ghost use Rattle.file_canonical.specs.Counting.{lines_of_sheet};
ghost use Rattle.file_canonical.specs.Laying.{file_bytes, TextsFit, TextsLaid, Ranged, Ready};

use crate::EntryPlace;
use crate::entries::put_rows;
use crate::starts::put_starts;
use cards::Counts;
use columns::format::LINE_BYTES;
use columns::{ParameterLine, wide};
use file_blocks::lines::put_last_line;
use file_globals::put_globals;

// Lays the S and G lines of a sheet with so many start lines, and tells where the sheet goes on.
fn put_texts(out: &mut [u8], t: &[u8], s: usize) -> usize
    requires { TextsFit (lines_in t.now) s }
    ensures { TextsLaid out.old t.now s out.new result }
{
    let at = put_starts(out, t, s);
    let b = put_globals(out, LINE_BYTES * s, t, at);
    b.next
}

// Lays the sections one behind the other, each at its place.
fn put_sections(out: &mut [u8], t: &[u8], c: Counts, n: usize) -> usize
    requires { Ready (lines_in t.now) n c }
    ensures { Wrote out.old 0 (file_bytes (lines_in t.now) c) out.new result }
{
    let s = wide(c.s);
    let texts = s + wide(c.g);
    let directory = texts + wide(c.d);
    let end = directory + wide(c.p);
    let at = put_texts(out, t, s);
    let x = EntryPlace {
        at,
        d: LINE_BYTES * texts,
        p: LINE_BYTES * directory,
        from: ParameterLine(1),
    };
    put_rows(out, t, x, n);
    put_last_line(out, LINE_BYTES * end, c)
}

// Lays the canonical file of a good sheet of n entries with these counts over out, from its start on.
pub fn put_file(out: &mut [u8], t: &[u8], c: Counts, n: usize) -> usize
    requires t_value { verdict_of t.now ≡ Ok n }
    requires t_value_2 { lines_of_sheet (lines_in t.now) ≡ Some c }
    requires each { Each Ranged (sheet_of (lines_in t.now)).rows }
    ensures wrote { Wrote out.old 0 (canonical (model_of (sheet_of (lines_in t.now)))) out.new result }
    ensures value { result ≡ line_bytes * total c }
{
    put_sections(out, t, c, n)
}
