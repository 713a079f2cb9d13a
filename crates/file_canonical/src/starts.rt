// The S lines, from the start lines of a sheet.
ghost use Rattle.std.specs.Prelude.{◌≡◌, ◌*◌, ◌≤◌, ◌<◌, length};
ghost use Rattle.columns.specs.Laid.{Wrote};
ghost use Rattle.columns.specs.Format.{line_bytes};
ghost use Rattle.sheets.specs.Sheet.{lines_in};
ghost use Rattle.sheets_rows.specs.Rows.{lines_at};
ghost use Rattle.file_canonical.specs.Laying.{starts_first, behind_starts, StartStands, start_bytes};

use file_blocks::lines::put_start_line;
use sheets_read::end_of;

// Where the start line at `at` ends.
fn start_end(t: &[u8], at: usize) -> usize
    requires at_in_bounds { at ≤ length t.now }
    requires nonzero { 0 < length (starts_first (lines_at t.now at)) }
    ensures { StartStands t.now at result }
{
    end_of(t, at)
}

// Lays the S lines of a sheet with so many start lines, and tells where the sheet goes on.
pub fn put_starts(out: &mut [u8], t: &[u8], s: usize) -> usize
    requires t_len { length (starts_first (lines_in t.now)) ≡ s }
    requires s_bound { s ≤ 9999998 }
    ensures wrote { Wrote out.old 0 (start_bytes 1 (starts_first (lines_in t.now))) out.new
        (line_bytes * s) }
    ensures result_value { lines_at t.now result ≡ behind_starts (lines_in t.now) }
    ensures upper_bound { result ≤ length t.now }
{
    let mut at = 0;
    let mut next = 0;
    for k in 0..s {
        let end = start_end(t, at);
        let from = at + 2;
        next = put_start_line(out, next, &t[from..end], k + 1);
        at = end + 1;
    }
    at
}
