// The lines that a pass asks: G lines and entry lines. The others are not read.
ghost use Rattle.std.specs.Prelude.{◌≡◌, ◌≤◌, length};
ghost use Rattle.columns.specs.Columns.{columns};
ghost use Rattle.write_lines.specs.Heads.{is_head, head_of};

use sheets::Said;
use sheets_read::line_at;

// E, U or G.
fn is_head(b: u8) -> bool
    ensures { result ≡ is_head b }
{
    if b == b'E' {
        return true;
    }
    if b == b'U' {
        return true;
    }
    b == b'G'
}

// What the line from `at` up to `end` says, if it is one of these.
pub fn head_at(t: &[u8], at: usize, end: usize) -> Said
    requires at_le_end { at ≤ end }
    requires end_in_bounds { end ≤ length t.now }
    ensures { result ≡ head_of (columns t.now at end) }
{
    if end == at {
        return Said::Nothing(false);
    }
    if is_head(t[at]) {
        return line_at(t, at, end);
    }
    Said::Nothing(false)
}
