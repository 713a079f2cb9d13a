// Where a position of a text stands in its file. Nearly every text is in lines of 64 columns: by that constant no division is left.
ghost use Rattle.std.specs.Prelude.{◌≡◌, ◌%◌, ◌^◌, ◌≤◌, ◌<◌};
ghost use Rattle.records.specs.Written.{index_of};

use columns::format::{LINE_BYTES, PARAMETER_COLUMNS};

// The byte at which position p stands.
pub fn index_of(base: usize, w: usize, p: usize) -> usize
    requires le_w { 1 ≤ w }
    requires p_bound { index_of base w p < 2 ^ 64 }
    ensures { result ≡ index_of base w p }
{
    if w == PARAMETER_COLUMNS {
        return base + p / PARAMETER_COLUMNS * LINE_BYTES + p % PARAMETER_COLUMNS;
    }
    base + p / w * LINE_BYTES + p % w
}

// The column in which it stands.
pub fn column_of(w: usize, p: usize) -> usize
    requires { 1 ≤ w }
    ensures { result ≡ p % w }
{
    if w == PARAMETER_COLUMNS {
        return p % PARAMETER_COLUMNS;
    }
    p % w
}
