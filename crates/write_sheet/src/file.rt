// How long the canonical file of a sheet is.
ghost use Rattle.std.specs.Prelude.{◌≡◌, ◌*◌};
ghost use Rattle.columns.specs.Format.{line_bytes};
ghost use Rattle.cards.specs.Cards.{total};

use cards::Counts;
use columns::format::LINE_BYTES;
use columns::wide;

// The bytes of a file with these counts.
pub fn bytes(c: Counts) -> usize
    ensures { result ≡ line_bytes * total c }
{
    let lines = wide(c.s) + wide(c.g) + wide(c.d) + wide(c.p) + wide(c.t);
    LINE_BYTES * lines
}
