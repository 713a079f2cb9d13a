// Names, pointers and line counts, where they stand in a file. A line is told by its index, as `cards` counts them.
ghost use Rattle.std.specs.Prelude.{◌≡◌, ◌+◌, ◌*◌, ◌<◌, ◌≤◌, length};
ghost use Rattle.columns.specs.Columns.{line_at};
ghost use Rattle.columns.specs.Fixed.{signed_of};
ghost use Rattle.columns.specs.Format.{line_bytes};
ghost use Rattle.cards.specs.Cards.{entries};
ghost use Rattle.cards.specs.Rules.{Holds};
ghost use Rattle.directory.specs.Reading.{slot_at};
ghost use Rattle.owners.specs.InFile.{size_or0, name_of, owner_in, from_in, count_in};

use cards::Counts;
use columns::format::{FIELD_COLUMNS, LINE_BYTES, PARAMETER_COLUMNS, TEXT_COLUMNS};
use columns::{DirectoryNumber, ParameterLine, Signed};
use directory::lines;

// Where a P line has its directory number: behind a blank column.
const NAME: usize = PARAMETER_COLUMNS + 1;

fn size_or_0(f: Option<Signed>) -> u32
    ensures { result ≡ size_or0 f }
{
    let Some(x) = f else {
        return 0;
    };
    if x.neg {
        return 0;
    }
    x.size
}

// The number in slot j of the entry whose first D line is line k.
fn size_at(file: &[u8], k: usize, j: usize) -> u32
    requires k_in_bounds { line_bytes * (k + 2) ≤ length file.now }
    requires j_bound { j < 18 }
    ensures { result ≡ size_or0 (signed_of (slot_at file.now k j)) }
{
    let at = lines::start_of(k, j);
    let f = columns_fixed::read_signed(file, at, at + FIELD_COLUMNS);
    size_or_0(f)
}

// The directory number that a P line names, or 0.
fn name_at(file: &[u8], line: usize) -> DirectoryNumber
    requires { line_bytes * line + line_bytes ≤ length file.now }
    ensures { result.0 ≡ name_of (line_at file.now line) }
{
    let at = LINE_BYTES * line;
    if file[at + PARAMETER_COLUMNS] != b' ' {
        return DirectoryNumber(0);
    }
    let f = columns_fixed::read_field(file, at + NAME, at + TEXT_COLUMNS);
    DirectoryNumber(f.unwrap_or(0))
}

// What P line k names, or 0.
pub fn owner_at(file: &[u8], c: Counts, k: ParameterLine) -> DirectoryNumber
    requires holds { Holds file.now c }
    requires le_k { 1 ≤ k.0 }
    requires k_le_p { k.0 ≤ c.p }
    ensures { result.0 ≡ owner_in file.now c k.0 }
{
    let line = cards::parameter_line(c, k);
    name_at(file, line)
}

// Entry i's pointer.
pub fn from_at(file: &[u8], c: Counts, i: usize) -> ParameterLine
    requires holds { Holds file.now c }
    requires i_bound { i < entries c }
    ensures { result.0 ≡ from_in file.now c i }
{
    let line = cards::entry_line(c, i);
    ParameterLine(size_at(file, line, lines::POINTER))
}

// Entry i's line count.
pub fn count_at(file: &[u8], c: Counts, i: usize) -> u32
    requires holds { Holds file.now c }
    requires i_bound { i < entries c }
    ensures { result ≡ count_in file.now c i }
{
    let line = cards::entry_line(c, i);
    size_at(file, line, lines::COUNT)
}
