// What a directory number names: entry i of the file has its first D line at index first + 2 * i among the lines.
#![tactic(auto)]

ghost use Rattle.std.specs.Prelude.{◌≡◌, ◌+◌, ◌*◌, ◌≤◌, length};
ghost use Rattle.columns.specs.Format.{line_bytes};
ghost use Rattle.references.specs.References.{class_at};
ghost use Rattle.directory.specs.Naming.{types_at};

use columns::DirectoryNumber;
use directory::Wanted;
use directory::entries::Entries;
use directory_read::type_at;
use references::NO_ENTRY;

// The entries of a file: so many, and the first D line of the first has the index `first`.
#[derive(Clone, Copy)]
pub struct Directory<'f> {
    pub file: &'f [u8],
    pub first: usize,
    pub entries: usize,
    ghost stands: { line_bytes * (first + 2 * entries) ≤ length file.now },
}

impl<'f> Entries for Directory<'f> {
    ghost types = { λ d. types_at d.file.now d.first d.entries };

    fn meet(&self, wanted: Wanted) -> bool {
        let class = class_at(self.file, self.first, self.entries, wanted.number);
        references::fits(wanted.want, class)
    }
}

// The class of what a directory number names, among n entries.
pub fn class_at(file: &[u8], first: usize, n: usize, number: DirectoryNumber) -> u8
    requires { line_bytes * (first + 2 * n) ≤ length file.now }
    ensures { result ≡ class_at (types_at file.now first n) number.0 }
{
    if number.0 % 2 != 1 {
        return NO_ENTRY;
    }
    let i = (number.0 / 2) as usize;
    if n <= i {
        return NO_ENTRY;
    }
    let typ = type_at(file, first + 2 * i);
    references::class_of(typ)
}
