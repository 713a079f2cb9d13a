// What a value names: entry i of the file has its first D line at index first + 2 * i among the lines.
ghost use Rattle.std.specs.Prelude.{◌≡◌, ◌+◌, ◌*◌, ◌≤◌, length};
ghost use Rattle.columns.specs.Format.{line_bytes};
ghost use Rattle.directory.specs.Naming.{types_at};
ghost use Rattle.layouts.specs.Named.{named};

use columns::DirectoryNumber;
use directory_lookup::class_at;
use references::NO_ENTRY;
use values::Value;

// The class of what a value names: only a whole number without a sign names an entry.
pub fn named_at(file: &[u8], first: usize, n: usize, v: Value) -> u8
    requires { line_bytes * (first + 2 * n) ≤ length file.now }
    ensures { result ≡ named (types_at file.now first n) v }
{
    match v {
        Value::Default => NO_ENTRY,
        Value::Whole { neg, size } => {
            if neg {
                return NO_ENTRY;
            }
            class_at(file, first, n, DirectoryNumber(size))
        }
        Value::Real { .. } => NO_ENTRY,
        Value::Text { .. } => NO_ENTRY,
    }
}
