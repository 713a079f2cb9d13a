// The table of a sheet that has more entries than a file can have, and so too many for their classes: for each of `PARTS` equal parts
// of its bytes the number of the first entry that starts there or behind, by which `write_lines` finds an entry's line. It is a hint: what
// is found counts by the number that it shows, so nothing has to be proved of what the table tells.
ghost use Rattle.std.specs.Prelude.{◌≡◌, ◌≤◌, length};
ghost use Rattle.write_lines.specs.Classes.{table_size};
ghost use Rattle.write_check.specs.Marked.{added_by, Marked};

use columns::DirectoryNumber;
use sheets_read::end_of;
use write_lines::table::{PARTS, TABLE};

// Tells `number` of part q, in four bytes.
fn tell(table: &mut [u8], q: usize, number: DirectoryNumber)
    requires { length table.old ≡ table_size }
    ensures { length table.new ≡ table_size }
{
    if PARTS <= q {
        return;
    }
    let i = 4 * q;
    table[i..i + 4].copy_from_slice(&number.0.to_le_bytes());
}

// What a line that begins so adds to the next entry's number.
fn entry_adds(b: u8) -> u32
    ensures { result ≡ added_by b }
{
    if b == b'E' {
        return 2;
    }
    if b == b'U' {
        return 2;
    }
    0
}

// Where the entry starts that begins with b at `at`, or 0.
fn entry_start(b: u8, at: usize) -> usize
    ensures { result ≤ at }
{
    if entry_adds(b) == 0 {
        return 0;
    }
    at
}

// All parts in which, or behind which, an entry starts. A turn tells of one part, or goes on a line.
fn tell_parts(table: &mut [u8], t: &[u8])
    requires { length table.old ≡ table_size }
    ensures { length table.new ≡ table_size }
{
    let size = t.len();
    let part = size / PARTS + 1;
    let mut q = 0;
    let mut next = 1;
    let mut number = 1;
    let mut at = 0;
    // From line to line, but where a part is told.
    while at < size {
        let b = t[at];
        if next <= entry_start(b, at) {
            tell(table, q, DirectoryNumber(number));
            if size - next < part {
                return;
            }
            q += 1;
            next += part;
            continue;
        }
        let end = end_of(t, at);
        if end == size {
            return;
        }
        number = std::num::wrapping_add_u32(number, entry_adds(b));
        at = end + 1;
    }
}

// The table for a sheet of n entries.
pub fn mark(table: &mut [u8], n: usize, t: &[u8])
    requires { length table.old ≡ table_size }
    ensures { Marked n table.old table.new }
{
    if n <= TABLE {
        return;
    }
    let end = columns_emit::put_run(table, 0, 255, TABLE);
    tell_parts(table, t);
}
