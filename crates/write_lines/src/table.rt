// The class of each entry of a sheet: kept in a table, if they are no more than a file can have. In a sheet of more the table helps to
// find an entry's line (`far`).
ghost use Rattle.std.specs.Prelude.{◌≡◌, [], ◌+◌, ◌^◌, ◌≤◌, ◌<◌, length, get_or};
ghost use Rattle.columns.specs.Columns.{columns};
ghost use Rattle.columns.specs.Laid.{Wrote};
ghost use Rattle.references.specs.References.{class_at};
ghost use Rattle.sheets.specs.Sheet.{lines_in};
ghost use Rattle.write_lines.specs.Heads.{head_of};
ghost use Rattle.write_lines.specs.Classes.{sheet_types, classes_in, said_class, with_class, some_at, Tabled};

use crate::far::class_near;
use crate::heads::head_at;
use columns::DirectoryNumber;
use references::{NO_ENTRY, OTHER_ENTRY};
use sheets::Said;
use sheets_read::end_of;

// A file of 200,000 lines has three of its own (S, G, T), and three for each entry.
pub const TABLE: usize = 66665;

// The parts of a sheet of more entries: four bytes of the table for each, and for what is behind the last.
pub const PARTS: usize = 16665;

// The class of the entry that a line heads.
fn class_said(said: Said) -> u8
    ensures { result ≡ said_class said }
{
    match said {
        Said::Entry { fields, .. } => {
            let typ = fields.entity.size;
            references::class_of(typ)
        }
        _ => NO_ENTRY,
    }
}

// That of the line from `at` up to `end`.
fn class_on(t: &[u8], at: usize, end: usize) -> u8
    requires at_le_end { at ≤ end }
    requires end_in_bounds { end ≤ length t.now }
    ensures { result ≡ said_class (head_of (columns t.now at end)) }
{
    let said = head_at(t, at, end);
    class_said(said)
}

// Keeps the class of the entry that a line heads, if it heads one, as that of entry k.
pub fn keep(classes: &mut [u8], k: usize, said: Said) -> usize
    requires { k + 1 < 2 ^ 64 }
    ensures wrote { Wrote classes.old k (with_class (said_class said) []) classes.new result }
    ensures lower_bound { (k ≤ result) × (result ≤ k + 1) }
{
    let class = class_said(said);
    if class == NO_ENTRY {
        return k;
    }
    columns_emit::put(classes, k, class)
}

// The class of entry i, read off the sheet.
fn class_past(t: &[u8], i: usize) -> u8
    ensures { result ≡ get_or (classes_in (lines_in t.now)) i 0 }
{
    // From line to line: where the next begins is found on each turn, so that no range gives the places.
    let n = t.len();
    let mut at = 0;
    let mut left = i;
    while at < n {
        let end = end_of(t, at);
        if end == n {
            return NO_ENTRY;
        }
        let class = class_on(t, at, end);
        at = end + 1;
        if class == NO_ENTRY {
            continue;
        }
        if left == 0 {
            return class;
        }
        left -= 1;
    }
    NO_ENTRY
}

// What a directory number names in a sheet of n entries, where no type is asked for: for that no entry is looked at.
pub fn some_at(n: usize, number: DirectoryNumber) -> u8
    ensures { result ≡ some_at n number.0 }
{
    if number.0 % 2 != 1 {
        return NO_ENTRY;
    }
    let i = (number.0 / 2) as usize;
    if n <= i {
        return NO_ENTRY;
    }
    OTHER_ENTRY
}

// The class of what a directory number names in a sheet of n entries.
pub fn class_at(classes: &[u8], n: usize, t: &[u8], number: DirectoryNumber) -> u8
    requires { Tabled classes.now n t.now }
    ensures { result ≡ class_at (sheet_types t.now) number.0 }
{
    if some_at(n, number) == NO_ENTRY {
        return NO_ENTRY;
    }
    let i = (number.0 / 2) as usize;
    if n <= TABLE {
        return classes[i];
    }
    let class = class_near(classes, n, t, number);
    if class != NO_ENTRY {
        return class;
    }
    class_past(t, i)
}
