// What a value names in a sheet. Few places of the layouts ask for a type; for the others it is enough whether there is such an entry, and
// in a sheet that has more entries than the table has classes that is told without a search.
ghost use Rattle.std.specs.Prelude.{◌≡◌, ◌||◌, leb};
ghost use Rattle.layouts.specs.Machine.{kind_at, step};
ghost use Rattle.layouts.specs.Named.{named};
ghost use Rattle.write_lines.specs.Classes.{sheet_types, table_size, Tabled};
ghost use Rattle.write_entities.specs.Typed.{asks_type, some_named};

use columns::DirectoryNumber;
use layouts::{Kind, LayoutState};
use layouts_rows::look;
use references::{ANY, NO_ENTRY};
use values::Value;
use write_lines::table::{TABLE, class_at, some_at};

// The class of what a value names: only a whole number without a sign names an entry.
fn named_at(classes: &[u8], n: usize, t: &[u8], v: Value) -> u8
    requires { Tabled classes.now n t.now }
    ensures { result ≡ named (sheet_types t.now) v }
{
    match v {
        Value::Whole { neg, size } => {
            if neg {
                return NO_ENTRY;
            }
            class_at(classes, n, t, DirectoryNumber(size))
        }
        _ => NO_ENTRY,
    }
}

// The same where no type is asked for.
fn some_named(n: usize, v: Value) -> u8
    ensures { result ≡ some_named n v }
{
    match v {
        Value::Whole { neg, size } => {
            if neg {
                return NO_ENTRY;
            }
            some_at(n, DirectoryNumber(size))
        }
        _ => NO_ENTRY,
    }
}

// Whether a place asks for a type.
fn asks_type(k: Kind) -> bool
    ensures { result ≡ asks_type k }
{
    match k {
        Kind::P { want } => ANY < want,
        Kind::Q { want } => ANY < want,
        Kind::Bound { want } => ANY < want,
        _ => false,
    }
}

// Whether the class of what is named is to be looked up: in a table of classes that costs nothing.
fn is_looked_up(n: usize, s: LayoutState) -> bool
    ensures { result ≡ leb n table_size || asks_type (kind_at s) }
{
    if n <= TABLE {
        return true;
    }
    let p = look(s.at);
    let k = p.kind;
    asks_type(k)
}

// The class of what a value names, as far as its place asks for it.
pub fn named_for(classes: &[u8], n: usize, t: &[u8], s: LayoutState, v: Value) -> u8
    requires { Tabled classes.now n t.now }
    ensures { step s v result ≡ step s v (named (sheet_types t.now) v) }
{
    if is_looked_up(n, s) {
        return named_at(classes, n, t, v);
    }
    some_named(n, v)
}
