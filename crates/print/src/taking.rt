// The values of a record, one after the other, within their limits.
ghost use Rattle.std.specs.Prelude.{◌≡◌, ◌*◌, ◌≤◌, ◌<◌};
ghost use Rattle.columns.specs.Columns.{text_of};
ghost use Rattle.columns.specs.Format.{parameter_columns};
ghost use Rattle.records.specs.Record.{value_at, values_at};
ghost use Rattle.records.specs.Reading.{Stands, Writable};
ghost use Rattle.read_entities.specs.Taking.{taken_of};
ghost use Rattle.print.specs.Taking.{Unrefused, met_of};

use crate::Met;
use columns::format::PARAMETER_COLUMNS;
use read_entities::Taken;
use records::{Found, Got, Misspelt};
use records_read::value_at;
use values::Value;

// A value that was read. A refused one stands for a default: a record that was checked has none.
fn taken_of(g: Got) -> Taken
    ensures { result ≡ taken_of g }
{
    match g {
        Ok(Found { value, next, .. }) => Taken { value, next },
        Err(Misspelt { at, .. }) => Taken {
            value: Value::Default,
            next: at,
        },
    }
}

// The value from position q of a record on.
pub fn value_from(file: &[u8], base: usize, w: usize, lines: usize, c: u8, d: u8, q: usize) -> Taken
    requires stands { Stands file.now base w lines }
    requires q_bound { q ≤ lines * w }
    requires c_nonzero { 0 < c }
    requires d_nonzero { 0 < d }
    ensures value { result ≡ taken_of (value_at w c d (text_of file.now base w lines) q) }
    ensures next_bound { (result.next ≤ lines * w) × Writable (lines * w) result.value }
{
    let g = value_at(file, base, w, lines, c, d, q);
    taken_of(g)
}

// A value that is met. A refused one would end the record.
fn met_of(g: Got) -> Met
    ensures { result ≡ met_of g }
{
    match g {
        Ok(
            Found {
                value,
                next,
                last,
                ..
            },
        ) => Met { value, next, last },
        Err(Misspelt { at, .. }) => Met {
            value: Value::Default,
            next: at,
            last: true,
        },
    }
}

// The value from position q of an entity's record on, which is not refused.
pub fn met_at(file: &[u8], base: usize, lines: usize, c: u8, d: u8, q: usize) -> Met
    requires stands { Stands file.now base parameter_columns lines }
    requires q_bound { q ≤ lines * parameter_columns }
    requires c_nonzero { 0 < c }
    requires d_nonzero { 0 < d }
    requires unrefused { Unrefused (values_at parameter_columns c d (text_of file.now base parameter_columns lines) q) }
    ensures value { result ≡ met_of (value_at parameter_columns c d (text_of file.now base parameter_columns lines) q) }
    ensures q_lt_next { (q < result.next) × (result.next ≤ lines * parameter_columns)
        × Writable (lines * parameter_columns) result.value }
{
    let g = value_at(file, base, PARAMETER_COLUMNS, lines, c, d, q);
    met_of(g)
}
