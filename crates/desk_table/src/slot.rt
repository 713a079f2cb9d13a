// The record of an entry, by value.
ghost use Rattle.std.specs.Prelude.{◌≡◌, [], ◌+◌, ◌*◌, ◌≤◌, length, take, drop};
ghost use Rattle.columns.specs.Format.{line_bytes, field_columns};
ghost use Rattle.directory.specs.Fields.{fields_of};
ghost use Rattle.desk_table.specs.Tables.{record_spelt, record_at};

use columns::format::FIELD_COLUMNS;
use columns::{DirectoryNumber, ParameterLine, Signed};
use desk::Record;
use directory::{Fields, Spelt};

// The eight bytes from a place on.
fn eight(file: &[u8], at: usize) -> [u8; FIELD_COLUMNS]
    requires { at + field_columns ≤ length file.now }
    ensures { result ≡ take field_columns (drop at file.now) }
{
    *file[at..].first_chunk().unwrap()
}

// What stands for a misspelt entry; no file that reading accepts has one.
fn no_fields() -> Fields
    ensures { result ≡ fields_of [] }
{
    let nought = Signed {
        neg: false,
        size: 0,
    };
    Fields {
        entity: nought,
        form: nought,
        structure: nought,
        font: nought,
        level: nought,
        view: nought,
        matrix: nought,
        display: nought,
        status: nought,
        weight: nought,
        colour: nought,
        subscript: nought,
    }
}

// Its fields under a list, with its directory number, label, parameter pointer and line count.
fn record_with(
    list: u64,
    number: DirectoryNumber,
    fields: Fields,
    label: [u8; FIELD_COLUMNS],
    pointer: ParameterLine,
    lines: u32,
) -> Record
    ensures { result ≡ record_spelt list number.0 fields label pointer lines }
{
    let entity = fields.entity;
    let form = fields.form;
    let known = layouts_lists::known(list, entity.size, form.size);
    let entry = directory_rules::entry_of(fields);
    Record {
        known,
        number,
        entry,
        label,
        pointer,
        lines,
    }
}

// Of the entry with this directory number whose first D line is line k.
pub fn record_at(list: u64, file: &[u8], number: DirectoryNumber, k: usize) -> Record
    requires { line_bytes * k + 2 * line_bytes ≤ length file.now }
    ensures { result ≡ record_at list file.now number.0 k }
{
    let at = directory_read::label_at(k);
    let label = eight(file, at);
    let read = directory_read::entry_at(file, k);
    match read {
        Some(
            Spelt {
                fields,
                pointer,
                lines,
            },
        ) => record_with(list, number, fields, label, pointer, lines),
        None => {
            let none = no_fields();
            record_with(list, number, none, label, ParameterLine(0), 0)
        }
    }
}
