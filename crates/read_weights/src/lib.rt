// Reading: what the checks of a file say in the paper's order, and what stands behind them in the sheet. `entity_at` reads the parameters
// of an entity and measures its lines in the sheet on the way. Crate `read_check` has the last pass over all of them and all checks.
#![tactic(auto)]

ghost use Rattle.std.specs.Prelude.{◌≡◌, ◌+◌, ◌*◌, ◌^◌, ◌<◌, ◌≤◌};
ghost use Rattle.columns.specs.Format.{field_columns};
ghost use Rattle.cards.specs.Cards.{entries, entry_line};
ghost use Rattle.sheets.specs.Writing.{entry_length};
ghost use Rattle.read_entities.specs.Walking.{carried_length};
ghost use Rattle.read_passes.specs.Ready.{Ready};
ghost use Rattle.read_weights.specs.Checks.{record_answer, entity_at};
ghost use Rattle.read_weights.specs.Weights.{record_carried, row_length, answer_rows, spelt_rows, rows_of, Few};

use cards::Counts;
use columns::format::{FIELD_COLUMNS, LINE_BYTES};
use columns::{Fault, FileLine, ParameterLine, Refusal, wide};
use directory::{Fields, Spelt};
use read_entities::Weighed;
use read_passes::Before;
use sheets_lay::entry_len;

// What a file tells that passes all checks: its counts and delimiters, and the bytes of the sheet behind its G lines.
#[derive(Clone, Copy)]
pub struct Weight {
    pub told: Before,
    pub rows: usize,
}

// The entity of this type and form, whose record stands in so many P lines from its pointer on.
fn record_answer(
    list: u64,
    file: &[u8],
    c: Counts,
    parameter: u8,
    closing: u8,
    typ: u32,
    form: u32,
    pointer: ParameterLine,
    lines: u32,
) -> Weighed
    requires ready { Ready file.now c }
    requires parameter_nonzero { 0 < parameter }
    requires closing_nonzero { 0 < closing }
    requires le_pointer { 1 ≤ pointer.0 }
    requires lines_bound { pointer.0 + lines ≤ c.p + 1 }
    ensures answer_value { result.answer ≡ record_answer list file.now c parameter closing typ form pointer.0 lines }
    ensures length_value { (result.length ≡ carried_length (record_carried file.now c parameter closing pointer.0 lines))
        × (result.length ≤ 70400 * lines) }
{
    let total = wide(c.d) / 2;
    let first = cards::entry_line(c, 0);
    let from = cards::parameter_line(c, pointer);
    let base = LINE_BYTES * from;
    let count = wide(lines);
    read_entity::entity_pass(
        list, file, base, count, parameter, closing, typ, form, first, total,
    )
}

// The bytes of the entry line of entry i: its label fills a slot of the directory.
fn head_len(i: usize, x: Fields) -> usize
    requires { i < 2 ^ 30 }
    ensures value { result ≡ entry_length (2 * i + 1) x field_columns }
    ensures upper_bound { result ≤ 388 }
{
    let number = cards::entry_number(i);
    entry_len(number, x, FIELD_COLUMNS)
}

// So many bytes, if the entity passes.
fn rows_of(
    answer: Result<(), Fault>,
    length: usize,
    line: FileLine,
) -> Result<usize, Refusal<FileLine>>
    ensures { result ≡ answer_rows answer length line }
{
    match answer {
        Ok(()) => Ok(length),
        Err(fault) => Err(Refusal { fault, line }),
    }
}

// Entry i, whose first D line is line k, with these fields and its record in so many P lines from its pointer on.
fn row_at(
    list: u64,
    file: &[u8],
    c: Counts,
    parameter: u8,
    closing: u8,
    i: usize,
    k: usize,
    fields: Fields,
    pointer: ParameterLine,
    lines: u32,
) -> Result<usize, Refusal<FileLine>>
    requires ready { Ready file.now c }
    requires parameter_nonzero { 0 < parameter }
    requires closing_nonzero { 0 < closing }
    requires i_bound { i < entries c }
    requires k_value { k ≡ entry_line c i }
    requires le_pointer { 1 ≤ pointer.0 }
    requires lines_bound { pointer.0 + lines ≤ c.p + 1 }
    ensures value { result ≡ spelt_rows list file.now c parameter closing i k fields pointer.0 lines }
    ensures few { Few 15000000000 result }
{
    let head = head_len(i, fields);
    let typ = fields.entity.size;
    let form = fields.form.size;
    let weighed = record_answer(list, file, c, parameter, closing, typ, form, pointer, lines);
    let answer = weighed.answer;
    rows_of(answer, head + weighed.length, FileLine(k + 1))
}

// Entity i; its entry is spelt, as all are.
pub fn entity_at(
    list: u64,
    file: &[u8],
    c: Counts,
    parameter: u8,
    closing: u8,
    i: usize,
) -> Result<usize, Refusal<FileLine>>
    requires ready { Ready file.now c }
    requires parameter_nonzero { 0 < parameter }
    requires closing_nonzero { 0 < closing }
    requires i_bound { i < entries c }
    ensures value { result ≡ rows_of (row_length list file.now c parameter closing i)
        (entity_at list file.now c parameter closing i) }
    ensures few { Few 15000000000 result }
{
    let k = cards::entry_line(c, i);
    let read = directory_read::entry_at(file, k);
    match read {
        None => Ok(0),
        Some(
            Spelt {
                fields,
                pointer,
                lines,
            },
        ) => row_at(
            list, file, c, parameter, closing, i, k, fields, pointer, lines,
        ),
    }
}
