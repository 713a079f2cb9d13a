// G: 6 and 7 in text order, stray text, then 8.
#![tactic(auto)]

ghost use Rattle.std.specs.Prelude.{◌≡◌, ◌*◌, ◌<◌, ◌≤◌};
ghost use Rattle.columns.specs.Format.{text_columns};
ghost use Rattle.cards.specs.Rules.{Holds};
ghost use Rattle.cards.specs.Shared.{file_line};
ghost use Rattle.records.specs.Record.{start_of, behind};
ghost use Rattle.model.specs.Read.{global_text, global_line, spelling_line, no_stray, global_in};
ghost use Rattle.read_passes.specs.Passes.{pass_of, global_answer};
ghost use Rattle.read_passes.specs.Walks.{or_else, got_value, fields_fit, values_outcome};

use cards::Counts;
use columns::format::{LINE_BYTES, TEXT_COLUMNS};
use columns::{Fault, FileLine, Refusal, wide};
use read_passes::{Delimiters, FilePass};
use records::{Check, Got, Misspelt, Opening};
use values::Value;

const FIRST_FIELD: u32 = 3;

// The file line of position p of G's text.
fn global_line(c: Counts, p: usize) -> FileLine
    requires { p ≤ 16000000 }
    ensures { result ≡ file_line (global_line c p) }
{
    FileLine(wide(c.s) + p / TEXT_COLUMNS + 1)
}

// Where a value is wrong that starts at `start`: `at` cannot continue it.
fn spelling_line(file: &[u8], c: Counts, start: usize, at: usize) -> FileLine
    requires holds { Holds file.now c }
    requires start_bound { start ≤ 16000000 }
    ensures { result ≡ file_line (spelling_line c (global_text file.now c) start at) }
{
    let s = wide(c.s);
    let g = wide(c.g);
    if at == g * TEXT_COLUMNS {
        return FileLine(s + g);
    }
    global_line(c, start)
}

// Behind the record, which ends at `end`, is nothing but blanks.
fn no_stray(file: &[u8], c: Counts, end: usize) -> FilePass
    requires holds { Holds file.now c }
    requires end_bound { end ≤ c.g * text_columns }
    ensures { result ≡ pass_of (no_stray c (global_text file.now c) end) }
{
    let lines = wide(c.g);
    let q = records_global::stray(file, LINE_BYTES * wide(c.s), TEXT_COLUMNS, lines, end);
    if q == lines * TEXT_COLUMNS {
        return Ok(());
    }
    let line = global_line(c, q);
    Err(Refusal {
        fault: Fault::Spelling,
        line,
    })
}

fn value_of(g: Got) -> Value
    ensures { result ≡ got_value g }
{
    match g {
        Ok(found) => found.value,
        Err(_) => Value::Default,
    }
}

fn start_of(g: Got) -> usize
    ensures { result ≡ start_of g }
{
    match g {
        Ok(found) => found.start,
        Err(missed) => missed.start,
    }
}

fn behind_of(g: Got) -> usize
    ensures { result ≡ behind g }
{
    match g {
        Ok(found) => found.next,
        Err(missed) => missed.at,
    }
}

// Rule 8, field by field: the values from position `from` on, n of them.
fn fields_fit(file: &[u8], c: Counts, parameter: u8, closing: u8, from: usize, n: usize) -> FilePass
    requires holds { Holds file.now c }
    requires from_bound { from ≤ c.g * text_columns }
    requires n_bound { n ≤ 16000000 }
    requires parameter_nonzero { 0 < parameter }
    requires closing_nonzero { 0 < closing }
    ensures { result ≡ pass_of (fields_fit c parameter closing (global_text file.now c) from n) }
{
    let base = LINE_BYTES * wide(c.s);
    let lines = wide(c.g);
    let mut q = from;
    for k in 0..n {
        let g = records_read::value_at(file, base, TEXT_COLUMNS, lines, parameter, closing, q);
        let value = value_of(g);
        let start = start_of(g);
        let next = behind_of(g);
        if !records_global::global_fits(FIRST_FIELD + k as u32, value) {
            let line = global_line(c, start);
            return Err(Refusal {
                fault: Fault::Global,
                line,
            });
        }
        q = next;
    }
    Ok(())
}

// Behind n values from `from` on, where the record ends at `end`: stray text, then rule 8.
fn done_pass(
    file: &[u8],
    c: Counts,
    parameter: u8,
    closing: u8,
    from: usize,
    n: usize,
    end: usize,
) -> FilePass
    requires holds { Holds file.now c }
    requires from_bound { from ≤ c.g * text_columns }
    requires n_bound { n ≤ 16000000 }
    requires end_bound { end ≤ c.g * text_columns }
    requires parameter_nonzero { 0 < parameter }
    requires closing_nonzero { 0 < closing }
    ensures { result ≡ or_else (pass_of (no_stray c (global_text file.now c) end))
        (pass_of (fields_fit c parameter closing (global_text file.now c) from n)) }
{
    no_stray(file, c, end)?;
    fields_fit(file, c, parameter, closing, from, n)
}

// The record from `from` on.
fn values_pass(file: &[u8], c: Counts, parameter: u8, closing: u8, from: usize) -> FilePass
    requires holds { Holds file.now c }
    requires from_bound { from ≤ c.g * text_columns }
    requires parameter_nonzero { 0 < parameter }
    requires closing_nonzero { 0 < closing }
    ensures { result ≡ pass_of (values_outcome c (global_text file.now c) parameter closing from) }
{
    let lines = wide(c.g);
    let base = LINE_BYTES * wide(c.s);
    let check = records_read::check_from(file, base, TEXT_COLUMNS, lines, parameter, closing, from);
    match check {
        Err(Misspelt { fault, start, at }) => {
            let line = spelling_line(file, c, start, at);
            Err(Refusal { fault, line })
        }
        Ok(Check { count, end, .. }) => done_pass(file, c, parameter, closing, from, count, end),
    }
}

// The Global section.
pub fn globals(file: &[u8], c: Counts) -> Result<Delimiters, Refusal<FileLine>>
    requires { Holds file.now c }
    ensures { result ≡ global_answer (global_in file.now c) }
{
    let first = wide(c.s);
    let opening = records_global::opening_of(file, LINE_BYTES * first, wide(c.g));
    let Some(
        Opening {
            parameter,
            closing,
            next,
            last,
        },
    ) = opening
    else {
        return Err(Refusal {
            fault: Fault::Spelling,
            line: FileLine(first + 1),
        });
    };
    let told = Delimiters { parameter, closing };
    if last {
        no_stray(file, c, next)?;
        return Ok(told);
    }
    values_pass(file, c, parameter, closing, next)?;
    Ok(told)
}
