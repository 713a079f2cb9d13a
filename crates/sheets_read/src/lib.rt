// Sheets in: where a line ends and what it says.
#![tactic(auto)]

ghost use Rattle.std.specs.Prelude.{◌≡◌, true, false, [], ◌+◌, ◌-◌, ◌≤◌, ◌<◌, length, drop};
ghost use Rattle.columns.specs.Columns.{columns};
ghost use Rattle.columns.specs.Letters.{newline};
ghost use Rattle.values.specs.Strict.{strict_of};
ghost use Rattle.values.specs.Writing.{Placed};
ghost use Rattle.sheets.specs.Line.{run, entry_from, numbers_of, number_count, entry_of};
ghost use Rattle.sheets.specs.Sheet.{is_mark, is_value, is_start, start_line, global_of, global_line, entry_line_of, value_of};
ghost use Rattle.sheets.specs.Sheet.{last_line, says_of};
ghost use Rattle.sheets.specs.Reading.{Within};

use columns::format::{FIELD_COLUMNS, MOST_INTEGER, MOST_INTEGER_WIDE, TEXT_COLUMNS};
use columns::{Signed, look};
use directory::{Fields, order};
use sheets::{EntryLine, Said};
use values::{Value, is_missing};

// Where the line that starts at `at` ends: its LF, or the text's end.
pub fn end_of(t: &[u8], at: usize) -> usize
    requires { at ≤ length t.now }
    ensures value { result ≡ at + run newline (drop at t.now) }
    ensures lower_bound { (at ≤ result) × (result ≤ length t.now) }
{
    sheets_numbers::find(t, b'\n', at, t.len())
}

// What the numbers of an entry line are: its directory number, and those of the entry.
#[tactic(auto, using(crate::proofs::Entries::rows))]
fn entry_from(known: bool, x: [Signed; 13]) -> Option<EntryLine>
    ensures { result ≡ entry_from known x }
{
    let fields = Fields {
        entity: x[1 + order::TYPE],
        form: x[1 + order::FORM],
        structure: x[1 + order::STRUCTURE],
        font: x[1 + order::FONT],
        level: x[1 + order::LEVEL],
        view: x[1 + order::VIEW],
        matrix: x[1 + order::MATRIX],
        display: x[1 + order::DISPLAY],
        status: x[1 + order::STATUS],
        weight: x[1 + order::WEIGHT],
        colour: x[1 + order::COLOUR],
        subscript: x[1 + order::SUBSCRIPT],
    };
    Some(EntryLine {
        known,
        number: x[0],
        fields,
    })
}

// The numbers and the label of an entry line.
#[tactic(auto, using(crate::proofs::Entries::rows))]
fn numbers(s: &[u8], at: usize, end: usize, known: bool) -> Option<EntryLine>
    requires at_le_end { at ≤ end }
    requires end_in_bounds { end ≤ length s.now }
    ensures { result ≡ numbers_of known number_count [] (columns s.now at end) }
{
    let z = Signed {
        neg: false,
        size: 0,
    };
    let mut xs = [z; 13];
    let mut i = at;
    for k in 0..13 {
        let f = sheets_numbers::tabbed_at(s, 12 - k, i, end);
        let e = f.end;
        if e == end {
            return None;
        }
        let x = f.number;
        if x.size > MOST_INTEGER {
            return None;
        }
        xs[k] = x;
        i = e + 1;
    }
    if end - i != FIELD_COLUMNS {
        return None;
    }
    if look::is_printable(s, i, end) {
        return entry_from(known, xs);
    }
    None
}

// The entry line from `at` up to `end`.
#[tactic(auto, using(crate::proofs::Entries::line))]
pub fn entry_at(s: &[u8], at: usize, end: usize) -> Option<EntryLine>
    requires at_le_end { at ≤ end }
    requires end_in_bounds { end ≤ length s.now }
    ensures { result ≡ entry_of (columns s.now at end) }
{
    if end - at < 2 {
        return None;
    }
    if s[at + 1] != b'\t' {
        return None;
    }
    if s[at] == b'E' {
        return numbers(s, at + 2, end, true);
    }
    if s[at] == b'U' {
        return numbers(s, at + 2, end, false);
    }
    None
}

pub fn is_mark(b: u8) -> bool
    ensures { result ≡ is_mark b }
{
    b == b'R' || b == b'V'
}

// Whether a start text stands from `at` up to `end`.
fn is_start(s: &[u8], at: usize, end: usize) -> bool
    requires at_le_end { at ≤ end }
    requires end_in_bounds { end ≤ length s.now }
    ensures { result ≡ is_start (columns s.now at end) }
{
    if end == at {
        return true;
    }
    if TEXT_COLUMNS < end - at {
        return false;
    }
    if s[end - 1] == b' ' {
        return false;
    }
    look::is_printable(s, at, end)
}

fn start_line(s: &[u8], at: usize, end: usize) -> Said
    requires at_le_end { at ≤ end }
    requires end_in_bounds { end ≤ length s.now }
    ensures { result ≡ start_line (columns s.now at end) }
{
    if is_start(s, at, end) {
        return Said::Start;
    }
    Said::Nothing(false)
}

// The value that stands from `at` up to `end`.
pub fn strict_at(s: &[u8], at: usize, end: usize) -> Option<Value>
    requires at_le_end { at ≤ end }
    requires end_in_bounds { end ≤ length s.now }
    ensures value { result ≡ strict_of (columns s.now at end) }
    ensures placed { Placed (end - at) result }
{
    values_strict::strict(&s[at..end])
}

fn global_of(n: u32, at: usize, v: Option<Value>) -> Said
    ensures { result ≡ global_of true n at v }
{
    match v {
        Some(value) => {
            if is_missing(value) {
                return Said::Nothing(false);
            }
            Said::Global {
                number: n,
                at,
                value,
            }
        }
        None => Said::Nothing(false),
    }
}

fn global_line(s: &[u8], at: usize, end: usize) -> Said
    requires at_le_end { at ≤ end }
    requires end_in_bounds { end ≤ length s.now }
    ensures { result ≡ global_line (columns s.now at end) }
{
    let e = sheets_numbers::find(s, b'\t', at, end);
    if e == end {
        return Said::Nothing(false);
    }
    let n = sheets_numbers::size_at(s, sheets_numbers::UNREAD, at, e);
    if n < 3 {
        return Said::Nothing(false);
    }
    if 24 < n {
        return Said::Nothing(false);
    }
    let v = strict_at(s, e + 1, end);
    global_of(n as u32, 2 + (e + 1 - at), v)
}

#[tactic(auto, using(sheets::proofs::Machine::lines))]
fn entry_said(x: Option<EntryLine>) -> Said
    ensures { result ≡ entry_line_of x }
{
    match x {
        Some(
            EntryLine {
                known,
                number,
                fields,
            },
        ) => Said::Entry {
            known,
            number,
            fields,
        },
        None => Said::Nothing(false),
    }
}

fn value_said(reference: bool, v: Option<Value>) -> Said
    ensures { result ≡ value_of reference v }
{
    match v {
        Some(value) => Said::Value { reference, value },
        None => Said::Nothing(true),
    }
}

fn last_line(s: &[u8], at: usize, end: usize) -> Said
    requires at_le_end { at ≤ end }
    requires end_in_bounds { end ≤ length s.now }
    ensures { result ≡ last_line (columns s.now at end) }
{
    let n = sheets_numbers::size_at(s, sheets_numbers::UNREAD, at, end);
    if MOST_INTEGER_WIDE < n {
        return Said::Nothing(false);
    }
    Said::Last(n as usize)
}

// Whether the line from `at` up to `end` begins as a value line does: R or V, and a tab. What follows is then its value.
pub fn is_value(s: &[u8], at: usize, end: usize) -> bool
    requires at_le_end { at ≤ end }
    requires end_in_bounds { end ≤ length s.now }
    ensures { result ≡ is_value (columns s.now at end) }
{
    if end - at < 2 {
        return false;
    }
    if s[at + 1] != b'\t' {
        return false;
    }
    is_mark(s[at])
}

// What a line says by its first byte; its second is a tab.
fn by_mark(s: &[u8], at: usize, end: usize) -> Said
    requires at_le_end { at ≤ end }
    requires end_in_bounds { end ≤ length s.now }
    ensures { result ≡ says_of (columns s.now at end) }
{
    if end == at {
        return Said::Nothing(false);
    }
    let a = s[at];
    if end - at < 2 {
        return Said::Nothing(is_mark(a));
    }
    if s[at + 1] != b'\t' {
        return Said::Nothing(is_mark(a));
    }
    let t = at + 2;
    if a == b'S' {
        return start_line(s, t, end);
    }
    if a == b'G' {
        return global_line(s, t, end);
    }
    if a == b'E' {
        return entry_said(entry_at(s, at, end));
    }
    if a == b'U' {
        return entry_said(entry_at(s, at, end));
    }
    if a == b'R' {
        return value_said(true, strict_at(s, t, end));
    }
    if a == b'V' {
        return value_said(false, strict_at(s, t, end));
    }
    if a == b'Z' {
        return last_line(s, t, end);
    }
    Said::Nothing(false)
}

// What the line from `at` up to `end` says.
pub fn line_at(s: &[u8], at: usize, end: usize) -> Said
    requires at_le_end { at ≤ end }
    requires end_in_bounds { end ≤ length s.now }
    ensures value { result ≡ says_of (columns s.now at end) }
    ensures within { Within (end - at) result }
{
    by_mark(s, at, end)
}
