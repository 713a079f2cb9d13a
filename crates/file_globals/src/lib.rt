// The G lines, from those of a sheet.
#![tactic(auto)]

ghost use Rattle.std.specs.Prelude.{◌≡◌, [], ◌∷◌, ◌+◌, ◌-◌, ◌^◌, ◌≤◌, ◌<◌, length};
ghost use Rattle.columns.specs.Laid.{laid};
ghost use Rattle.columns.specs.Format.{text_columns};
ghost use Rattle.columns.specs.Letters.{letter_g};
ghost use Rattle.values.specs.Value.{item_of};
ghost use Rattle.records.specs.Flow.{line_count};
ghost use Rattle.records.specs.Global.{first_field, last_field};
ghost use Rattle.records.specs.Reading.{Writable};
ghost use Rattle.records.specs.Written.{Put};
ghost use Rattle.model.specs.Canonical.{filled, global_text};
ghost use Rattle.sheets_rows.specs.Rows.{lines_at};
ghost use Rattle.file_blocks.specs.Blocks.{fields_at, behind_globals, global_bytes};
ghost use Rattle.file_blocks.specs.Writing.{parted, tailed, FieldAt};

use columns::format::{LINE_BYTES, TEXT_COLUMNS};
use file_blocks::{Block, Flowed, GLOBAL, GlobalLine, lines, text};
use sheets::Said;
use values::Value;

const COMMA: u8 = b',';

// The number of the first field behind the delimiters.
const FIRST: usize = 3;

// What the line at `at` says, if it is a G line.
fn field_at(t: &[u8], at: usize) -> Option<GlobalLine>
    requires { at ≤ length t.now }
    ensures { FieldAt t.now at result }
{
    let end = sheets_read::end_of(t, at);
    if end == t.len() {
        return None;
    }
    let said = sheets_read::line_at(t, at, end);
    match said {
        Said::Global {
            number,
            at: k,
            value,
        } => Some(GlobalLine {
            number,
            from: at + k,
            end,
            value,
        }),
        Said::Start => None,
        Said::Value { .. } => None,
        Said::Entry { .. } => None,
        Said::Last(_) => None,
        Said::Nothing(_) => None,
    }
}

// How many fields before this one are not given: each is a ','.
fn missing(n: usize, number: u32) -> usize
    ensures { result ≡ number - n }
{
    (number as usize).saturating_sub(n)
}

// One field at position p: its number, of which n is the first that may come, and its value, whose characters stand in src.
fn put_field(
    out: &mut [u8],
    base: usize,
    p: usize,
    n: usize,
    number: u32,
    src: &[u8],
    v: Value,
) -> usize
    requires base_bound { base ≤ 2 ^ 40 }
    requires p_bound { p ≤ 2 ^ 39 }
    requires number_le_last_field { number ≤ last_field }
    requires writable { Writable (length src.now) v }
    ensures { Put base text_columns out.old p
        (parted text_columns p (filled n ((number, item_of src.now v) ∷ []))) out.new result }
{
    let a = records_flow::put_run(out, base, TEXT_COLUMNS, p, COMMA, missing(n, number));
    records_flow::put_piece(out, base, TEXT_COLUMNS, a, src, v, false)
}

// The fields of the G lines from `at` on, the first of them number 3, from position p of the record on.
fn put_fields(out: &mut [u8], base: usize, t: &[u8], at: usize, p: usize) -> Flowed
    requires at_in_bounds { at ≤ length t.now }
    requires base_bound { base ≤ 2 ^ 40 }
    requires at_bound { p + length (parted text_columns p (filled first_field (fields_at t.now at))) ≤ 2 ^ 39 }
    ensures put { Put base text_columns out.old p
        (parted text_columns p (filled first_field (fields_at t.now at))) out.new result.end }
    ensures next_value { lines_at t.now result.next ≡ behind_globals (lines_at t.now at) }
    ensures at_le_next { (at ≤ result.next) × (result.next ≤ length t.now) }
{
    let mut next = at;
    let mut end = p;
    let mut n = FIRST;
    // From line to line: the first that is no G line ends it, and none is counted before.
    loop {
        let Some(g) = field_at(t, next) else {
            return Flowed { next, end };
        };
        end = put_field(out, base, end, n, g.number, &t[g.from..g.end], g.value);
        next = g.end + 1;
        n = g.number as usize + 1;
    }
}

// Columns 73 to LF of so many G lines from 1 on, column 73 of the first of which is at q.
fn put_tails(out: &mut [u8], q: usize, lines: usize)
    requires q_bound { q ≤ 2 ^ 41 }
    requires lines_bound { lines ≤ 9999998 }
    ensures { out.new ≡ tailed out.old q [] letter_g 1 lines }
{
    let mut at = q;
    for i in 0..lines {
        lines::put_tail(out, at, GLOBAL, 1 + i);
        at += LINE_BYTES;
    }
}

// The G lines: the opening and the fields of the sheet's G lines from `at` on.
pub fn put_globals(out: &mut [u8], base: usize, t: &[u8], at: usize) -> Block
    requires at_in_bounds { at ≤ length t.now }
    requires base_bound { base ≤ 2 ^ 36 }
    requires at_len_bound { length (global_text (fields_at t.now at)) ≤ 2 ^ 36 }
    requires at_bound { 1 + line_count text_columns (length (global_text (fields_at t.now at))) ≤ 9999999 }
    ensures out_after { out.new ≡ laid out.old base (global_bytes (fields_at t.now at)) }
    ensures lines_value { result.lines ≡ line_count text_columns (length (global_text (fields_at t.now at))) }
    ensures next_value { lines_at t.now result.next ≡ behind_globals (lines_at t.now at) }
    ensures at_le_next { (at ≤ result.next) × (result.next ≤ length t.now) }
{
    let p = records_flow::put_all(out, base, TEXT_COLUMNS, 0, b"1H,,1H;,");
    let f = put_fields(out, base, t, at, p);
    let lines = text::close(out, base, TEXT_COLUMNS, f.end);
    put_tails(out, base + TEXT_COLUMNS, lines);
    Block {
        next: f.next,
        lines,
    }
}
