// The P lines of an entity, from the value lines of a sheet.
#![tactic(auto)]

ghost use Rattle.std.specs.Prelude.{◌≡◌, false, ◌++◌, ◌+◌, ◌^◌, ◌≤◌, ◌<◌, length, Some};
ghost use Rattle.columns.specs.Columns.{joined};
ghost use Rattle.columns.specs.Laid.{laid, Wrote};
ghost use Rattle.columns.specs.Format.{parameter_columns};
ghost use Rattle.columns.specs.Letters.{letter_p};
ghost use Rattle.values.specs.Value.{item_of};
ghost use Rattle.values.specs.Strict.{strict_of, meant};
ghost use Rattle.records.specs.Flow.{piece, line_count};
ghost use Rattle.records.specs.Written.{Put};
ghost use Rattle.cards.specs.Written.{section};
ghost use Rattle.sheets_rows.specs.Rows.{lines_at};
ghost use Rattle.file_blocks.specs.Blocks.{behind_values, Unbroken, items_at, record_text, block_lines, BlockHasRoom, tail_of};
ghost use Rattle.file_blocks.specs.Writing.{parted, owner_of, tailed};

use columns::format::{LINE_BYTES, NUMBER_COLUMNS, PARAMETER_COLUMNS};
use columns::{DirectoryNumber, ParameterLine};
use file_blocks::{Block, Flowed, PARAMETER, lines, text};
use values::Value;

const COMMA: u8 = b',';

// Writes the value that l spells at position p with ',' behind it: its spelling is its canonical form.
fn put_spelled(out: &mut [u8], base: usize, p: usize, l: &[u8]) -> usize
    requires base_bound { base ≤ 2 ^ 40 }
    requires p_bound { p ≤ 2 ^ 40 }
    requires l_value { strict_of l.now ≡ Some (meant l.now) }
    ensures { Put base parameter_columns out.old p
        (piece parameter_columns p (item_of l.now (meant l.now)) false) out.new result }
{
    let n = values_strict::front_of(l);
    let g = records_flow::gap_of(PARAMETER_COLUMNS, p, n + 1);
    let q = records_flow::put_run(out, base, PARAMETER_COLUMNS, p, b' ', g);
    let e = records_flow::put_all(out, base, PARAMETER_COLUMNS, q, l);
    records_flow::put_char(out, base, PARAMETER_COLUMNS, e, COMMA)
}

// The values of the value lines from `at` on, from position p of the record on. The sheet is good: what begins as a value line is one, and
// isn't read again.
fn put_values(out: &mut [u8], base: usize, t: &[u8], at: usize, p: usize) -> Flowed
    requires at_in_bounds { at ≤ length t.now }
    requires base_bound { base ≤ 2 ^ 40 }
    requires at_bound { p + length (parted parameter_columns p (items_at t.now at)) ≤ 2 ^ 40 }
    requires unbroken { Unbroken (lines_at t.now at) }
    ensures put { Put base parameter_columns out.old p (parted parameter_columns p (items_at t.now at))
        out.new result.end }
    ensures next_value { lines_at t.now result.next ≡ behind_values (lines_at t.now at) }
    ensures at_le_next { (at ≤ result.next) × (result.next ≤ length t.now) }
{
    let mut next = at;
    let mut end = p;
    // From line to line: the first that is no value line ends it, and none is counted before.
    loop {
        let stop = sheets_read::end_of(t, next);
        if !sheets_read::is_value(t, next, stop) {
            return Flowed { next, end };
        }
        let from = next + 2;
        end = put_spelled(out, base, end, &t[from..stop]);
        next = stop + 1;
    }
}

// Column 65 to LF of P line n of the entry with this directory number.
fn put_owned(out: &mut [u8], at: usize, number: DirectoryNumber, n: ParameterLine) -> usize
    requires at_bound { at < 2 ^ 59 }
    requires number_bound { number.0 ≤ 9999999 }
    requires n_bound { n.0 ≤ 9999999 }
    ensures wrote { Wrote out.old at (owner_of number.0 ++ tail_of letter_p n.0) out.new result }
    ensures value { result ≡ at + 17 }
{
    let a = columns_emit::put(out, at, b' ');
    let b = columns_decimals::put_right(out, a, b' ', NUMBER_COLUMNS, number.0 as u64);
    lines::put_tail(out, b, PARAMETER, n.0 as usize)
}

// The same of so many lines, column 65 of the first of which is at q.
fn put_tails(out: &mut [u8], q: usize, number: DirectoryNumber, from: ParameterLine, lines: usize)
    requires q_bound { q ≤ 2 ^ 41 }
    requires number_bound { number.0 ≤ 9999999 }
    requires lines_bound { from.0 + lines ≤ 9999999 }
    ensures { out.new ≡ tailed out.old q (owner_of number.0) letter_p from.0 lines }
{
    let mut at = q;
    for i in 0..lines {
        put_owned(out, at, number, ParameterLine(from.0 + i as u32));
        at += LINE_BYTES;
    }
}

// The P lines, numbered from `from` on, of the entity of this type and directory number whose values stand on the sheet from `at` on.
pub fn put_block(
    out: &mut [u8],
    base: usize,
    t: &[u8],
    at: usize,
    typ: u32,
    number: DirectoryNumber,
    from: ParameterLine,
) -> Block
    requires { BlockHasRoom t.now at base typ number.0 from.0 }
    ensures out_after { out.new
        ≡ laid out.old base
        (joined (section letter_p from.0 (block_lines number.0 typ (items_at t.now at)))) }
    ensures lines_value { result.lines ≡ line_count parameter_columns (length (record_text typ (items_at t.now at))) }
    ensures next_value { lines_at t.now result.next ≡ behind_values (lines_at t.now at) }
    ensures at_le_next { (at ≤ result.next) × (result.next ≤ length t.now) }
{
    let v = Value::Whole {
        neg: false,
        size: typ,
    };
    let p = records_flow::put_piece(out, base, PARAMETER_COLUMNS, 0, b"", v, false);
    let f = put_values(out, base, t, at, p);
    let lines = text::close(out, base, PARAMETER_COLUMNS, f.end);
    put_tails(out, base + PARAMETER_COLUMNS, number, from, lines);
    Block {
        next: f.next,
        lines,
    }
}
