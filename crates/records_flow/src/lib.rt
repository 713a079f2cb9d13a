// The canonical flow: values written into the columns of a file's lines. With an empty buffer nothing is written, and the answer measures.
#![tactic(auto)]

ghost use Rattle.std.specs.Prelude.{◌≡◌, [], ◌∷◌, ◌++◌, ◌+◌, ◌*◌, ◌^◌, ◌≤◌, ◌<◌, length, replicate};
ghost use Rattle.columns.specs.Format.{line_columns, line_bytes};
ghost use Rattle.values.specs.Value.{item_of};
ghost use Rattle.values.specs.Writing.{front, chars};
ghost use Rattle.records.specs.Flow.{gap, delimiter, piece, line_count};
ghost use Rattle.records.specs.Reading.{Writable};
ghost use Rattle.records.specs.Written.{Put, Room, copied, piece_end};

use records::position::{column_of, index_of};
use values::Value;

// Writes b at position p of the text, if that stands in the file, and returns the next position.
pub fn put_char(out: &mut [u8], base: usize, w: usize, p: usize, b: u8) -> usize
    requires base_bound { base ≤ 2 ^ 40 }
    requires p_bound { p ≤ 2 ^ 41 }
    requires le_w { 1 ≤ w }
    requires w_le_line_columns { w ≤ line_columns }
    ensures put { Put base w out.old p (b ∷ []) out.new result }
    ensures value { result ≡ p + 1 }
{
    let next = p + 1;
    let i = index_of(base, w, p);
    if i < out.len() {
        out[i] = b;
    }
    next
}

// Writes all of s from position p on, character by character.
#[tactic(auto, using(records::proofs::Puts::puts))]
fn put_each(out: &mut [u8], base: usize, w: usize, p: usize, s: &[u8]) -> usize
    requires base_bound { base ≤ 2 ^ 40 }
    requires s_bound { p + length s.now ≤ 2 ^ 41 }
    requires le_w { 1 ≤ w }
    requires w_le_line_columns { w ≤ line_columns }
    ensures put { Put base w out.old p s.now out.new result }
    ensures value { result ≡ p + length s.now }
{
    let mut next = p;
    for b in s {
        next = put_char(out, base, w, next, *b);
    }
    next
}

// Writes all of s from position p on: on one line its characters stand side by side.
pub fn put_all(out: &mut [u8], base: usize, w: usize, p: usize, s: &[u8]) -> usize
    requires base_bound { base ≤ 2 ^ 40 }
    requires s_bound { p + length s.now ≤ 2 ^ 41 }
    requires le_w { 1 ≤ w }
    requires w_le_line_columns { w ≤ line_columns }
    ensures put { Put base w out.old p s.now out.new result }
    ensures value { result ≡ p + length s.now }
{
    let n = s.len();
    let j = column_of(w, p);
    if w < j + n {
        return put_each(out, base, w, p, s);
    }
    let next = p + n;
    let at = index_of(base, w, p);
    columns_emit::put_all(out, at, s);
    next
}

// Writes b count times, one by one.
#[tactic(auto, using(records::proofs::Puts::puts))]
fn put_times(out: &mut [u8], base: usize, w: usize, p: usize, b: u8, count: usize) -> usize
    requires base_bound { base ≤ 2 ^ 40 }
    requires count_bound { p + count ≤ 2 ^ 41 }
    requires le_w { 1 ≤ w }
    requires w_le_line_columns { w ≤ line_columns }
    ensures put { Put base w out.old p (replicate count b) out.new result }
    ensures value { result ≡ p + count }
{
    let mut next = p;
    for _ in 0..count {
        next = put_char(out, base, w, next, b);
    }
    next
}

// Writes b count times: on one line side by side.
pub fn put_run(out: &mut [u8], base: usize, w: usize, p: usize, b: u8, count: usize) -> usize
    requires base_bound { base ≤ 2 ^ 40 }
    requires count_bound { p + count ≤ 2 ^ 41 }
    requires le_w { 1 ≤ w }
    requires w_le_line_columns { w ≤ line_columns }
    ensures put { Put base w out.old p (replicate count b) out.new result }
    ensures value { result ≡ p + count }
{
    if count == 0 {
        return p;
    }
    let j = column_of(w, p);
    if w < j + count {
        return put_times(out, base, w, p, b, count);
    }
    let next = p + count;
    let at = index_of(base, w, p);
    columns_emit::put_run(out, at, b, count);
    next
}

// The blanks before n characters that have to stand on one line.
pub fn gap_of(w: usize, p: usize, n: usize) -> usize
    requires le_w { 1 ≤ w }
    requires w_le_line_columns { w ≤ line_columns }
    requires n_bound { n ≤ 2 ^ 40 }
    ensures { (result ≡ gap w p n) × (result ≤ line_columns) }
{
    let j = column_of(w, p);
    if j + n <= w { 0 } else { w - j }
}

fn delimiter_of(last: bool) -> u8
    ensures { result ≡ delimiter last }
{
    if last { b';' } else { b',' }
}

// A string's characters, which stand in src, and a delimiter.
fn put_tail(
    out: &mut [u8],
    base: usize,
    w: usize,
    p: usize,
    src: &[u8],
    v: Value,
    last: bool,
) -> usize
    requires base_bound { base ≤ 2 ^ 40 }
    requires p_bound { p ≤ 2 ^ 40 + 200 }
    requires le_w { 1 ≤ w }
    requires w_le_line_columns { w ≤ line_columns }
    requires writable { Writable (length src.now) v }
    ensures put { Put base w out.old p (chars src.now v ++ (delimiter last ∷ [])) out.new result }
    ensures lower_bound { (p < result) × (result ≤ p + 1000) }
{
    let x = delimiter_of(last);
    match v {
        Value::Default => put_char(out, base, w, p, x),
        Value::Whole { .. } => put_char(out, base, w, p, x),
        Value::Real { .. } => put_char(out, base, w, p, x),
        Value::Text { start, count } => {
            let end = start + count;
            let e = put_all(out, base, w, p, &src[start..end]);
            put_char(out, base, w, e, x)
        }
    }
}

// Writes a value at position p in its canonical form, with its delimiter; a string's characters stand in src.
pub fn put_piece(
    out: &mut [u8],
    base: usize,
    w: usize,
    p: usize,
    src: &[u8],
    v: Value,
    last: bool,
) -> usize
    requires room { Room base w p }
    requires writable { Writable (length src.now) v }
    ensures put { Put base w out.old p (piece w p (item_of src.now v) last) out.new result }
    ensures lower_bound { (p < result) × (result ≤ p + 1200) }
{
    let mut buf = [0u8; 64];
    let n = values_spell::put_front(&mut buf, 0, v);
    let g = gap_of(w, p, n + 1);
    let q = put_run(out, base, w, p, b' ', g);
    let e = put_all(out, base, w, q, &buf[..n]);
    put_tail(out, base, w, e, src, v, last)
}

fn copied_of(v: Value) -> usize
    ensures { result ≡ copied v }
{
    match v {
        Value::Default => 0,
        Value::Whole { .. } => 0,
        Value::Real { .. } => 0,
        Value::Text { count, .. } => count,
    }
}

// The position behind that piece.
pub fn piece_end(w: usize, p: usize, v: Value) -> usize
    requires p_bound { p ≤ 2 ^ 40 }
    requires le_w { 1 ≤ w }
    requires w_le_line_columns { w ≤ line_columns }
    requires v_bound { copied v ≤ 999 }
    ensures value { result ≡ piece_end w p v }
    ensures lower_bound { (p < result) × (result ≤ p + 1200) }
{
    let n = values_spell::front_len(v);
    let g = gap_of(w, p, n + 1);
    let k = copied_of(v);
    p + g + n + k + 1
}

// The same of a value that is spelled in n characters.
pub fn spelled_end(w: usize, p: usize, n: usize, v: Value) -> usize
    requires p_bound { p ≤ 2 ^ 40 }
    requires le_w { 1 ≤ w }
    requires w_le_line_columns { w ≤ line_columns }
    requires n_bound { n < 2 ^ 40 }
    requires n_value { n ≡ length (front v) + copied v }
    ensures value { result ≡ piece_end w p v }
    ensures upper_bound { result ≤ p + n + line_bytes }
{
    let k = copied_of(v);
    let g = gap_of(w, p, n - k + 1);
    p + g + n + 1
}

// How many lines of w columns p characters take.
pub fn line_count(w: usize, p: usize) -> usize
    requires le_w { 1 ≤ w }
    requires w_le_line_columns { w ≤ line_columns }
    requires p_bound { p ≤ 2 ^ 40 }
    ensures value { result ≡ line_count w p }
    ensures p_bound_2 { (p ≤ result * w) × (result * w < p + w) }
{
    (p + (w - 1)) / w
}
