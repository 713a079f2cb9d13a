// The values of a record, read where they stand in the file: the first w columns of so many lines, the first of them at base.
#![tactic(auto)]

ghost use Rattle.std.specs.Prelude.{◌≡◌, ◌+◌, ◌-◌, ◌*◌, ◌≤◌, ◌<◌, get_or, drop};
ghost use Rattle.columns.specs.Columns.{text_of};
ghost use Rattle.values.specs.Reading.{Within};
ghost use Rattle.records.specs.Record.{blanks, mark, next_at, found, beyond, plain, headed, by_next, value_at, values_at};
ghost use Rattle.records.specs.Reading.{Stands, place, Sane, kept_after, checked, SaneCheck};

use columns::Fault;
use records::position::{column_of, index_of};
use records::{Check, Found, Got, Misspelt, Next};
use values::{Head, Number, Token, Value, is_missing};

// The character at position p of the text; 0 past its end.
pub fn char_at(file: &[u8], base: usize, w: usize, lines: usize, p: usize) -> u8
    requires { Stands file.now base w lines }
    ensures { result ≡ get_or (text_of file.now base w lines) p 0 }
{
    if p < lines * w {
        let i = index_of(base, w, p);
        file[i]
    } else {
        0
    }
}

// The first position from p on that is no blank, or the text's length.
pub fn behind_blanks(file: &[u8], base: usize, w: usize, lines: usize, p: usize) -> usize
    requires stands { Stands file.now base w lines }
    requires p_bound { p ≤ lines * w }
    ensures value { result ≡ p + blanks (drop p (text_of file.now base w lines)) }
    ensures lower_bound { (p ≤ result) × (result ≤ lines * w) }
{
    for q in p..lines * w {
        if char_at(file, base, w, lines, q) != b' ' {
            return q;
        }
    }
    lines * w
}

fn mark_of(c: u8, d: u8, x: u8, q: usize) -> Next
    ensures { result ≡ mark c d x q }
{
    if x == c {
        return Next::Delimiter { at: q, last: false };
    }
    if x == d {
        return Next::Delimiter { at: q, last: true };
    }
    Next::Other { at: q }
}

// What stands behind the blanks from p on; mostly there are none.
fn next_at(file: &[u8], base: usize, w: usize, lines: usize, c: u8, d: u8, p: usize) -> Next
    requires stands { Stands file.now base w lines }
    requires p_bound { p ≤ lines * w }
    ensures { (result ≡ next_at c d (text_of file.now base w lines) p) × (place result ≤ lines * w) }
{
    let x = char_at(file, base, w, lines, p);
    if x != b' ' {
        return mark_of(c, d, x, p);
    }
    let q = behind_blanks(file, base, w, lines, p + 1);
    let y = char_at(file, base, w, lines, q);
    mark_of(c, d, y, q)
}

fn found_of(v: Value, s: usize, n: Next) -> Got
    requires { place n ≤ 16000000 }
    ensures { result ≡ found v s n }
{
    match n {
        Next::Delimiter { at, last } => Ok(Found {
            value: v,
            start: s,
            next: at + 1,
            last,
        }),
        Next::Other { at } => Err(Misspelt {
            fault: Fault::Spelling,
            start: s,
            at,
        }),
    }
}

fn beyond_of(s: usize, n: Next) -> Got
    ensures { result ≡ beyond s n }
{
    match n {
        Next::Delimiter { at, .. } => Err(Misspelt {
            fault: Fault::Limit,
            start: s,
            at,
        }),
        Next::Other { at } => Err(Misspelt {
            fault: Fault::Spelling,
            start: s,
            at,
        }),
    }
}

fn plain_of(s: usize, end: usize, n: Next, k: Number) -> Got
    requires { place n ≤ 16000000 }
    ensures { result ≡ plain s end n k }
{
    match k {
        Number::Whole { neg, size } => found_of(Value::Whole { neg, size }, s, n),
        Number::Real {
            neg,
            m,
            eneg,
            e,
            double,
        } => found_of(
            Value::Real {
                neg,
                m,
                eneg,
                e,
                double,
            },
            s,
            n,
        ),
        Number::Beyond => beyond_of(s, n),
        Number::Bad => Err(Misspelt {
            fault: Fault::Spelling,
            start: s,
            at: end,
        }),
    }
}

// A number that starts at s.
fn plain_at(
    file: &[u8],
    base: usize,
    w: usize,
    lines: usize,
    c: u8,
    d: u8,
    s: usize,
    k: Token,
) -> Got
    requires stands { Stands file.now base w lines }
    requires s_bound { s ≤ lines * w }
    requires within { Within (lines * w - s) (Head.Plain k) }
    ensures { result ≡ headed c d (text_of file.now base w lines) s (Head.Plain k) }
{
    let end = s + k.len;
    let n = next_at(file, base, w, lines, c, d, end);
    let x = k.number;
    plain_of(s, end, n, x)
}

// A string that starts at s.
fn count_at(
    file: &[u8],
    base: usize,
    w: usize,
    lines: usize,
    c: u8,
    d: u8,
    s: usize,
    count: usize,
    len: usize,
) -> Got
    requires stands { Stands file.now base w lines }
    requires s_bound { s ≤ lines * w }
    requires within { Within (lines * w - s) (Head.Count count len) }
    ensures { result ≡ headed c d (text_of file.now base w lines) s (Head.Count count len) }
{
    let at = s + len;
    let end = at + count;
    if lines * w < end {
        return Err(Misspelt {
            fault: Fault::Spelling,
            start: s,
            at: lines * w,
        });
    }
    let behind = next_at(file, base, w, lines, c, d, end);
    found_of(Value::Text { start: at, count }, s, behind)
}

// The value that starts at s: its head stands on one line, and the rest of a line is a part of the file.
fn given_at(file: &[u8], base: usize, w: usize, lines: usize, c: u8, d: u8, s: usize) -> Got
    requires stands { Stands file.now base w lines }
    requires s_bound { s ≤ lines * w }
    ensures { result ≡ by_next w c d (text_of file.now base w lines) (Next.Other s) }
{
    if lines * w <= s {
        return Err(Misspelt {
            fault: Fault::Spelling,
            start: s,
            at: s,
        });
    }
    let a = index_of(base, w, s);
    let e = a + (w - column_of(w, s));
    let h = values_read::head_of(&file[a..e]);
    match h {
        Head::Count { count, len } => count_at(file, base, w, lines, c, d, s, count, len),
        Head::Plain(k) => plain_at(file, base, w, lines, c, d, s, k),
    }
}

// The value from position p of a record's text on.
pub fn value_at(file: &[u8], base: usize, w: usize, lines: usize, c: u8, d: u8, p: usize) -> Got
    requires stands { Stands file.now base w lines }
    requires p_bound { p ≤ lines * w }
    requires c_nonzero { 0 < c }
    requires d_nonzero { 0 < d }
    ensures value { result ≡ value_at w c d (text_of file.now base w lines) p }
    ensures sane { Sane p (lines * w) result }
{
    let n = next_at(file, base, w, lines, c, d, p);
    match n {
        Next::Delimiter { at, last } => Ok(Found {
            value: Value::Default,
            start: at,
            next: at + 1,
            last,
        }),
        Next::Other { at } => given_at(file, base, w, lines, c, d, at),
    }
}

// Behind value n, k of the values before it kept: how many are kept now.
fn kept_after(v: Value, k: usize, n: usize) -> usize
    requires { k ≤ n }
    ensures { (result ≡ kept_after v k n) × (result ≤ n) }
{
    if is_missing(v) { k } else { n }
}

// All values from position p of a record's text on.
pub fn check_from(
    file: &[u8],
    base: usize,
    w: usize,
    lines: usize,
    c: u8,
    d: u8,
    p: usize,
) -> Result<Check, Misspelt>
    requires stands { Stands file.now base w lines }
    requires p_bound { p ≤ lines * w }
    requires c_nonzero { 0 < c }
    requires d_nonzero { 0 < d }
    ensures value { result ≡ checked (values_at w c d (text_of file.now base w lines) p) }
    ensures sane_check { SaneCheck p (lines * w) result }
{
    let mut q = p;
    let mut n: usize = 0;
    let mut kept: usize = 0;
    // From value to value: the last says that it is.
    loop {
        let Found {
            value,
            next,
            last,
            ..
        } = value_at(file, base, w, lines, c, d, q)?;
        n += 1;
        kept = kept_after(value, kept, n);
        if last {
            return Ok(Check {
                count: n,
                kept,
                end: next,
            });
        }
        q = next;
    }
}
