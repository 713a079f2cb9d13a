// The plain numbers of a sheet, read strictly in one pass over their bytes.
#![tactic(auto)]

ghost use Rattle.std.specs.Prelude.{◌≡◌, true, false, ◌+◌, ◌-◌, ◌≤◌, ◌<◌, length};
ghost use Rattle.columns.specs.Columns.{columns};
ghost use Rattle.columns.specs.Letters.{tab};
ghost use Rattle.sheets.specs.Line.{run};
ghost use Rattle.sheets.specs.Folds.{unread, digit_after, size_from, minus_of, signed_fold, status_from, entry_fold};

use columns::format::MOST_INTEGER_WIDE;
use columns::{Signed, byte_u32, byte_u64};

// Past the largest number one says that the text is misspelt, and one that nothing was read yet.
const MISSPELT: u64 = 2147483648;

pub const UNREAD: u64 = 2147483649;

// A number of an entry line, and where the tab behind it stands: at the line's end, if there is none.
#[derive(Clone, Copy)]
pub struct Tabbed {
    pub number: Signed,
    pub end: usize,
}

// One more byte of a number.
fn add_digit(n: u64, b: u8) -> u64
    requires { n ≤ unread }
    ensures value { result ≡ digit_after n b }
    ensures upper_bound { result ≤ unread }
{
    if b < b'0' {
        return MISSPELT;
    }
    if b'9' < b {
        return MISSPELT;
    }
    if n == UNREAD {
        return byte_u64(b - b'0');
    }
    if n == 0 {
        return MISSPELT;
    }
    let m = n * 10 + byte_u64(b - b'0');
    if MOST_INTEGER_WIDE < m {
        return MISSPELT;
    }
    m
}

// The number that the bytes from `at` up to `end` make of n.
#[tactic(auto, using(sheets::proofs::Plains::sizes), unfolding(columns::specs::Columns::columns))]
pub fn size_at(s: &[u8], n: u64, at: usize, end: usize) -> u64
    requires n_le_unread { n ≤ unread }
    requires at_le_end { at ≤ end }
    requires end_in_bounds { end ≤ length s.now }
    ensures value { result ≡ size_from n (columns s.now at end) }
    ensures upper_bound { result ≤ unread }
{
    let mut v = n;
    for b in &s[at..end] {
        v = add_digit(v, *b);
    }
    v
}

// Minus n; minus nought is misspelt.
#[tactic(auto, using(sheets::proofs::Plains::numbers))]
fn minus_of(n: u64) -> Signed
    requires { n ≤ unread }
    ensures { result ≡ minus_of n }
{
    if 0 < n {
        return Signed {
            neg: true,
            size: n as u32,
        };
    }
    Signed {
        neg: true,
        size: MISSPELT as u32,
    }
}

// The number, with a minus or without, that stands from `at` up to `end`.
fn signed_at(s: &[u8], at: usize, end: usize) -> Signed
    requires at_le_end { at ≤ end }
    requires end_in_bounds { end ≤ length s.now }
    ensures { result ≡ signed_fold (columns s.now at end) }
{
    if end <= at {
        return Signed {
            neg: false,
            size: UNREAD as u32,
        };
    }
    if s[at] == b'-' {
        let n = size_at(s, UNREAD, at + 1, end);
        return minus_of(n);
    }
    let n = size_at(s, UNREAD, at, end);
    Signed {
        neg: false,
        size: n as u32,
    }
}

// The status whose eight digits, behind a 1, are n.
fn status_of(n: u64) -> Signed
    ensures { result ≡ status_from n }
{
    if n < 100000000 {
        return Signed {
            neg: false,
            size: MISSPELT as u32,
        };
    }
    if n < 200000000 {
        return Signed {
            neg: false,
            size: (n - 100000000) as u32,
        };
    }
    Signed {
        neg: false,
        size: MISSPELT as u32,
    }
}

// A number of an entry line that `left` others follow.
pub fn num_at(s: &[u8], left: usize, at: usize, end: usize) -> Signed
    requires at_le_end { at ≤ end }
    requires end_in_bounds { end ≤ length s.now }
    ensures { result ≡ entry_fold left (columns s.now at end) }
{
    if left == 3 {
        let n = size_at(s, 1, at, end);
        return status_of(n);
    }
    signed_at(s, at, end)
}

// Where the first c from `at` up to `end` stands, or `end`, byte by byte.
fn find_each(s: &[u8], c: u8, at: usize, end: usize) -> usize
    requires at_le_end { at ≤ end }
    requires end_in_bounds { end ≤ length s.now }
    ensures value { result ≡ at + run c (columns s.now at end) }
    ensures lower_bound { (at ≤ result) × (result ≤ end) }
{
    match s[at..end].iter().position(|b| *b == c) {
        Some(k) => at + k,
        None => end,
    }
}

// Where the first c from `at` up to `end` stands, or `end`: four bytes a turn, so that the end is asked for less often. A loop by hand:
// it is in every line of a sheet, and its fields are so short that a search of std or of wider words costs more to set up than it saves.
pub fn find(s: &[u8], c: u8, at: usize, end: usize) -> usize
    requires at_le_end { at ≤ end }
    requires end_in_bounds { end ≤ length s.now }
    ensures value { result ≡ at + run c (columns s.now at end) }
    ensures lower_bound { (at ≤ result) × (result ≤ end) }
{
    let mut i = at;
    while 4 <= end - i {
        if s[i] == c {
            return i;
        }
        if s[i + 1] == c {
            return i + 1;
        }
        if s[i + 2] == c {
            return i + 2;
        }
        if s[i + 3] == c {
            return i + 3;
        }
        i += 4;
    }
    find_each(s, c, i, end)
}

// The number of an entry line from `at` on, that `left` others follow, and its tab: found first.
fn tabbed_by(s: &[u8], left: usize, at: usize, end: usize) -> Tabbed
    requires at_le_end { at ≤ end }
    requires end_in_bounds { end ≤ length s.now }
    ensures end_value { result.end ≡ at + run tab (columns s.now at end) }
    ensures number_value { result.number ≡ entry_fold left (columns s.now at result.end) }
    ensures at_le_end_2 { (at ≤ result.end) × (result.end ≤ end) }
{
    let tab = find(s, b'\t', at, end);
    let number = num_at(s, left, at, tab);
    Tabbed { number, end: tab }
}

// The number of an entry line from `at` on, that `left` others follow, and its tab. Most are one digit, and no status.
pub fn tabbed_at(s: &[u8], left: usize, at: usize, end: usize) -> Tabbed
    requires at_le_end { at ≤ end }
    requires end_in_bounds { end ≤ length s.now }
    ensures end_value { result.end ≡ at + run tab (columns s.now at end) }
    ensures number_value { result.number ≡ entry_fold left (columns s.now at result.end) }
    ensures at_le_end_2 { (at ≤ result.end) × (result.end ≤ end) }
{
    if end - at < 2 {
        return tabbed_by(s, left, at, end);
    }
    if s[at + 1] != b'\t' {
        return tabbed_by(s, left, at, end);
    }
    if left == 3 {
        return tabbed_by(s, left, at, end);
    }
    let b = s[at];
    if b < b'0' {
        return tabbed_by(s, left, at, end);
    }
    if b'9' < b {
        return tabbed_by(s, left, at, end);
    }
    let number = Signed {
        neg: false,
        size: byte_u32(b - b'0'),
    };
    Tabbed {
        number,
        end: at + 1,
    }
}
