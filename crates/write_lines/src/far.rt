// The class of an entry of a sheet that has more entries than a file can have. The table then tells, for each of `PARTS` equal parts of
// the sheet's bytes, the number of the first entry that starts there or behind. Where it leads is a guess, of which nothing is proved
// but that it is a place in the sheet: the line that stands there shows its number, and only then counts (`class_shown`). So the
// contract does not hang on the table, and `table` counts off an entry that is not found. In a table that `write_check` filled none is
// missed. The part is found in sixteen looks at the table. In the part an entry is looked for where it would stand if all were equally
// long: then the first line looked at is the one. If it isn't, a second guess is made on the side of it where the entry must be; what is
// then left is halved down to 256 bytes, and these are walked over. What a look goes over to the next line is never gone over again, so
// that a look-up costs at most the bytes of one part and some looks more than its length can be halved, whatever the entries' lengths are.
ghost use Rattle.std.specs.Prelude.{◌≡◌, ◌+◌, ◌-◌, ◌*◌, ◌^◌, ◌≤◌, ◌<◌, length};
ghost use Rattle.write_lines.specs.Classes.{table_size, Tabled};
ghost use Rattle.write_lines.specs.Shown.{begins_entry, EntryAt, plain_at, plain_class, Shown};

use crate::table::PARTS;
use columns::format::MOST_INTEGER_WIDE;
use columns::{DirectoryNumber, byte_u32};
use references::NO_ENTRY;
use sheets_numbers::{UNREAD, find, size_at};

// What the table tells of part q, in four bytes.
fn told(table: &[u8], q: usize) -> DirectoryNumber
    requires q_bound { q < 16666 }
    requires table_len { length table.now ≡ table_size }
{
    let four = table[4 * q..].first_chunk().unwrap();
    DirectoryNumber(u32::from_le_bytes(*four))
}

// The last part before which no entry with a number above this one starts.
fn part_of(table: &[u8], number: DirectoryNumber) -> usize
    requires { length table.now ≡ table_size }
    ensures { result < 16665 }
{
    let (parts, _) = table.as_chunks();
    parts[1..PARTS].partition_point(|first| u32::from_le_bytes(*first) <= number.0)
}

// Whether a line that begins with b behind this byte is an entry's.
fn begins_entry(before: u8, b: u8) -> bool
    ensures { result ≡ begins_entry before b }
{
    if b == b'E' {
        return before == b'\n';
    }
    if b == b'U' {
        return before == b'\n';
    }
    false
}

// Where the first line at or behind `from` that begins as an entry's does starts, or `stop`.
fn entry_behind(t: &[u8], from: usize, stop: usize) -> usize
    requires from_le_stop { from ≤ stop }
    requires stop_in_bounds { stop ≤ length t.now }
    requires le_from { 1 ≤ from }
    ensures { (from ≤ result) × (result ≤ stop) }
{
    for at in from..stop {
        if begins_entry(t[at - 1], t[at]) {
            return at;
        }
    }
    stop
}

// The number that an entry's line shows, if it is no larger than one may be.
fn number_at(t: &[u8], at: usize) -> DirectoryNumber
    requires { at < length t.now }
{
    if t.len() - at < 2 {
        return DirectoryNumber(0);
    }
    let mut number = 0;
    for b in &t[at + 2..] {
        if *b < b'0' {
            return DirectoryNumber(number);
        }
        if 400000000 < number {
            return DirectoryNumber(number);
        }
        number = number * 10 + byte_u32(*b - b'0');
    }
    DirectoryNumber(number)
}

// The share that `some` of `all` have in so many bytes.
fn share(bytes: usize, all: usize, some: usize) -> usize
    requires some_lt_all { some < all }
    requires bytes_bound { 256 * bytes < 2 ^ 64 }
    ensures { result ≤ bytes }
{
    let each = 256 * bytes / all;
    each * some / 256
}

// Bytes of a sheet, with the number of the first entry that starts among them and that of the first behind them.
#[derive(Clone, Copy)]
struct Span {
    from: usize,
    stop: usize,
    first: DirectoryNumber,
    last: DirectoryNumber,
}

fn span_of(from: usize, stop: usize, first: DirectoryNumber, last: DirectoryNumber) -> Span
    ensures { (result.from ≡ from) × (result.stop ≡ stop) }
{
    Span {
        from,
        stop,
        first,
        last,
    }
}

// Where in a span the entry with this number stands if all that start in it are equally long.
fn guess(s: Span, number: DirectoryNumber) -> usize
    requires from_le_stop { s.from ≤ s.stop }
    requires from_bound { 256 * (s.stop - s.from) < 2 ^ 64 }
    ensures { (s.from ≤ result) × (result ≤ s.stop) }
{
    let first = s.first;
    let last = s.last;
    if number < first {
        return s.from;
    }
    if last <= number {
        return s.from;
    }
    let all = (last.0 - first.0) as usize;
    let some = (number.0 - first.0) as usize;
    s.from + share(s.stop - s.from, all, some)
}

// The side of the line behind the guess on which the entry with this number must be; it begins with that line if that is the one.
fn closer(t: &[u8], s: Span, number: DirectoryNumber) -> Span
    requires le_from { 1 ≤ s.from }
    requires from_le_stop { s.from ≤ s.stop }
    requires stop_in_bounds { s.stop ≤ length t.now }
    requires from_bound { 256 * (s.stop - s.from) < 2 ^ 64 }
    ensures { (s.from ≤ result.from) × (result.from ≤ result.stop) × (result.stop ≤ s.stop) }
{
    let from = s.from;
    let stop = s.stop;
    let first = s.first;
    let last = s.last;
    let place = guess(s, number);
    let found = entry_behind(t, place, stop);
    if found == stop {
        return span_of(from, place, first, last);
    }
    let shown = number_at(t, found);
    if number < shown {
        return span_of(from, place, first, shown);
    }
    span_of(found, stop, shown, last)
}

// A place from which on the entry with this number is to be found before `stop`, and near it, if it starts from `from` on.
fn near(t: &[u8], from: usize, stop: usize, number: DirectoryNumber) -> usize
    requires from_le_stop { from ≤ stop }
    requires stop_in_bounds { stop ≤ length t.now }
    requires le_from { 1 ≤ from }
    ensures { (from ≤ result) × (result ≤ stop) }
{
    // A library's search halves the indices of a slice; here the halves are bytes, and the place of an entry is found from each.
    let mut low = from;
    let mut high = stop;
    while 256 < high - low {
        let mid = low + (high - low) / 2;
        let found = entry_behind(t, mid, high);
        if found == high {
            high = mid;
            continue;
        }
        let shown = number_at(t, found);
        if number < shown {
            high = mid;
            continue;
        }
        low = found;
    }
    low
}

// Where the entry with this number starts, from `from` on, or `stop`.
fn walk_to(t: &[u8], from: usize, stop: usize, number: DirectoryNumber) -> usize
    requires from_le_stop { from ≤ stop }
    requires stop_in_bounds { stop ≤ length t.now }
    requires le_from { 1 ≤ from }
    ensures { (1 ≤ result) × (result ≤ stop) }
{
    // From entry to entry: how far a turn goes is found on it, so that no range gives the places.
    let mut at = entry_behind(t, from, stop);
    while at < stop {
        let shown = number_at(t, at);
        if number <= shown {
            return at;
        }
        at = entry_behind(t, at + 1, stop);
    }
    stop
}

// Where the entry with this number starts in a span, or its end: two guesses, then halves.
fn search(t: &[u8], s: Span, number: DirectoryNumber) -> usize
    requires le_from { 1 ≤ s.from }
    requires from_le_stop { s.from ≤ s.stop }
    requires stop_in_bounds { s.stop ≤ length t.now }
    requires from_bound { 256 * (s.stop - s.from) < 2 ^ 64 }
    ensures { (1 ≤ result) × (result ≤ s.stop) }
{
    let once = closer(t, s, number);
    let first = once.first;
    if first == number {
        return once.from;
    }
    let twice = closer(t, once, number);
    let first = twice.first;
    if first == number {
        return twice.from;
    }
    let low = near(t, twice.from, twice.stop, number);
    walk_to(t, low, twice.stop, number)
}

// Where a part ends that starts at `from`.
fn part_end(from: usize, part: usize, size: usize) -> usize
    requires { from ≤ size }
    ensures { (from ≤ result) × (result ≤ size) × (result ≤ from + part) }
{
    if size - from < part {
        return size;
    }
    from + part
}

// Where the table leads for this number.
fn seek(table: &[u8], t: &[u8], number: DirectoryNumber) -> usize
    requires table_len { length table.now ≡ table_size }
    requires in_bounds { 1 ≤ length t.now }
    ensures { (1 ≤ result) × (result ≤ length t.now) }
{
    let size = t.len();
    let part = size / PARTS + 1;
    let q = part_of(table, number);
    let from = q * part + 1;
    if size <= from {
        return size;
    }
    let stop = part_end(from, part, size);
    let first = told(table, q);
    let last = told(table, q + 1);
    search(t, span_of(from, stop, first, last), number)
}

// The class of the entry whose type stands from `at` on, if that has no sign: no rule lets one pass that has.
fn class_typed(t: &[u8], at: usize) -> u8
    requires { at ≤ length t.now }
    ensures { result ≡ plain_class (plain_at t.now at) }
{
    let tab = find(t, b'\t', at, t.len());
    let typ = size_at(t, UNREAD, at, tab);
    if MOST_INTEGER_WIDE < typ {
        return NO_ENTRY;
    }
    references::class_of(typ as u32)
}

// The class of the entry whose line begins at `at`, if it has this number: the line shows its number first, then its type. No more of it is
// read: the sheet is known to be good.
fn class_if(t: &[u8], at: usize, number: DirectoryNumber) -> u8
    requires { EntryAt t.now at }
    ensures { Shown t.now number.0 result }
{
    let size = t.len();
    let tab = find(t, b'\t', at + 2, size);
    if tab == size {
        return NO_ENTRY;
    }
    let shown = size_at(t, UNREAD, at + 2, tab);
    if shown != number.0 as u64 {
        return NO_ENTRY;
    }
    class_typed(t, tab + 1)
}

// The class of the entry with this number, if it starts at `at`.
fn class_shown(classes: &[u8], n: usize, t: &[u8], at: usize, number: DirectoryNumber) -> u8
    requires tabled { Tabled classes.now n t.now }
    requires le_at { 1 ≤ at }
    requires at_in_bounds { at ≤ length t.now }
    ensures { Shown t.now number.0 result }
{
    if t.len() - at < 2 {
        return NO_ENTRY;
    }
    if begins_entry(t[at - 1], t[at]) {
        return class_if(t, at, number);
    }
    NO_ENTRY
}

// The class of the entry with this number where the table leads, if it is there.
pub fn class_near(classes: &[u8], n: usize, t: &[u8], number: DirectoryNumber) -> u8
    requires { Tabled classes.now n t.now }
    ensures { Shown t.now number.0 result }
{
    if t.len() == 0 {
        return NO_ENTRY;
    }
    let at = seek(classes, t, number);
    class_shown(classes, n, t, at, number)
}
