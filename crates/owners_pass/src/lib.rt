// Which P line is whose, asked of a file: checks over names, pointers and line counts, each linear in the lines.
#![tactic(auto)]

ghost use Rattle.std.specs.Prelude.{◌≡◌, ◌+◌, ◌<◌, ◌≤◌};
ghost use Rattle.columns.specs.First.{first_not};
ghost use Rattle.cards.specs.Cards.{entries};
ghost use Rattle.cards.specs.Rules.{Holds};
ghost use Rattle.cards.specs.Shared.{file_line};
ghost use Rattle.owners.specs.Owners.{name_is};
ghost use Rattle.owners.specs.InFile.{owner_in, entry_in, line_in, owners_in, line_of, Small};

use cards::Counts;
use columns::{DirectoryNumber, FileLine, ParameterLine, wide};
use owners::{Owned, places};

// The first line from `from` on, of `count`, that does not name m.
fn run_end(
    file: &[u8],
    c: Counts,
    m: DirectoryNumber,
    from: ParameterLine,
    count: u32,
) -> ParameterLine
    requires holds { Holds file.now c }
    requires le_from { 1 ≤ from.0 }
    requires count_bound { from.0 + count ≤ c.p + 1 }
    ensures { result.0 ≡ first_not (name_is (owner_in file.now c) m.0) from.0 count }
{
    let end = from.0 + count;
    for k in from.0..end {
        let name = places::owner_at(file, c, ParameterLine(k));
        if name != m {
            return ParameterLine(k);
        }
    }
    ParameterLine(end)
}

// Whether entry i's range stays in P and every line in it names the entry. A range that passes is its entry's alone, so all of
// these looks together are as many as there are P lines.
fn entry_owns(file: &[u8], c: Counts, i: usize) -> bool
    requires holds { Holds file.now c }
    requires i_bound { i < entries c }
    ensures { result ≡ entry_in file.now c i }
{
    let from = places::from_at(file, c, i);
    let count = places::count_at(file, c, i);
    let most = wide(c.p) + 1;
    if from.0 < 1 {
        return false;
    }
    let behind = wide(from.0) + wide(count);
    if most < behind {
        return false;
    }
    let end = run_end(file, c, cards::entry_number(i), from, count);
    wide(end.0) == behind
}

// Whether P line k lies in the range of the entry that it names.
fn line_owned(file: &[u8], c: Counts, k: ParameterLine) -> bool
    requires holds { Holds file.now c }
    requires le_k { 1 ≤ k.0 }
    requires k_le_p { k.0 ≤ c.p }
    ensures { result ≡ line_in file.now c k.0 }
{
    let owner = places::owner_at(file, c, k);
    let m = wide(owner.0);
    let n = wide(c.d) / 2;
    if m % 2 != 1 {
        return false;
    }
    let i = m / 2;
    if n <= i {
        return false;
    }
    let from = places::from_at(file, c, i);
    let count = places::count_at(file, c, i);
    let line = wide(k.0);
    let start = wide(from.0);
    if line < start {
        return false;
    }
    line < start + wide(count)
}

fn first_entry(file: &[u8], c: Counts) -> usize
    requires { Holds file.now c }
    ensures { result ≡ first_not (entry_in file.now c) 0 (entries c) }
{
    let n = wide(c.d) / 2;
    for i in 0..n {
        if !entry_owns(file, c, i) {
            return i;
        }
    }
    n
}

fn first_line(file: &[u8], c: Counts) -> ParameterLine
    requires { Holds file.now c }
    ensures { result.0 ≡ first_not (line_in file.now c) 1 c.p }
{
    let end = c.p + 1;
    for k in 1..end {
        if !line_owned(file, c, ParameterLine(k)) {
            return ParameterLine(k);
        }
    }
    ParameterLine(end)
}

// Whether every P line of a file with these counts has its entry.
pub fn owners(file: &[u8], c: Counts) -> Owned
    requires { Holds file.now c }
    ensures value { result ≡ owners_in file.now c }
    ensures small { Small result }
{
    let n = wide(c.d) / 2;
    let i = first_entry(file, c);
    if i < n {
        return Owned::Entry(cards::entry_number(i));
    }
    let k = first_line(file, c);
    if k.0 <= c.p {
        return Owned::Line(k);
    }
    Owned::Everyone
}

// The file line of what was found: the entry's first D line, or the P line itself.
pub fn line_of(c: Counts, found: Owned) -> FileLine
    requires { Small found }
    ensures { result ≡ file_line (line_of c found) }
{
    match found {
        Owned::Everyone => FileLine(0),
        Owned::Entry(m) => FileLine(wide(c.s) + wide(c.g) + wide(m.0)),
        Owned::Line(k) => FileLine(wide(c.s) + wide(c.g) + wide(c.d) + wide(k.0)),
    }
}
