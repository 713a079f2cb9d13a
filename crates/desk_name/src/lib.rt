// The name that a viewer shows for an entry: its label columns where they stand in the file, or the stand-in where those are blank.
#![tactic(auto)]

ghost use Rattle.std.specs.Prelude.{◌≡◌, ◌<◌, length};
ghost use Rattle.read_passes.specs.Ready.{Ready};
ghost use Rattle.desk.specs.Answers.{shown};
ghost use Rattle.desk_name.specs.Finding.{name_with, found_of, Inside};
ghost use Rattle.desk_name.specs.Names.{Shows};

use cards::Counts;
use columns::format::FIELD_COLUMNS;
use columns::{DirectoryNumber, look, wide};

// What a directory number finds: a label and where it starts, a blank one, or no entry.
#[derive(Clone, Copy)]
enum Found {
    Label(usize),
    Blank,
    Nobody,
}

// In a file with these counts: a directory number names an entry if it is odd and in the file.
fn in_directory(file: &[u8], c: Counts, number: DirectoryNumber) -> Found
    requires { Ready file.now c }
    ensures value { result ≡ found_of (name_with file.now number.0 c) }
    ensures inside { Inside (length file.now) result }
{
    let n = wide(number.0);
    if n % 2 != 1 {
        return Found::Nobody;
    }
    let i = n / 2;
    if wide(c.d) / 2 <= i {
        return Found::Nobody;
    }
    let k = cards::entry_line(c, i);
    let at = directory_read::label_at(k);
    if look::is_blank(file, at, at + FIELD_COLUMNS) {
        return Found::Blank;
    }
    Found::Label(at)
}

// Under a list: a file that reading refuses has no names.
fn looked_up(list: u64, file: &[u8], number: DirectoryNumber) -> Found
    ensures value { result ≡ found_of (shown list file.now number.0) }
    ensures inside { Inside (length file.now) result }
{
    let told = read_check::check(list, file);
    match told {
        Err(_) => Found::Nobody,
        Ok(before) => in_directory(file, before.counts, number),
    }
}

// A slice that outlives another, for as long as that one.
fn shorter<'f, 's: 'f>(file: &'f [u8], stand_in: &'s [u8]) -> &'f [u8]
    ensures { result ≡ stand_in.entry }
{
    stand_in
}

// The part to show. Nobody's name is the empty part at the stand-in's start.
pub fn name<'f, 's: 'f>(
    list: u64,
    file: &'f [u8],
    stand_in: &'s [u8],
    number: DirectoryNumber,
) -> &'f [u8]
    ensures { Shows file.entry stand_in.entry (shown list file.now number.0) result }
{
    let there = looked_up(list, file, number);
    match there {
        Found::Nobody => {
            let none = &stand_in[..0];
            shorter(file, none)
        }
        Found::Blank => shorter(file, stand_in),
        Found::Label(at) => &file[at..at + FIELD_COLUMNS],
    }
}
