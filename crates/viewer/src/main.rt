// Prints the table of the file at standard input, slot by slot, and the names for the directory numbers 0 to 6.
#![tactic(auto)]

ghost use Rattle.std.specs.Prelude.{◌≡◌, length};
ghost use Rattle.desk.specs.Answers.{listed_in, slots_left};
ghost use Rattle.viewer.specs.Unused.{nines};

use columns::format::MOST_LIST;
use columns::{DirectoryNumber, ParameterLine};
use desk::Record;
use directory::{Attribute, Entry};
use std::io;
use std::io::Read;

// So much of standard input is looked at: of a longer file a part that no file is.
const MOST_INPUT: usize = 65536;

// The slots that are lent, and how many names are asked for.
const SLOTS: usize = 4;

const NAMES: u32 = 7;

// A slot that no entry has: it is seen where a slot stays.
fn unused() -> Record
    ensures { result ≡ nines }
{
    let none = DirectoryNumber(9);
    Record {
        known: false,
        number: none,
        entry: Entry {
            entity: 9,
            form: 9,
            structure: none,
            font: Attribute::Number(9),
            level: Attribute::Number(9),
            view: none,
            matrix: none,
            display: none,
            status: 9,
            weight: 9,
            colour: Attribute::Number(9),
            subscript: 9,
        },
        label: *b"99999999",
        pointer: ParameterLine(9),
        lines: 9,
    }
}

// The rows with the table of a file in them.
fn listed(list: u64, file: &[u8], rows: [Record; SLOTS]) -> [Record; SLOTS]
    ensures { result ≡ slots_left rows (listed_in list file.now) }
{
    let mut table = rows;
    desk_table::directory(list, file, &mut table);
    table
}

// Words of this program alone: the crate of `Attribute` prints nothing, so it has no Display.
fn print_colour(rt: &impl Print, colour: Attribute) -> io::Result<()> {
    match colour {
        Attribute::Number(n) => print!(rt; "{n}"),
        Attribute::Reference(d) => print!(rt; "entry {}", d.0),
    }
}

// A number, and what parts it from the next.
fn print_part(rt: &impl Print, n: u32) -> io::Result<()> {
    print!(rt; "{n} ")
}

// As an entry line begins.
fn print_mark(rt: &impl Print, known: bool) -> io::Result<()> {
    if known {
        rt.print("E ")
    } else {
        rt.print("U ")
    }
}

// Bytes in brackets: nothing says that they are text.
fn print_bytes(rt: &impl Print, bytes: &[u8]) -> io::Result<()> {
    rt.print("[")?;
    rt.write_all(bytes)?;
    rt.print("]")
}

fn print_slot(rt: &impl Print, slot: Record) -> io::Result<()> {
    let entry = slot.entry;
    let label = slot.label;
    print_mark(rt, slot.known)?;
    print_part(rt, slot.number.0)?;
    print_part(rt, entry.entity)?;
    print_part(rt, entry.form)?;
    print_part(rt, slot.pointer.0)?;
    print_part(rt, slot.lines)?;
    print_bytes(rt, &label)?;
    rt.print(" ")?;
    print_colour(rt, entry.colour)?;
    rt.print("\n")
}

fn print_name<'f, 's: 'f>(
    rt: &impl Print,
    file: &'f [u8],
    stand_in: &'s [u8],
    number: DirectoryNumber,
) -> io::Result<()> {
    let name = desk_name::name(MOST_LIST, file, stand_in, number);
    print_part(rt, number.0)?;
    print_bytes(rt, name)?;
    rt.print("\n")
}

fn main(rt: HostRuntime) -> io::Result<()> {
    let mut buffer = [0u8; MOST_INPUT];
    let read = io::copy(
        &mut rt.stdin().take(MOST_INPUT as u64),
        &mut buffer.as_mut_slice(),
    )?;
    let file = &buffer[..(read as usize).min(MOST_INPUT)];
    let empty = unused();
    for slot in listed(MOST_LIST, file, [empty; SLOTS]) {
        print_slot(&rt, slot)?;
    }
    for number in 0..NAMES {
        print_name(&rt, file, b"no name", DirectoryNumber(number))?;
    }
    Ok(())
}
