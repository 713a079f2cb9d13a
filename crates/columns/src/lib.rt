// The ground floor: the refusals of document 01, its three kinds of numbers that count lines or entries, fixed columns. `look` asks of
// columns what stands there. Crate `columns_fixed` reads numbers in fixed columns, `columns_emit` lays bytes, `columns_decimals` numbers.
#![tactic(auto)]

pub mod format;
pub mod look;

ghost use Rattle.std.specs.Prelude.{◌≡◌, ◌^◌, ◌<◌};
ghost use Rattle.columns.specs.Refusal.{number};

// Why an input is refused, in the order of the paper's table; specs/Refusal.antt gives the number of each.
#[derive(Clone, Copy)]
pub enum Fault {
    ListOrLength,
    Byte,
    Section,
    Sequence,
    Terminate,
    Spelling,
    Limit,
    Global,
    Directory,
    Reference,
    Ownership,
    FirstValue,
    Macro,
    Layout,
    LayoutReference,
    Room,
    SheetLine,
    Mark,
    TooLong,
}

// The paper's number of a refusal.
impl From<Fault> for u64 {
    ghost from_gives = { λ fault n. n ≡ number fault };

    fn from(fault: Fault) -> u64 {
        match fault {
            Fault::ListOrLength => 1,
            Fault::Byte => 2,
            Fault::Section => 3,
            Fault::Sequence => 4,
            Fault::Terminate => 5,
            Fault::Spelling => 6,
            Fault::Limit => 7,
            Fault::Global => 8,
            Fault::Directory => 9,
            Fault::Reference => 10,
            Fault::Ownership => 11,
            Fault::FirstValue => 12,
            Fault::Macro => 13,
            Fault::Layout => 14,
            Fault::LayoutReference => 15,
            Fault::Room => 16,
            Fault::SheetLine => 17,
            Fault::Mark => 18,
            Fault::TooLong => 19,
        }
    }
}

// Why an input is refused, and at which of its lines.
#[derive(Clone, Copy)]
pub struct Refusal<L> {
    pub fault: Fault,
    pub line: L,
}

// Directory numbers, parameter line numbers and file line numbers are counted apart; so are the lines of a sheet.
#[derive(Clone, Copy, PartialEq, Eq, PartialOrd, Ord)]
pub struct DirectoryNumber(pub u32);

#[derive(Clone, Copy)]
pub struct ParameterLine(pub u32);

#[derive(Clone, Copy)]
pub struct FileLine(pub usize);

#[derive(Clone, Copy)]
pub struct SheetLine(pub usize);

// A number with its sign: a sign and a size. Nought has no sign.
#[derive(Clone, Copy)]
pub struct Signed {
    pub neg: bool,
    pub size: u32,
}

// A count or a number of the file as a length: a function of our own, since std has no `From<u32>` for `usize`.
pub fn wide(x: u32) -> usize
    ensures { (result ≡ x) × (result < 2 ^ 32) }
{
    x as usize
}

// A byte as a number of 32 bits: a digit that is added up. `demands` has a theorem on this function, so digits are read by it.
pub fn byte_u32(b: u8) -> u32
    ensures { (result ≡ b) × (result < 256) }
{
    u32::from(b)
}

// The same of 64 bits, for numbers of many digits.
pub fn byte_u64(b: u8) -> u64
    ensures { (result ≡ b) × (result < 256) }
{
    u64::from(b)
}
