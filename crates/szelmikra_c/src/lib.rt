// The archive for C and C++: the functions of `szelmikra` under the names that include/szelmikra.h declares, with their clauses.
#![tactic(auto)]

ghost use Rattle.std.specs.Prelude.{◌≡◌, length};
ghost use Rattle.model.specs.Read.{reads};
ghost use Rattle.model.specs.Write.{writes};
ghost use Rattle.desk.specs.Answers.{answer_of, left_in};

use desk::Answer;

// Reads a file to its sheet.
#[unsafe(no_mangle)]
pub extern "C" fn szelmikra_read(list: u64, file: &[u8], sheet: &mut [u8]) -> Answer
    ensures value { result ≡ answer_of (length sheet.old) (reads list file.now) }
    ensures sheet_after { sheet.new ≡ left_in sheet.old (reads list file.now) }
{
    szelmikra::szelmikra_read(list, file, sheet)
}

// Writes a sheet to its canonical file.
#[unsafe(no_mangle)]
pub extern "C" fn szelmikra_write(list: u64, sheet: &[u8], file: &mut [u8]) -> Answer
    ensures value { result ≡ answer_of (length file.old) (writes list sheet.now) }
    ensures file_after { file.new ≡ left_in file.old (writes list sheet.now) }
{
    szelmikra::szelmikra_write(list, sheet, file)
}
