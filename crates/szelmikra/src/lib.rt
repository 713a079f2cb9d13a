// What C and C++ call, for the crates of Rattle; crate `szelmikra_c` exports it. Each function is the proved one of `read_file` or
// `write_sheet` under a plain name.
#![tactic(auto)]

ghost use Rattle.std.specs.Prelude.{◌≡◌, length};
ghost use Rattle.model.specs.Read.{reads};
ghost use Rattle.model.specs.Write.{writes};
ghost use Rattle.desk.specs.Answers.{answer_of, left_in};

use desk::Answer;

// Reads a file to its sheet.
pub fn szelmikra_read(list: u64, file: &[u8], sheet: &mut [u8]) -> Answer
    ensures value { result ≡ answer_of (length sheet.old) (reads list file.now) }
    ensures sheet_after { sheet.new ≡ left_in sheet.old (reads list file.now) }
{
    read_file::read(list, file, sheet)
}

// Writes a sheet to its canonical file.
pub fn szelmikra_write(list: u64, sheet: &[u8], file: &mut [u8]) -> Answer
    ensures value { result ≡ answer_of (length file.old) (writes list sheet.now) }
    ensures file_after { file.new ≡ left_in file.old (writes list sheet.now) }
{
    write_sheet::write(list, sheet, file)
}
