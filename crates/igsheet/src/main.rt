// Prints the sheet of the file at standard input, or why it has none.
#![tactic(auto)]

use std::io;
use std::io::Read;

// A file that is too long is seen to be so: this holds more than the most that is read.
const BUFFER: usize = 65536;

fn main(rt: HostRuntime) -> io::Result<()> {
    let mut file = [0u8; BUFFER];
    let read = io::copy(
        &mut rt.stdin().take(BUFFER as u64),
        &mut file.as_mut_slice(),
    )?;
    let n = (read as usize).min(BUFFER);
    let mut out = [0u8; BUFFER];
    let m = desk_show::show(&file[..n], &mut out);
    rt.write_all(&out[..m])
}
