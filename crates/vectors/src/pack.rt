// A pack of vectors: for each seven numbers of eight digits (0 to read and 1 to write; list; number and place of the answer; how long its
// name, its input and its expected output are), an LF, and those three.
ghost use Rattle.std.specs.Prelude.{◌≡◌, ◌+◌, ◌^◌, ◌≤◌, ◌<◌, length};
ghost use Rattle.vectors.specs.Packs.{number_at, vector_at, Lies};

use crate::Packed;
use columns::wide;
use columns_fixed::read_field;

// Seven numbers and an LF.
const HEAD: usize = 57;

// The number in the eight columns from `at` on; what is no number counts as 0.
fn number_at(p: &[u8], at: usize) -> u32
    requires { at + 8 ≤ length p.now }
    ensures { result ≡ number_at p.now at }
{
    read_field(p, at, at + 8).unwrap_or(0)
}

// The same as a length.
fn length_at(p: &[u8], at: usize) -> usize
    requires { at + 8 ≤ length p.now }
    ensures { (result ≡ number_at p.now at) × (result < 2 ^ 32) }
{
    let n = number_at(p, at);
    wide(n)
}

// The vector from `at` on, unless the pack is broken there.
pub fn vector_at(p: &[u8], at: usize) -> Option<Packed>
    requires { at ≤ length p.now }
    ensures value { result ≡ vector_at p.now at }
    ensures lies { Lies at (length p.now) result }
{
    let n = p.len();
    if n - at < HEAD {
        return None;
    }
    let op = number_at(p, at) as u64;
    let list = number_at(p, at + 8) as u64;
    let number = number_at(p, at + 16) as u64;
    let place = number_at(p, at + 24) as u64;
    let name = at + HEAD;
    let input = name + length_at(p, at + 32);
    let output = input + length_at(p, at + 40);
    let end = output + length_at(p, at + 48);
    if n < end {
        return None;
    }
    Some(Packed {
        op,
        list,
        number,
        place,
        name,
        input,
        output,
        end,
    })
}
