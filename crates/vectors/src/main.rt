// Tries the vectors of the pack at standard input, and says how many of them passed; those that did not are named.
// `pack` finds a vector's parts, `room` makes a buffer ready and looks what became of it, `vector` tries one.
#![tactic(auto)]

mod pack;
mod room;
mod vector;

ghost use Rattle.std.specs.Prelude.{◌≡◌, ◌≤◌, length};
ghost use Rattle.vectors.specs.Passing.{passes, scored};
ghost use Rattle.vectors.specs.Packs.{Tried};

use crate::pack::vector_at;
use crate::vector::{gives, wants_room};
use std::io;
use std::io::Read;

// A vector: whether it is written (1) or read (0), under which list, the answer that is expected; where its name, its input and the
// expected output stand in its pack, up to where the next vector begins.
#[derive(Clone, Copy)]
pub struct Packed {
    pub op: u64,
    pub list: u64,
    pub number: u64,
    pub place: u64,
    pub name: usize,
    pub input: usize,
    pub output: usize,
    pub end: usize,
}

// More than the pack takes.
const PACK: usize = 524288;

// More than any vector's output takes.
const ROOM: usize = 65536;

// How many vectors were tried, and how many passed.
#[derive(Clone, Copy)]
struct Results {
    tried: u64,
    passed: u64,
}

// Names a vector that did not pass. Where a line of these cannot be written, neither can the last, by which `main` tells so.
fn blame(rt: &impl Print, name: &[u8]) {
    let _ = rt.print("not passed: ");
    let _ = rt.write_all(name);
    let _ = rt.print("\n");
}

// Whether a vector passes: in a buffer that is long enough, and in one that is a byte too short.
fn passes(
    op: u64,
    list: u64,
    number: u64,
    place: u64,
    input: &[u8],
    expected: &[u8],
    out: &mut [u8],
) -> bool
    ensures value { result ≡ passes op list number place input.now expected.now (length out.old) }
    ensures out_len_unchanged { length out.new ≡ length out.old }
{
    if !gives(op, list, number, place, input, expected, out) {
        return false;
    }
    wants_room(op, list, input, expected.len(), out)
}

// 1 for a vector that passes, 0 for one that is named.
fn score(
    rt: &impl Print,
    op: u64,
    list: u64,
    number: u64,
    place: u64,
    name: &[u8],
    input: &[u8],
    expected: &[u8],
    out: &mut [u8],
) -> u64
    ensures value { result ≡ scored op list number place input.now expected.now (length out.old) }
    ensures upper_bound { result ≤ 1 }
    ensures out_len_unchanged { length out.new ≡ length out.old }
{
    if passes(op, list, number, place, input, expected, out) {
        return 1;
    }
    blame(rt, name);
    0
}

// All vectors of a pack.
fn all(rt: &impl Print, p: &[u8], out: &mut [u8]) -> Results
    ensures { Tried p.now (length out.old) 0 0 0 result }
{
    let mut tried: u64 = 0;
    let mut passed: u64 = 0;
    let mut at = 0;
    // From vector to vector: each says where the next begins.
    while at < p.len() {
        let Some(v) = vector_at(p, at) else {
            blame(rt, b"a broken pack");
            return Results { tried, passed };
        };
        passed += score(
            rt,
            v.op,
            v.list,
            v.number,
            v.place,
            &p[v.name..v.input],
            &p[v.input..v.output],
            &p[v.output..v.end],
            out,
        );
        tried += 1;
        at = v.end;
    }
    Results { tried, passed }
}

fn main(rt: HostRuntime) -> io::Result<()> {
    let mut pack = [0u8; PACK];
    let read = io::copy(&mut rt.stdin().take(PACK as u64), &mut pack.as_mut_slice())?;
    let n = (read as usize).min(PACK);
    let mut out = [0u8; ROOM];
    let Results { tried, passed } = all(&rt, &pack[..n], &mut out);
    println!(rt; "{passed} of {tried} vectors passed")
}
