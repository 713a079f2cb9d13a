// Bytes laid over a lent buffer from a place on, clipped to it; each function returns the place after what it wrote.
// With an empty buffer they measure and touch nothing. Crate `columns_decimals` lays numbers so.
#![tactic(auto)]

ghost use Rattle.std.specs.Prelude.{◌≡◌, ◌+◌, ◌-◌, ◌<◌, ◌^◌, [], ◌∷◌, length, replicate};
ghost use Rattle.columns.specs.Laid.{Wrote};

// Writes b at `at`, if there is room.
#[tactic(auto, using(columns::proofs::Writes::writes))]
pub fn put(out: &mut [u8], at: usize, b: u8) -> usize
    requires { at + 1 < 2 ^ 64 }
    ensures wrote { Wrote out.old at (b ∷ []) out.new result }
    ensures value { result ≡ at + 1 }
{
    let next = at + 1;
    if at < out.len() {
        out[at] = b;
    }
    next
}

// Writes all of s, byte by byte.
#[tactic(auto, using(columns::proofs::Writes::clips))]
fn put_all_clipped(out: &mut [u8], at: usize, s: &[u8]) -> usize
    requires { at < 2 ^ 62 }
    ensures wrote { Wrote out.old at s.now out.new result }
    ensures value { result ≡ at + length s.now }
{
    let mut next = at;
    for b in s {
        next = put(out, next, *b);
    }
    next
}

// Writes all of s: where there is room nothing is asked of a byte, past the end nothing is laid. A copy of slices, or one loop for both
// cases, would be a call of memmove or memcpy, which the archive would then need from outside.
#[tactic(auto, using(columns::proofs::Writes::copies))]
pub fn put_all(out: &mut [u8], at: usize, s: &[u8]) -> usize
    requires { at < 2 ^ 62 }
    ensures wrote { Wrote out.old at s.now out.new result }
    ensures value { result ≡ at + length s.now }
{
    let end = at + s.len();
    if out.len() <= at {
        return end;
    }
    if out.len() < end {
        return put_all_clipped(out, at, s);
    }
    for i in 0..s.len() {
        out[at + i] = s[i];
    }
    end
}

// Writes b count times, as `put_all` does.
pub fn put_run(out: &mut [u8], at: usize, b: u8, count: usize) -> usize
    requires { at + count < 2 ^ 64 }
    ensures wrote { Wrote out.old at (replicate count b) out.new result }
    ensures value { result ≡ at + count }
{
    let end = at + count;
    if out.len() <= at {
        return end;
    }
    let last = end.min(out.len());
    out[at..last].fill(b);
    end
}
