// A buffer made ready, so that a byte that was changed is seen.
ghost use Rattle.std.specs.Prelude.{◌≡◌, length, drop};
ghost use Rattle.vectors.specs.Passing.{ready, untouched};

// What it is filled with: a byte that no sheet and no file has.
const FILL: u8 = 170;

// Fills a buffer.
pub fn fill(out: &mut [u8])
    ensures out_after { out.new ≡ ready (length out.old) }
    ensures out_len_unchanged { length out.new ≡ length out.old }
{
    out.fill(FILL);
}

// Whether all is as it was filled from `from` on.
pub fn untouched(out: &[u8], from: usize) -> bool
    ensures { result ≡ untouched (drop from out.now) }
{
    // By an index: `skip` with `all`, and `all` over a slice, cost the whole program a quarter more.
    for i in from..out.len() {
        if out[i] != FILL {
            return false;
        }
    }
    true
}
