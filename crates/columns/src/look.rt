// What stands in columns.
ghost use Rattle.std.specs.Prelude.{◌≡◌, ◌≤◌, length, get_or};
ghost use Rattle.columns.specs.Columns.{columns, printable, blank, same_bytes};

// The byte at i; 0 past the end.
pub fn byte_at(s: &[u8], i: usize) -> u8
    ensures { result ≡ get_or s.now i 0 }
{
    s.get(i).copied().unwrap_or(0)
}

// Whether the columns from `at` up to `end` are blank.
pub fn is_blank(s: &[u8], at: usize, end: usize) -> bool
    requires at_le_end { at ≤ end }
    requires end_in_bounds { end ≤ length s.now }
    ensures { result ≡ blank (columns s.now at end) }
{
    s[at..end].iter().all(|b| *b == b' ')
}

// Whether the columns from `at` up to `end` are bytes from 32 to 126: no byte of them is passed over, so that many can be looked at
// together.
#[tactic(auto, using(crate::proofs::Looks::spans))]
pub fn is_printable(s: &[u8], at: usize, end: usize) -> bool
    requires at_le_end { at ≤ end }
    requires end_in_bounds { end ≤ length s.now }
    ensures { result ≡ printable (columns s.now at end) }
{
    let mut low: u8 = 126;
    let mut high: u8 = 32;
    for b in &s[at..end] {
        low = low.min(*b);
        high = high.max(*b);
    }
    if low < 32 {
        return false;
    }
    high <= 126
}

// Whether a and b are the same, byte for byte.
#[tactic(auto, using(crate::proofs::Looks::same_is))]
pub fn same(a: &[u8], b: &[u8]) -> bool
    ensures { result ≡ same_bytes a.now b.now }
{
    a == b
}
