// Digits read one by one, however many there are, without a loss.
#![tactic(auto)]

ghost use Rattle.std.specs.Prelude.{◌≡◌, ◌+◌, ◌-◌, ◌*◌, ◌^◌, ◌≤◌, ◌<◌, min, length, drop};
ghost use Rattle.columns.specs.Letters.{digit0, digit9};
ghost use Rattle.values.specs.Reading.{more, scan, cap_run, Small};

use columns::byte_u64;
use values::Run;

// Numbers past seventeen digits are all alike.
fn cap(x: u64) -> u64
    ensures { result ≡ min x (10 ^ 17) }
{
    if x < 100_000_000_000_000_000 {
        x
    } else {
        100_000_000_000_000_000
    }
}

// The run r with one more digit, c, by which its digits spell v.
fn run_of(r: Run, c: u8, v: u64) -> Run
    requires count_bound { r.count + 1 < 2 ^ 64 }
    requires small { Small r }
    requires v_value { v ≡ min (r.value * 10 + (c - digit0)) (10 ^ 17) }
    ensures { result ≡ cap_run (more r c) }
{
    if c == b'0' {
        Run {
            value: v,
            mant: r.mant,
            zeros: r.zeros + 1,
            count: r.count + 1,
        }
    } else {
        Run {
            value: v,
            mant: v,
            zeros: 0,
            count: r.count + 1,
        }
    }
}

// One more digit.
fn more_of(r: Run, c: u8) -> Run
    requires digit0_le_c { digit0 ≤ c }
    requires c_le_digit9 { c ≤ digit9 }
    requires count_bound { r.count + 1 < 2 ^ 64 }
    requires small { Small r }
    ensures { result ≡ cap_run (more r c) }
{
    run_of(r, c, cap(r.value * 10 + (byte_u64(c) - 48)))
}

// One more digit, where there is no need of the cap.
fn few_of(r: Run, c: u8) -> Run
    requires digit0_le_c { digit0 ≤ c }
    requires c_le_digit9 { c ≤ digit9 }
    requires count_bound { r.count + 1 < 2 ^ 64 }
    requires small { Small r }
    requires value_bound { r.value < 10 ^ 16 }
    ensures { result ≡ cap_run (more r c) }
{
    run_of(r, c, r.value * 10 + (byte_u64(c) - 48))
}

// The digits from i on, after those of r, which may be many.
#[tactic(auto, using(values::proofs::Steps::scans))]
fn many_at(t: &[u8], i: usize, r: Run) -> Run
    requires i_bound { r.count + (length t.now - i) < 2 ^ 64 }
    requires small { Small r }
    ensures value { result ≡ cap_run (scan (drop i t.now) r) }
    ensures count_le_count { (r.count ≤ result.count) × (result.count ≤ r.count + (length t.now - i)) × Small result }
{
    let mut q = r;
    for k in i..t.len() {
        let c = t[k];
        if c < b'0' {
            return q;
        }
        if b'9' < c {
            return q;
        }
        q = more_of(q, c);
    }
    q
}

// The digits from i on, after those of r.
#[tactic(auto, using(values::proofs::Steps::scans))]
pub fn scan_at(t: &[u8], i: usize, r: Run) -> Run
    requires count_bound { r.count ≤ 2 ^ 63 }
    requires small { Small r }
    ensures value { result ≡ cap_run (scan (drop i t.now) r) }
    ensures count_le_count { (r.count ≤ result.count) × (result.count ≤ r.count + (length t.now - i)) × Small result }
{
    let mut q = r;
    for k in i..t.len() {
        let c = t[k];
        if c < b'0' {
            return q;
        }
        if b'9' < c {
            return q;
        }
        if 10_000_000_000_000_000 <= q.value {
            return many_at(t, k, q);
        }
        q = few_of(q, c);
    }
    q
}
