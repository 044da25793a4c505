// Byte slices compared, stored and filled. The definitions and laws that every crate uses stand in specs/ and proofs/.
#![tactic(auto)]

ghost use Rattle.std.specs.Prelude.{◌≡◌, ◌++◌, ◌+◌, ◌≤◌, length, drop, replicate};
ghost use Rattle.base.specs.Lists.{put, eqs};

// Are two slices equal?
#[tactic(auto, using(crate::proofs::Lists::eqs_pairs))]
pub fn same(a: &[u8], b: &[u8]) -> bool
    ensures { result ≡ eqs a.now b.now }
{
    a == b
}

// The bytes are stored from `at` on; the others stay. A loop, since it stores ascending, and `copy_from_slice` promises
// no order: a stop in a store into flash has to leave a prefix.
pub fn store(out: &mut [u8], at: usize, bytes: &[u8])
    requires { at + length bytes.now ≤ length out.old }
    ensures { out.new ≡ put at bytes.now out.old }
{
    for (i, b) in bytes.iter().enumerate() {
        out[at + i] = *b;
    }
}

// The first n bytes are set to the value; the others stay.
pub fn fill(out: &mut [u8], n: usize, value: u8)
    requires { n ≤ length out.old }
    ensures { out.new ≡ replicate n value ++ drop n out.old }
{
    out[..n].fill(value);
}
