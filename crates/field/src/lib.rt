// Unsigned fields of 1 to 8 bytes, the highest byte first, at an offset of a byte slice.
#![tactic(auto)]

ghost use Rattle.std.specs.Prelude.{◌≡◌, ◌+◌, ◌^◌, ◌≤◌, ◌<◌, length};
ghost use Rattle.base.specs.Lists.{part, put};
ghost use Rattle.field.specs.Be.{be_of, to_be};

// A field of a run of bytes: where it starts, and how many bytes it has.
#[derive(Clone, Copy)]
pub struct Field {
    pub at: usize,
    pub width: usize,
}

// The number in the `width` bytes from `at` on.
pub fn read(s: &[u8], at: usize, width: usize) -> u64
    requires { (at + width ≤ length s.now) × (width ≤ 8) }
    ensures { (result ≡ be_of (part at width s.now)) × (result < 256 ^ width) }
{
    let mut v: u64 = 0;
    for b in &s[at..at + width] {
        v = v * 256 + u64::from(*b);
    }
    v
}

// The lowest `width` bytes of `value` are stored from `at` on; the other bytes stay.
pub fn write(s: &mut [u8], at: usize, width: usize, value: u64)
    requires { at + width ≤ length s.old }
    ensures { s.new ≡ put at (to_be width value) s.old }
{
    let mut v = value;
    for i in (0..width).rev() {
        s[at + i] = (v % 256) as u8;
        v = v / 256;
    }
}
