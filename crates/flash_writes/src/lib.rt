// Writes on an image of flash: a run copied, a block erased, a header stored. Stores go ascending; an erase may go in
// any order.
#![tactic(auto)]

ghost use Rattle.std.specs.Prelude.{◌≡◌, true, ◌⊎◌, ◌+◌, ◌≤◌, ◌<◌, length, replicate};
ghost use Rattle.base.specs.Lists.{part, put};
ghost use Rattle.header.specs.Fields.{is_good};
ghost use Rattle.header.specs.Ec.{judge_ec, ec_bytes};
ghost use Rattle.header.specs.Vid.{judge_vid, vid_bytes};

use header::{EcHeader, VidHeader};

// The n bytes from `from` on are stored from `to` on, ascending; the two runs do not overlap.
pub fn copy_run(image: &mut [u8], from: usize, to: usize, n: usize)
    requires { (from + n ≤ length image.old)
        × ((to + n ≤ length image.old) × ((from + n ≤ to) ⊎ (to + n ≤ from))) }
    ensures { image.new ≡ put to (part from n image.old) image.old }
{
    for i in 0..n {
        image[to + i] = image[from + i];
    }
}

// The block of n bytes from `at` on is erased.
pub fn erase(image: &mut [u8], at: usize, n: usize)
    requires { at + n ≤ length image.old }
    ensures { image.new ≡ put at (replicate n 0xFF) image.old }
{
    image[at..at + n].fill(0xFF);
}

// A good VID header is made in 64 bytes of its own, then stored from `at` on, ascending: a stop in a store has to leave
// a prefix of its bytes, and the fields of a header are not set in that order.
pub fn store_vid(h: VidHeader, leb_size: u32, image: &mut [u8], at: usize)
    requires { (at + 64 ≤ length image.old) × (is_good (judge_vid leb_size h) ≡ true) }
    ensures { image.new ≡ put at (vid_bytes h) image.old }
{
    let mut made = [0u8; 64];
    vid_header::write_vid(h, leb_size, &mut made).unwrap();
    base::store(image, at, &made)
}

// The same of an EC header.
pub fn store_ec(h: EcHeader, image: &mut [u8], at: usize)
    requires { (at + 64 ≤ length image.old) × (is_good (judge_ec h) ≡ true) }
    ensures { image.new ≡ put at (ec_bytes h) image.old }
{
    let mut made = [0u8; 64];
    ec_header::write_ec(h, &mut made).unwrap();
    base::store(image, at, &made)
}
