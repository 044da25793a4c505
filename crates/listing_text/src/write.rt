// Bytes and numbers written one after the other into a buffer. What does not fit is counted and not stored.
ghost use Rattle.std.specs.Prelude.{◌++◌, ◌+◌, ◌≤◌, length};
ghost use Rattle.listing_text.specs.Text.{decimal};
ghost use Rattle.listing_text.specs.Written.{Written};

// The bytes from `at` on; the place after them.
pub fn append(out: &mut [u8], at: usize, bytes: &[u8]) -> usize
    requires { at + length bytes.now ≤ 0xFFFFFFFFFFFFFFFF }
    ensures { Written out.old at bytes.now result out.new }
{
    if at < out.len() {
        let room = (out.len() - at).min(bytes.len());
        base::store(out, at, &bytes[..room]);
    }
    at + bytes.len()
}

// A number in decimal.
pub fn number(out: &mut [u8], at: usize, n: u64) -> usize
    requires { at ≤ 0xFFFFFFFFFFFF }
    ensures text { Written out.old at (decimal n) result out.new }
    ensures end { result ≤ at + 20 }
{
    let mut digits = [0u8; 20];
    let count = io::decimal(n, &mut digits);
    append(out, at, &digits[..count])
}

// A word, or a blank, and a number.
pub fn labelled(out: &mut [u8], at: usize, label: &[u8], n: u64) -> usize
    requires { (at ≤ 0x3FFFFFFFFFFF) × (length label.now ≤ 16) }
    ensures text { Written out.old at (label.now ++ decimal n) result out.new }
    ensures end { result ≤ at + 36 }
{
    let after = append(out, at, label);
    number(out, after, n)
}

// Two words, each with a number.
pub fn pair(out: &mut [u8], at: usize, label: &[u8], n: u64, second: &[u8], k: u64) -> usize
    requires { (at ≤ 0x1FFFFFFFFFFF) × ((length label.now ≤ 16) × (length second.now ≤ 16)) }
    ensures text { Written out.old at
        ((label.now ++ decimal n) ++ (second.now ++ decimal k)) result out.new }
    ensures end { result ≤ at + 72 }
{
    let after = labelled(out, at, label, n);
    labelled(out, after, second, k)
}
