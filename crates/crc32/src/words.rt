// The CRC by the table: each half byte of a word has a row of its own.
ghost use Rattle.std.specs.Prelude.{◌≡◌, ◌+◌, ◌*◌, ◌%◌, ◌<◌, ◌≤◌, length, get_or};
ghost use Rattle.std.specs.Int.Bits.{bit_xor};
ghost use Rattle.base.specs.Lists.{part};
ghost use Rattle.crc32.specs.Crc.{crc_bits, crc_from};
ghost use Rattle.crc32.specs.Table.{le_of, crc_rows};

// Three words a turn.
pub fn by_words(t: &[u32; 384], state: u32, bytes: &[u8]) -> u32
    requires { t.now ≡ crc_rows }
    ensures { result ≡ crc_from state bytes.now }
{
    let mut c = state;
    let threes = bytes.len() / 12;
    for k in 0..threes {
        let i = 12 * k;
        c = three(
            t,
            c ^ read_four(bytes, i),
            read_four(bytes, i + 4),
            read_four(bytes, i + 8),
        );
    }
    by_four(t, c, &bytes[12 * threes..])
}

// A word a turn, for the last two words, and the rest.
fn by_four(t: &[u32; 384], state: u32, bytes: &[u8]) -> u32
    requires { t.now ≡ crc_rows }
    ensures { result ≡ crc_from state bytes.now }
{
    let mut c = state;
    let words = bytes.len() / 4;
    for k in 0..words {
        c = four(t, 0, c ^ read_four(bytes, 4 * k));
    }
    by_bytes(t, c, &bytes[4 * words..])
}

// A byte a turn, for the few bytes that are left.
fn by_bytes(t: &[u32; 384], state: u32, bytes: &[u8]) -> u32
    requires { t.now ≡ crc_rows }
    ensures { result ≡ crc_from state bytes.now }
{
    let mut c = state;
    for b in bytes {
        c = nibble(t, nibble(t, c ^ u32::from(*b)));
    }
    c
}

// The state after four shifts.
fn nibble(t: &[u32; 384], c: u32) -> u32
    requires { t.now ≡ crc_rows }
    ensures { result ≡ crc_bits 4 c }
{
    (c >> 4) ^ entry(t, 0, c)
}

// Three words, one after the other. The first waits for the state, and is looked up last.
pub fn three(t: &[u32; 384], a: u32, b: u32, c: u32) -> u32
    requires { t.now ≡ crc_rows }
    ensures { result ≡ crc_bits 32 (bit_xor (crc_bits 32 (bit_xor (crc_bits 32 a) b)) c) }
{
    let later = four(t, 0, c) ^ four(t, 8, b);
    later ^ four(t, 16, a)
}

// A word of four bytes after 4 (row + 8) shifts: each of its half bytes has a row of its own.
fn four(t: &[u32; 384], row: usize, z: u32) -> u32
    requires { (t.now ≡ crc_rows) × (row ≤ 16) }
    ensures { result ≡ crc_bits (4 * (row + 8)) z }
{
    let mut c: u32 = 0;
    let mut rest = z;
    for k in (0..8).rev() {
        c ^= entry(t, row + k, rest);
        rest >>= 4;
    }
    c
}

// The lowest half byte of z after 4 (row + 1) shifts.
fn entry(t: &[u32; 384], row: usize, z: u32) -> u32
    requires { (t.now ≡ crc_rows) × (row < 24) }
    ensures { result ≡ crc_bits (4 * (row + 1)) (z % 16) }
{
    t[row * 16 + (z % 16) as usize]
}

// The word in the four bytes from i on.
pub fn read_four(s: &[u8], i: usize) -> u32
    requires { i + 4 ≤ length s.now }
    ensures { result ≡ le_of (part i 4 s.now) }
{
    byte_at(s, i) + (byte_at(s, i + 1) << 8) + (byte_at(s, i + 2) << 16) + (byte_at(s, i + 3) << 24)
}

// Byte i as a word.
fn byte_at(s: &[u8], i: usize) -> u32
    requires { i < length s.now }
    ensures { (result ≡ get_or s.now i 0) × (result < 256) }
{
    s[i] as u32
}
