// CRC-32/JAMCRC of a byte slice. Short slices go through a table, four bits at a look-up. In longer ones most words are
// folded: left out, and added to later words, at the distances that a sparse multiple of the polynomial gives. The CRC
// stays the same.
#![tactic(auto)]

ghost use Rattle.std.specs.Prelude.{◌≡◌};
ghost use Rattle.crc32.specs.Crc.{crc_from, crc_of};

mod fold;
mod table;
mod words;

use fold::by_folding;
use table::TABLE;
use words::by_words;

// The CRC of the bytes.
pub fn crc32(bytes: &[u8]) -> u32
    ensures { result ≡ crc_of bytes.now }
{
    update(0xFFFFFFFF, bytes)
}

// The state after the bytes, for data that come in pieces.
pub fn update(state: u32, bytes: &[u8]) -> u32
    ensures { result ≡ crc_from state bytes.now }
{
    // Lent once: a constant that is indexed is copied at each use.
    let t = &TABLE;
    if bytes.len() < fold::LEAST {
        return by_words(t, state, bytes);
    }
    by_folding(t, state, bytes)
}
