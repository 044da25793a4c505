// Long slices: words are folded in blocks. A folded word is kept, and added to the words 53, 57, 67, 108, 129 and 137
// words later when these come up. Whole words move, so that nothing is shifted.
ghost use Rattle.std.specs.Prelude.{◌≡◌, ◌++◌, ◌+◌, ◌*◌, ◌%◌, ◌^◌, ◌<◌, ◌≤◌, length, take, drop, get_or};
ghost use Rattle.std.specs.Int.Bits.{bit_xor};
ghost use Rattle.base.specs.Lists.{part};
ghost use Rattle.crc32.specs.Crc.{crc_from};
ghost use Rattle.crc32.specs.Table.{le_of, crc_rows};
ghost use Rattle.crc32.specs.Fold.{exponents, pending, zeros};

use crate::words::{by_words, read_four, three};

// The degree of the multiple: a folded word is added to words up to so many places later.
const DEGREE: usize = 137;

// The most words of a block.
const BLOCK: usize = 512;

// Room for the words that still count and for a block.
const ROOM: usize = 649;

// The words after the last block, in threes and at least as many as the degree; and their bytes.
const REST: usize = 138;

const REST_BYTES: usize = 552;

// The words that are read for the rest: up to 84 after each of them.
const REACH: usize = 222;

// The bytes of a whole block and the rest.
const FULL: usize = 2600;

// The fewest bytes that are folded: four words, and the rest.
pub const LEAST: usize = 568;

// The state is what is pending for the first word.
pub fn by_folding(t: &[u32; 384], state: u32, bytes: &[u8]) -> u32
    requires { (t.now ≡ crc_rows) × (568 ≤ length bytes.now) }
    ensures { result ≡ crc_from state bytes.now }
{
    let mut kept = [0u32; ROOM];
    kept[0] = state;
    in_blocks(t, &mut kept, bytes)
}

// Blocks are folded while 138 words come after them; these go through the table.
fn in_blocks(t: &[u32; 384], kept: &mut [u32; ROOM], bytes: &[u8]) -> u32
    requires { (t.now ≡ crc_rows) × ((length kept.old ≡ 649) × (552 ≤ length bytes.now)) }
    ensures { result ≡ crc_from (pending exponents (take 137 kept.old)) bytes.now }
{
    let mut i: usize = 0;
    // `while`: the length of a block depends on how many bytes are left.
    while LEAST <= bytes.len() - i {
        let n = block_length(bytes.len() - i);
        fold_block(kept, &bytes[i..], n);
        slide(kept, n);
        i += 4 * n;
    }
    clear(kept);
    reduce(t, kept, &bytes[i..])
}

// How many words the next block has: fours of them, with 138 words after them.
fn block_length(left: usize) -> usize
    requires { 568 ≤ left }
    ensures { (4 ≤ result) × ((result ≤ 512) × ((result % 4 ≡ 0) × (4 * result + 552 ≤ left))) }
{
    if FULL <= left {
        return BLOCK;
    }
    (left - REST_BYTES) / 16 * 4
}

// The next n words are folded, and kept after the 137 before them.
fn fold_block(kept: &mut [u32; ROOM], bytes: &[u8], n: usize)
    requires { (length kept.old ≡ 649) × ((n ≤ 512) × ((n % 4 ≡ 0) × (4 * n + 552 ≤ length bytes.now))) }
    ensures { (length kept.new ≡ 649)
        × (crc_from (pending exponents (part n 137 kept.new)) (drop (4 * n) bytes.now)
        ≡ crc_from (pending exponents (take 137 kept.old)) bytes.now) }
{
    for k in 0..n / 4 {
        fold_four(kept, bytes, 4 * k);
    }
}

// Four words a turn. None of them is added to another, so that the compiler takes them at once.
fn fold_four(kept: &mut [u32; ROOM], bytes: &[u8], j: usize)
    requires { (length kept.old ≡ 649) × ((j + 4 ≤ 512) × (4 * (j + 4) + 552 ≤ length bytes.now)) }
    ensures { (length kept.new ≡ 649)
        × (crc_from (pending exponents (part (j + 4) 137 kept.new)) (drop (4 * (j + 4)) bytes.now)
        ≡ crc_from (pending exponents (part j 137 kept.old)) (drop (4 * j) bytes.now)) }
{
    let a = sum_at(kept, bytes, j);
    let b = sum_at(kept, bytes, j + 1);
    let c = sum_at(kept, bytes, j + 2);
    let d = sum_at(kept, bytes, j + 3);
    kept[j + 137] = a;
    kept[j + 138] = b;
    kept[j + 139] = c;
    kept[j + 140] = d;
}

// Word j of the bytes, with what the words that are kept add to it.
fn sum_at(kept: &[u32; ROOM], bytes: &[u8], j: usize) -> u32
    requires { (length kept.now ≡ 649) × ((j < 512) × (4 * (j + 1) ≤ length bytes.now)) }
    ensures { result ≡ bit_xor (pending exponents (drop j kept.now) % 2 ^ 32)
        (le_of (part (4 * j) 4 bytes.now)) }
{
    let farther = word_at(kept, j + 29) ^ (word_at(kept, j + 8) ^ word_at(kept, j));
    let all = word_at(kept, j + 84) ^ (word_at(kept, j + 80) ^ (word_at(kept, j + 70) ^ farther));
    all ^ read_four(bytes, 4 * j)
}

// Word i. A function of its own, since a result is known to be below 2^32, and an element is not.
fn word_at(kept: &[u32; ROOM], i: usize) -> u32
    requires { i < 649 }
    ensures { result ≡ get_or kept.now i 0 }
{
    kept[i]
}

// The 137 words from n on become the first.
fn slide(kept: &mut [u32; ROOM], n: usize)
    requires { (length kept.old ≡ 649) × (n ≤ 512) }
    ensures { (length kept.new ≡ 649)
        × (take 137 kept.new ≡ part n 137 kept.old) }
{
    kept.copy_within(n..n + DEGREE, 0);
}

// Nothing was folded after the first 137 words.
fn clear(kept: &mut [u32; ROOM])
    requires { length kept.old ≡ 649 }
    ensures { (length kept.new ≡ 649)
        × (take 222 kept.new ≡ take 137 kept.old ++ zeros 85) }
{
    kept[DEGREE..REACH].fill(0);
}

// The 138 words for which something may be pending, and the rest, by the table. No other word is left to add to.
fn reduce(t: &[u32; 384], kept: &[u32; ROOM], bytes: &[u8]) -> u32
    requires { (t.now ≡ crc_rows)
        × ((length kept.now ≡ 649) × ((drop 137 (take 222 kept.now) ≡ zeros 85) × (552 ≤ length bytes.now))) }
    ensures { result ≡ crc_from (pending exponents (take 222 kept.now)) bytes.now }
{
    let mut c: u32 = 0;
    for k in 0..REST / 3 {
        let j = 3 * k;
        c = three(
            t,
            c ^ sum_at(kept, bytes, j),
            sum_at(kept, bytes, j + 1),
            sum_at(kept, bytes, j + 2),
        );
    }
    by_words(t, c, &bytes[REST_BYTES..])
}
