// The fields of both headers: one table of offsets and widths serves reader and writer.
ghost use Rattle.std.specs.Prelude.{◌≡◌, ◌&&◌, ◌+◌, ◌^◌, ◌≤◌, ◌<◌, length};
ghost use Rattle.base.specs.Lists.{part, eqs};
ghost use Rattle.field.specs.Fields.{row, number_in, stored};
ghost use Rattle.header.specs.Fields.{crc_matches};
ghost use Rattle.header.specs.Table.{fields};
ghost use Rattle.header.specs.Stores.{header_begun, crc_stored};

use field::Field;

pub const EC_VERSION: usize = 0;

pub const EC_COUNTER: usize = 1;

pub const EC_VID_START: usize = 2;

pub const EC_DATA_START: usize = 3;

pub const EC_IMAGE_SEQ: usize = 4;

pub const VID_VERSION: usize = 5;

pub const VID_TYPE: usize = 6;

pub const VID_COPY_FLAG: usize = 7;

pub const VID_COMPAT: usize = 8;

pub const VID_VOLUME: usize = 9;

pub const VID_LNUM: usize = 10;

pub const VID_DATA_SIZE: usize = 11;

pub const VID_USED_LEBS: usize = 12;

pub const VID_DATA_PAD: usize = 13;

pub const VID_DATA_CRC: usize = 14;

pub const VID_SEQUENCE: usize = 15;

const HEADER_CRC: usize = 16;

const FIELDS: [Field; 17] = [
    Field { at: 4, width: 1 }, // EC_VERSION
    Field { at: 8, width: 8 }, // EC_COUNTER
    Field { at: 16, width: 4 }, // EC_VID_START
    Field { at: 20, width: 4 }, // EC_DATA_START
    Field { at: 24, width: 4 }, // EC_IMAGE_SEQ
    Field { at: 4, width: 1 }, // VID_VERSION
    Field { at: 5, width: 1 }, // VID_TYPE
    Field { at: 6, width: 1 }, // VID_COPY_FLAG
    Field { at: 7, width: 1 }, // VID_COMPAT
    Field { at: 8, width: 4 }, // VID_VOLUME
    Field { at: 12, width: 4 }, // VID_LNUM
    Field { at: 20, width: 4 }, // VID_DATA_SIZE
    Field { at: 24, width: 4 }, // VID_USED_LEBS
    Field { at: 28, width: 4 }, // VID_DATA_PAD
    Field { at: 32, width: 4 }, // VID_DATA_CRC
    Field { at: 40, width: 8 }, // VID_SEQUENCE
    Field { at: 60, width: 4 }, // HEADER_CRC
];

// Field i of the table.
fn field_of(i: usize) -> Field
    requires { i < 17 }
    ensures { (result ≡ row fields i) × ((result.at + result.width ≤ 64) × (result.width ≤ 8)) }
{
    FIELDS[i]
}

// The number in field i.
pub fn get(s: &[u8], i: usize) -> u64
    requires { (i < 17) × (64 ≤ length s.now) }
    ensures { (result ≡ number_in (row fields i) s.now) × (result < 256 ^ (row fields i).width) }
{
    let f = field_of(i);
    field::read(s, f.at, f.width)
}

// Field i is given the number v.
pub fn set(s: &mut [u8], i: usize, v: u64)
    requires { (i < 17) × (64 ≤ length s.old) }
    ensures { s.new ≡ stored (row fields i) v s.old }
{
    let f = field_of(i);
    field::write(s, f.at, f.width, v)
}

// Are magic and CRC right?
#[tactic(auto, unfolding(crate::specs::Fields::crc_matches))]
pub fn is_header(s: &[u8], magic: &[u8]) -> bool
    requires { 64 ≤ length s.now }
    ensures { result ≡ (eqs (part 0 4 s.now) magic.now && crc_matches s.now) }
{
    base::same(&s[0..4], magic) && crc32::crc32(&s[0..60]) as u64 == get(s, HEADER_CRC)
}

// The header's bytes are cleared and the magic is stored.
#[tactic(auto, unfolding(crate::specs::Stores::header_begun))]
pub fn begin(out: &mut [u8], magic: &[u8])
    requires { (64 ≤ length out.old) × (length magic.now ≡ 4) }
    ensures { out.new ≡ header_begun magic.now out.old }
{
    base::fill(out, 64, 0);
    base::store(out, 0, magic)
}

// The header's CRC is stored.
#[tactic(auto, unfolding(crate::specs::Stores::crc_stored))]
pub fn finish(out: &mut [u8])
    requires { 64 ≤ length out.old }
    ensures { out.new ≡ crc_stored out.old }
{
    let sum = crc32::crc32(&out[0..60]);
    set(out, HEADER_CRC, sum as u64)
}
