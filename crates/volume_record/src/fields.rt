// The fields of a volume record: one table of offsets and widths serves every reader and writer.
ghost use Rattle.std.specs.Prelude.{◌≡◌, ◌+◌, ◌^◌, ◌≤◌, ◌<◌, length};
ghost use Rattle.field.specs.Fields.{row, bytes_in, number_in, stored};
ghost use Rattle.volume_record.specs.Fields.{record_fields};

use field::Field;

pub const RECORD_SIZE: usize = 172;

// The bytes before the CRC: it is theirs.
pub const SUMMED_SIZE: usize = 168;

pub const NAME_SIZE: usize = 128;

pub const RECORD_RESERVED: usize = 0;

pub const RECORD_ALIGNMENT: usize = 1;

pub const RECORD_DATA_PAD: usize = 2;

pub const RECORD_TYPE: usize = 3;

pub const RECORD_MARKER: usize = 4;

pub const RECORD_NAME_LENGTH: usize = 5;

// No number: it is wider than any.
pub const RECORD_NAME: usize = 6;

pub const RECORD_FLAGS: usize = 7;

pub const RECORD_CRC: usize = 8;

const RECORD_FIELDS: [Field; 9] = [
    Field { at: 0, width: 4 }, // RECORD_RESERVED
    Field { at: 4, width: 4 }, // RECORD_ALIGNMENT
    Field { at: 8, width: 4 }, // RECORD_DATA_PAD
    Field { at: 12, width: 1 }, // RECORD_TYPE
    Field { at: 13, width: 1 }, // RECORD_MARKER
    Field { at: 14, width: 2 }, // RECORD_NAME_LENGTH
    Field {
        at: 16,
        width: NAME_SIZE,
    }, // RECORD_NAME
    Field { at: 144, width: 1 }, // RECORD_FLAGS
    Field {
        at: SUMMED_SIZE,
        width: 4,
    }, // RECORD_CRC
];

// Field i of the table.
pub fn field_of(i: usize) -> Field
    requires { i < 9 }
    ensures { (result ≡ row record_fields i) × (result.at + result.width ≤ 172) }
{
    RECORD_FIELDS[i]
}

// The bytes of field i.
pub fn field_bytes<'a>(r: &'a [u8], i: usize) -> &'a [u8]
    requires { (i < 9) × (172 ≤ length r.now) }
    ensures { result.now ≡ bytes_in (row record_fields i) r.now }
{
    let f = field_of(i);
    &r[f.at..f.at + f.width]
}

// The number in field i of the record at the start of a slice.
pub fn get_field(r: &[u8], i: usize) -> u64
    requires { (i < 9) × (((row record_fields i).width ≤ 8) × (172 ≤ length r.now)) }
    ensures { (result ≡ number_in (row record_fields i) r.now) × (result < 256 ^ (row record_fields i).width) }
{
    let f = field_of(i);
    field::read(r, f.at, f.width)
}

// Field i is given the number v.
pub fn set_field(r: &mut [u8], i: usize, v: u64)
    requires { (i < 9) × (172 ≤ length r.old) }
    ensures { r.new ≡ stored (row record_fields i) v r.old }
{
    let f = field_of(i);
    field::write(r, f.at, f.width, v)
}
