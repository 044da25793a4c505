// The record of a volume field.
ghost use Rattle.std.specs.Prelude.{◌≡◌, ◌++◌, ◌+◌, ◌-◌, ◌*◌, ◌%◌, ◌≤◌, length, replicate};
ghost use Rattle.base.specs.Lists.{put};
ghost use Rattle.volume_record.specs.Record.{record_bytes};
ghost use Rattle.builder_rules.specs.Table.{record_of_field};

use volume_record::{NAME_SIZE, RECORD_SIZE, VolumeRecord};

// Where the numbers of a volume field's value start, and its name.
const RESERVED_AT: usize = 0;

const ALIGNMENT_AT: usize = 4;

const TYPE_AT: usize = 8;

const FLAGS_AT: usize = 9;

const NAME_AT: usize = 10;

// The bytes of a LEB that whole alignments leave.
fn pad_of(leb_size: u32, alignment: u32) -> u32
    ensures { result ≡ leb_size % alignment }
{
    // no good record has it, but it is no divisor
    if alignment == 0 {
        return leb_size;
    }
    leb_size % alignment
}

// A name with zeroes after it.
fn padded_name(name: &[u8]) -> [u8; NAME_SIZE]
    requires { length name.now ≤ 128 }
    ensures { result ≡ name.now ++ replicate (128 - length name.now) 0 }
{
    let mut out = [0u8; NAME_SIZE];
    base::store(&mut out, 0, name);
    out
}

// The record of a volume field's value.
fn record_of(value: &[u8], leb_size: u32) -> VolumeRecord
    requires { (11 ≤ length value.now) × (length value.now ≤ 137) }
    ensures { result ≡ record_of_field leb_size value.now }
{
    let alignment = field::read(value, ALIGNMENT_AT, 4) as u32;
    VolumeRecord {
        reserved: field::read(value, RESERVED_AT, 4) as u32,
        alignment,
        data_pad: pad_of(leb_size, alignment),
        vol_type: field::read(value, TYPE_AT, 1) as u8,
        update_marker: 0,
        name_length: (value.len() - NAME_AT) as u16,
        name: padded_name(&value[NAME_AT..]),
        flags: field::read(value, FLAGS_AT, 1) as u8,
    }
}

// Record i of the table is that of a volume field's value.
pub fn store_record(value: &[u8], leb_size: u32, table: &mut [u8], i: usize)
    requires { ((11 ≤ length value.now) × (length value.now ≤ 137))
        × ((i ≤ 127) × (i * 172 + 172 ≤ length table.old)) }
    ensures { table.new
        ≡ put (i * 172) (record_bytes (record_of_field leb_size value.now)) table.old }
{
    let at = i * RECORD_SIZE;
    record_write::write_record(
        record_of(value, leb_size),
        &mut table[at..at + RECORD_SIZE],
    ).unwrap();
}
