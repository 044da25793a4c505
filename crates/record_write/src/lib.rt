// A volume record written, field by field through the table.
#![tactic(auto)]

ghost use Rattle.std.specs.Prelude.{◌≡◌, ◌≤◌, length};
ghost use Rattle.volume_record.specs.Record.{record_accepted, record_written, record_out};
ghost use Rattle.record_write.specs.Stores.{sizes_stored, kind_stored, name_stored, crc_stored};

use volume_record::{
    NAME_SIZE, RECORD_ALIGNMENT, RECORD_CRC, RECORD_DATA_PAD, RECORD_FLAGS, RECORD_MARKER,
    RECORD_NAME, RECORD_NAME_LENGTH, RECORD_RESERVED, RECORD_SIZE, RECORD_TYPE, SUMMED_SIZE,
    ShortRecord, VolumeRecord, field_of, set_field,
};

// Reserved PEBs, alignment and data pad are stored.
#[tactic(auto, unfolding(crate::specs::Stores::sizes_stored))]
fn store_sizes(v: VolumeRecord, out: &mut [u8])
    requires { 172 ≤ length out.old }
    ensures { out.new ≡ sizes_stored v out.old }
{
    set_field(out, RECORD_RESERVED, v.reserved as u64);
    set_field(out, RECORD_ALIGNMENT, v.alignment as u64);
    set_field(out, RECORD_DATA_PAD, v.data_pad as u64)
}

// Type, update marker, name length and flags are stored.
#[tactic(auto, unfolding(crate::specs::Stores::kind_stored))]
fn store_kind(v: VolumeRecord, out: &mut [u8])
    requires { 172 ≤ length out.old }
    ensures { out.new ≡ kind_stored v out.old }
{
    set_field(out, RECORD_TYPE, v.vol_type as u64);
    set_field(out, RECORD_MARKER, v.update_marker as u64);
    set_field(out, RECORD_NAME_LENGTH, v.name_length as u64);
    set_field(out, RECORD_FLAGS, v.flags as u64)
}

// The name field is stored.
#[tactic(auto, unfolding(crate::specs::Stores::name_stored))]
fn store_name(name: [u8; NAME_SIZE], out: &mut [u8])
    requires { 172 ≤ length out.old }
    ensures { (out.new ≡ name_stored name out.old) × (length name ≡ 128) }
{
    let f = field_of(RECORD_NAME);
    base::store(out, f.at, &name)
}

// The CRC is stored.
#[tactic(auto, unfolding(crate::specs::Stores::crc_stored))]
fn store_crc(out: &mut [u8])
    requires { 172 ≤ length out.old }
    ensures { out.new ≡ crc_stored out.old }
{
    let crc = crc32::crc32(&out[0..SUMMED_SIZE]);
    set_field(out, RECORD_CRC, crc as u64)
}

// A record is written to the first 172 bytes, with its CRC and zero padding.
pub fn write_record(v: VolumeRecord, out: &mut [u8]) -> Result<(), ShortRecord>
    ensures answer { record_written result ≡ record_accepted out.old }
    ensures out { out.new ≡ record_out v out.old }
{
    if out.len() < RECORD_SIZE {
        return Err(ShortRecord);
    }
    base::fill(out, RECORD_SIZE, 0);
    store_sizes(v, out);
    store_kind(v, out);
    let name = v.name;
    store_name(name, out);
    store_crc(out);
    Ok(())
}
