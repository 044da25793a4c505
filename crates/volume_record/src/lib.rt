// A volume record of 172 bytes: its fields, and its reader.
#![tactic(auto)]

mod fields;
mod record;

pub use fields::{
    NAME_SIZE, RECORD_ALIGNMENT, RECORD_CRC, RECORD_DATA_PAD, RECORD_FLAGS, RECORD_MARKER,
    RECORD_NAME, RECORD_NAME_LENGTH, RECORD_RESERVED, RECORD_SIZE, RECORD_TYPE, SUMMED_SIZE,
    field_bytes, field_of, get_field, set_field,
};
pub use record::{empty_record, is_empty, is_good, parse, read_record};

// The flags of a record.
pub const AUTORESIZE: u8 = 1;

pub const SKIP_CRC: u8 = 2;

// A volume record: its numbers beside the name's 128 bytes.
#[derive(Clone, Copy)]
pub struct VolumeRecord {
    pub reserved: u32,
    pub alignment: u32,
    pub data_pad: u32,
    pub vol_type: u8,
    pub update_marker: u8,
    pub name_length: u16,
    pub name: [u8; fields::NAME_SIZE],
    pub flags: u8,
}

// What the bytes of a record are; Short is refusal 4.
#[derive(Clone, Copy)]
pub enum RecordKind {
    Empty,
    Good,
    Bad,
    Short,
}

// Too few bytes are lent for a record: refusal 4.
#[derive(Clone, Copy)]
pub struct ShortRecord;

// The answer, and beside it the record of the bytes, good or not: so the promise of `read_record` has it.
#[derive(Clone, Copy)]
pub struct RecordRead {
    pub kind: RecordKind,
    pub record: VolumeRecord,
}
