// A volume record of 172 bytes.
ghost use Rattle.std.specs.Prelude.{◌≡◌, ◌||◌, ◌%◌, ◌≤◌, ◌<◌, eqb, length};
ghost use Rattle.base.specs.Answers.{all_of};
ghost use Rattle.field.specs.Fields.{bytes_in};
ghost use Rattle.volume_record.specs.Fields.{record_name};
ghost use Rattle.volume_record.specs.Record.{record_of, empty_record, is_empty, name_ends, record_rules, record_good};
ghost use Rattle.volume_record.specs.Record.{judge_record, record_kind, shown_record};

use crate::fields::{
    NAME_SIZE, RECORD_ALIGNMENT, RECORD_CRC, RECORD_DATA_PAD, RECORD_FLAGS, RECORD_MARKER,
    RECORD_NAME, RECORD_NAME_LENGTH, RECORD_RESERVED, RECORD_SIZE, RECORD_TYPE, SUMMED_SIZE,
    field_bytes, get_field, set_field,
};
use crate::{RecordKind, RecordRead, VolumeRecord};

// Every flag but autoresize and skip CRC.
const OTHER_FLAGS: u8 = 0xFC;

// The 128 bytes of the name field.
fn name_field(r: &[u8]) -> [u8; NAME_SIZE]
    requires { 172 ≤ length r.now }
    ensures { result ≡ bytes_in record_name r.now }
{
    let mut name = [0u8; NAME_SIZE];
    name.copy_from_slice(field_bytes(r, RECORD_NAME));
    name
}

// The numbers and the name in a record's bytes.
#[tactic(auto, unfolding(crate::specs::Record::record_of))]
pub fn parse(r: &[u8]) -> VolumeRecord
    requires { 172 ≤ length r.now }
    ensures { result ≡ record_of r.now }
{
    VolumeRecord {
        reserved: get_field(r, RECORD_RESERVED) as u32,
        alignment: get_field(r, RECORD_ALIGNMENT) as u32,
        data_pad: get_field(r, RECORD_DATA_PAD) as u32,
        vol_type: get_field(r, RECORD_TYPE) as u8,
        update_marker: get_field(r, RECORD_MARKER) as u8,
        name_length: get_field(r, RECORD_NAME_LENGTH) as u16,
        name: name_field(r),
        flags: get_field(r, RECORD_FLAGS) as u8,
    }
}

// 168 zeroes with their CRC.
pub fn empty_record() -> [u8; RECORD_SIZE]
    ensures { result ≡ empty_record }
{
    let zeroes = [0u8; SUMMED_SIZE];
    let sum = crc32::crc32(&zeroes);
    let mut r = [0xFFu8; RECORD_SIZE];
    r[..SUMMED_SIZE].copy_from_slice(&zeroes);
    set_field(&mut r, RECORD_CRC, sum as u64);
    r
}

// Is a record empty? It is compared whole: reserved 0 alone does not make it so.
#[tactic(auto, unfolding(crate::specs::Record::is_empty))]
pub fn is_empty(r: &[u8], empty: &[u8]) -> bool
    requires { (length r.now ≡ 172) × (empty.now ≡ empty_record) }
    ensures { result ≡ is_empty r.now }
{
    base::same(r, empty)
}

// Does the name have n bytes, none of them zero, and a zero after them?
fn name_ends(name: [u8; NAME_SIZE], n: usize) -> bool
    requires { n < 128 }
    ensures { result ≡ name_ends name n }
{
    name[..n].iter().all(|b| *b != 0) && name[n] == 0
}

// Is the alignment 1 or a multiple of the unit?
fn is_aligned(alignment: u32, unit: u32) -> bool
    ensures { result ≡ (eqb alignment 1 || eqb (alignment % unit) 0) }
{
    alignment == 1 || alignment.is_multiple_of(unit)
}

// Is the volume dynamic or static?
fn is_type(t: u8) -> bool
    ensures { result ≡ (eqb t 1 || eqb t 2) }
{
    t == 1 || t == 2
}

// Do the numbers and the name keep the rules of a record that is not empty?
#[tactic(auto, unfolding(crate::specs::Record::record_rules))]
fn rules_hold(v: VolumeRecord, leb_size: u32, unit: u32) -> bool
    ensures { result ≡ all_of (record_rules leb_size unit v) }
{
    if v.reserved == 0 || v.alignment == 0 || leb_size < v.alignment {
        return false;
    }
    is_aligned(v.alignment, unit)
        && v.data_pad == leb_size % v.alignment
        && is_type(v.vol_type)
        && v.update_marker <= 1
        && v.name_length != 0
        && v.name_length <= 127
        && name_ends(v.name, v.name_length as usize)
        && v.flags & OTHER_FLAGS == 0
}

// Is a record that is not empty good: its CRC, then its numbers and name?
#[tactic(auto, unfolding(crate::specs::Record::record_good, crate::specs::Record::record_crc_matches))]
pub fn is_good(r: &[u8], v: VolumeRecord, leb_size: u32, unit: u32) -> bool
    requires { (length r.now ≡ 172) × (v ≡ record_of r.now) }
    ensures { result ≡ record_good leb_size unit r.now }
{
    crc32::crc32(&r[0..SUMMED_SIZE]) as u64 == get_field(r, RECORD_CRC)
        && rules_hold(v, leb_size, unit)
}

// The record at the start of a slice: what it is, with its numbers and name.
pub fn read_record(bytes: &[u8], leb_size: u32, unit: u32) -> RecordRead
    ensures kind { record_kind result.kind ≡ judge_record leb_size unit bytes.now }
    ensures record { result.record ≡ shown_record bytes.now }
{
    if bytes.len() < RECORD_SIZE {
        let zeroes = [0u8; RECORD_SIZE];
        return RecordRead {
            kind: RecordKind::Short,
            record: parse(&zeroes),
        };
    }
    let r = &bytes[0..RECORD_SIZE];
    let record = parse(r);
    let empty = empty_record();
    if is_empty(r, &empty) {
        return RecordRead {
            kind: RecordKind::Empty,
            record,
        };
    }
    if is_good(r, record, leb_size, unit) {
        return RecordRead {
            kind: RecordKind::Good,
            record,
        };
    }
    RecordRead {
        kind: RecordKind::Bad,
        record,
    }
}
