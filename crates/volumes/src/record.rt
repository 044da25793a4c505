// The numbers of a volume's record.
ghost use Rattle.std.specs.Prelude.{◌≡◌, ◌+◌, ◌*◌, ◌≤◌, ◌<◌, length};
ghost use Rattle.base.specs.Lists.{part};
ghost use Rattle.volume_record.specs.Record.{record_of};
ghost use Rattle.volume_table.specs.Table.{record_count};
ghost use Rattle.volumes.specs.Sorted.{numbers_of, NumbersOf};

use crate::RecordNumbers;
use volume_record::{
    RECORD_DATA_PAD, RECORD_FLAGS, RECORD_MARKER, RECORD_RESERVED, RECORD_SIZE, RECORD_TYPE,
    get_field,
};

// The numbers of the record at `at`.
fn numbers_at(records: &[u8], at: usize) -> RecordNumbers
    requires { at + 172 ≤ length records.now }
    ensures { result ≡ numbers_of (record_of (part at 172 records.now)) }
{
    let r = &records[at..at + RECORD_SIZE];
    RecordNumbers {
        reserved: get_field(r, RECORD_RESERVED) as u32,
        data_pad: get_field(r, RECORD_DATA_PAD) as u32,
        vol_type: get_field(r, RECORD_TYPE) as u8,
        marker: get_field(r, RECORD_MARKER) as u8,
        flags: get_field(r, RECORD_FLAGS) as u8,
    }
}

// The numbers of a volume's record, if the table has one that reserves PEBs.
pub fn record_numbers(records: &[u8], leb_size: u32, volume: usize) -> Option<RecordNumbers>
    requires { (length records.now ≡ 172 * record_count leb_size) × (volume < 128) }
    ensures { NumbersOf records.now volume result }
{
    if volume_table::record_count(leb_size) <= volume {
        return None;
    }
    let r = numbers_at(records, RECORD_SIZE * volume);
    if r.reserved == 0 {
        return None;
    }
    Some(r)
}
