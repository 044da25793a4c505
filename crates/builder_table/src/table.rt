// The records of all volume fields, and empty ones after them.
ghost use Rattle.std.specs.Prelude.{◌≡◌, true, ◌+◌, ◌*◌, ◌≤◌, length, drop, ◌++◌};
ghost use Rattle.base.specs.Answers.{all_of};
ghost use Rattle.base.specs.Below.{concat_below};
ghost use Rattle.base.specs.Lists.{part};
ghost use Rattle.volume_table.specs.Table.{record_count};
ghost use Rattle.builder_rules.specs.Slip.{length_at, volume_count};
ghost use Rattle.builder_rules.specs.Table.{fields_fit, record_from, slip_table, volume_rules};

use crate::records::store_record;
use builder_slip::FIELD_HEAD_SIZE;
use geometry::{Geometry, HEAD_SIZE};
use volume_record::{RECORD_SIZE, empty_record};
use volume_table::record_count;

// So many bytes has the value of a volume field at least, and at most.
const MIN_VALUE: usize = 11;

const MAX_VALUE: usize = 137;

// The value of the volume field at `at`.
fn value_at<'a>(slip: &'a [u8], at: usize) -> &'a [u8]
    requires { at + (3 + length_at slip.now at) ≤ length slip.now }
    ensures { result.now ≡ part (at + 3) (length_at slip.now at) slip.now }
{
    let from = at + FIELD_HEAD_SIZE;
    let end = from + field::read(slip, at + 1, 2) as usize;
    &slip[from..end]
}

// Have the values of all volume fields 11 to 137 bytes?
fn values_fit(slip: &[u8], count: usize) -> bool
    requires { count ≡ volume_count slip.now }
    ensures { result ≡ fields_fit slip.now }
{
    let mut at = HEAD_SIZE;
    for _i in 0..count {
        let len = value_at(slip, at).len();
        if len < MIN_VALUE {
            return false;
        }
        if MAX_VALUE < len {
            return false;
        }
        at += FIELD_HEAD_SIZE + len;
    }
    true
}

// The records of the volume fields are stored.
fn store_records(slip: &[u8], count: usize, leb_size: u32, table: &mut [u8])
    requires { ((count ≡ volume_count slip.now) × (fields_fit slip.now ≡ true))
        × ((count ≤ 128) × (count * 172 ≤ length table.old)) }
    ensures { table.new
        ≡ concat_below count (record_from leb_size slip.now) ++ drop (count * 172) table.old }
{
    let mut at = HEAD_SIZE;
    for i in 0..count {
        let value = value_at(slip, at);
        store_record(value, leb_size, table, i);
        at += FIELD_HEAD_SIZE + value.len();
    }
}

// The whole table: the records of the volume fields, then empty ones.
fn fill_table(slip: &[u8], count: usize, leb_size: u32, table: &mut [u8])
    requires { ((count ≡ volume_count slip.now) × (fields_fit slip.now ≡ true))
        × ((count ≤ record_count leb_size) × (length table.old ≡ record_count leb_size * 172)) }
    ensures { table.new ≡ slip_table leb_size slip.now }
{
    store_records(slip, count, leb_size, table);
    let empty = empty_record();
    for i in count..record_count(leb_size) {
        base::store(table, i * RECORD_SIZE, &empty);
    }
}

// Do the volume fields make a good table on a chip of so many PEBs? Then `table`, as long as the records, holds it.
pub fn volumes_good(
    slip: &[u8],
    count: usize,
    g: Geometry,
    peb_count: u32,
    table: &mut [u8],
) -> bool
    requires { (count ≡ volume_count slip.now) × (length table.old ≡ record_count g.leb_size * 172) }
    ensures good { result ≡ all_of (volume_rules g peb_count slip.now) }
    ensures table { result ≡ true → table.new ≡ slip_table g.leb_size slip.now }
{
    if record_count(g.leb_size) < count {
        return false;
    }
    if !values_fit(slip, count) {
        return false;
    }
    fill_table(slip, count, g.leb_size, table);
    volume_table::table_good(table, g.leb_size, g.unit, peb_count)
}
