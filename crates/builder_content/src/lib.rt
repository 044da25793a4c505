// Refusal 21: a length for each volume, and room for it.
#![tactic(auto)]

ghost use Rattle.std.specs.Prelude.{◌≡◌, ℕ, ◌+◌, ◌-◌, ◌*◌, ◌^◌, ◌≤◌, ◌<◌, leb, length, get_or};
ghost use Rattle.base.specs.Answers.{all_of};
ghost use Rattle.base.specs.Below.{all_below, sum_below};
ghost use Rattle.volume_record.specs.Record.{record_of};
ghost use Rattle.volume_table.specs.Table.{record_at};
ghost use Rattle.builder_rules.specs.Build.{content_rules};
ghost use Rattle.builder_rules.specs.Filling.{plan_from, PadsWithin};

use geometry::Geometry;
use volume_record::{RECORD_DATA_PAD, RECORD_RESERVED, RECORD_SIZE, get_field};

// The sum of all lengths, in 64 bits: it passes 32.
fn sum_of(lengths: &[u32]) -> u64
    requires { length lengths.now ≤ 128 }
    ensures { result ≡ sum_below (length lengths.now) (λ (v : ℕ). get_or lengths.now v 0) }
{
    lengths.iter().map(|x| u64::from(*x)).sum()
}

// The bytes that the reserved LEBs of volume v hold, in 64 bits: a product of two numbers passes 32.
fn capacity(table: &[u8], v: usize, leb_size: u32) -> u64
    requires { (v < 128) × ((172 * v + 172 ≤ length table.now)
        × ((record_of (record_at table.now v)).data_pad ≤ leb_size)) }
    ensures { result ≡ (record_of (record_at table.now v)).reserved
        * (leb_size - (record_of (record_at table.now v)).data_pad) }
{
    let at = RECORD_SIZE * v;
    let record = &table[at..at + RECORD_SIZE];
    let room = u64::from(leb_size) - get_field(record, RECORD_DATA_PAD);
    get_field(record, RECORD_RESERVED) * room
}

// Is each volume's content no longer than its reserved LEBs hold?
fn lengths_fit(table: &[u8], leb_size: u32, lengths: &[u32]) -> bool
    requires { (length lengths.now ≤ 128) × ((172 * length lengths.now ≤ length table.now)
        × PadsWithin leb_size (length lengths.now) table.now) }
    ensures { result ≡ all_below (length lengths.now) (λ (v : ℕ). leb (get_or lengths.now v 0)
        ((record_of (record_at table.now v)).reserved
        * (leb_size - (record_of (record_at table.now v)).data_pad))) }
{
    for (v, length) in lengths.iter().enumerate() {
        if capacity(table, v, leb_size) < u64::from(*length) {
            return false;
        }
    }
    true
}

// Do the lengths fit the volumes of a good table, and the content? The rules do not look at the plan's image sequence:
// 0 stands for it.
pub fn content_fits(
    table: &[u8],
    count: usize,
    g: Geometry,
    lengths: &[u32],
    content: &[u8],
) -> bool
    requires { (count ≤ 128) × ((172 * count ≤ length table.now)
        × PadsWithin g.leb_size count table.now) }
    ensures { result ≡ all_of (content_rules
        (plan_from g 0 count table.now lengths.now content.now)) }
{
    if lengths.len() != count {
        return false;
    }
    let bytes = content.len() as u64;
    if sum_of(lengths) != bytes {
        return false;
    }
    lengths_fit(table, g.leb_size, lengths)
}
