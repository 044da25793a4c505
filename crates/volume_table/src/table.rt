// The volume table: its records, and whether it is good.
ghost use Rattle.std.specs.Prelude.{◌≡◌, IfSome, not, ◌&&◌, ℕ, ◌+◌, ◌-◌, ◌*◌, ◌^◌, ◌≤◌, ◌<◌, length};
ghost use Rattle.base.specs.Below.{any_below};
ghost use Rattle.base.specs.Lists.{eqs};
ghost use Rattle.volume_record.specs.Record.{empty_record, is_empty};
ghost use Rattle.volume_table.specs.Table.{record_count, records_part, record_at, name_of, same_names, reserved_limit};
ghost use Rattle.volume_table.specs.Table.{table_good};
ghost use Rattle.volume_table.specs.Sums.{tallied, TallyOf};

use crate::Tally;
use volume_record::{
    AUTORESIZE, RECORD_NAME, RECORD_NAME_LENGTH, RECORD_SIZE, empty_record, field_bytes, get_field,
    is_empty, is_good, parse,
};

// "at most 128"
const MOST_RECORDS: usize = 128;

// "at most one autoresizes"
const MOST_AUTORESIZE: u32 = 1;

// How many records a table has.
#[tactic(auto, unfolding(crate::specs::Table::record_count))]
pub fn record_count(leb_size: u32) -> usize
    ensures { result ≡ record_count leb_size }
{
    (leb_size as usize / RECORD_SIZE).min(MOST_RECORDS)
}

// The records' part of a layout LEB's content; all of it where it is shorter.
pub fn records_part<'a>(content: &'a [u8], leb_size: u32) -> &'a [u8]
    ensures { result.now ≡ records_part leb_size content.now }
{
    let len = RECORD_SIZE * record_count(leb_size);
    content.get(..len).unwrap_or(content)
}

// The name's bytes, where they stand in a record; a name ends with its field.
fn name_of<'a>(r: &'a [u8]) -> &'a [u8]
    requires { length r.now ≡ 172 }
    ensures { result.now ≡ name_of r.now }
{
    let name = field_bytes(r, RECORD_NAME);
    let n = get_field(r, RECORD_NAME_LENGTH) as usize;
    name.get(..n).unwrap_or(name)
}

// Is the record r not empty, with the name of the record s?
fn names_clash(r: &[u8], s: &[u8], empty: &[u8]) -> bool
    requires { (length r.now ≡ 172) × ((length s.now ≡ 172) × (empty.now ≡ empty_record)) }
    ensures { result ≡ (not (is_empty r.now) && eqs (name_of r.now) (name_of s.now)) }
{
    base::same(name_of(r), name_of(s)) && !is_empty(r, empty)
}

// Does record j, if it is not empty, have the name of one before it?
fn name_repeats(t: &[u8], j: usize, empty: &[u8]) -> bool
    requires { (j < 128) × ((172 * j + 172 ≤ length t.now) × (empty.now ≡ empty_record)) }
    ensures { result ≡ any_below j (λ (i : ℕ).
        same_names (record_at t.now i) (record_at t.now j)) }
{
    let b = RECORD_SIZE * j;
    let s = &t[b..b + RECORD_SIZE];
    if is_empty(s, empty) {
        return false;
    }
    for i in 0..j {
        let a = RECORD_SIZE * i;
        if names_clash(&t[a..a + RECORD_SIZE], s, empty) {
            return true;
        }
    }
    false
}

// Do no two nonempty records of the first n have the same name?
fn names_differ(t: &[u8], n: usize, empty: &[u8]) -> bool
    requires { (n ≤ 128) × ((172 * n ≤ length t.now) × (empty.now ≡ empty_record)) }
    ensures { result ≡ not (any_below n (λ (j : ℕ). any_below j (λ (i : ℕ).
        same_names (record_at t.now i) (record_at t.now j)))) }
{
    for j in 0..n {
        if name_repeats(t, j, empty) {
            return false;
        }
    }
    true
}

// The sums with one record more, if it is empty or good.
#[tactic(auto, unfolding(crate::specs::Sums::tallied, crate::specs::Table::empty_or_good))]
fn tally_record(sum: Tally, r: &[u8], leb_size: u32, unit: u32, empty: &[u8]) -> Option<Tally>
    requires { (length r.now ≡ 172) × ((empty.now ≡ empty_record)
        × ((sum.reserved < 2 ^ 40) × (sum.autoresize < 128))) }
    ensures sums { result ≡ tallied leb_size unit sum r.now }
    ensures small { IfSome result (λ u. (u.reserved < sum.reserved + 2 ^ 32)
        × (u.autoresize ≤ sum.autoresize + 1)) }
{
    let v = parse(r);
    if !is_empty(r, empty) && !is_good(r, v, leb_size, unit) {
        return None;
    }
    Some(Tally {
        reserved: sum.reserved + v.reserved as u64,
        autoresize: sum.autoresize + (v.flags & AUTORESIZE) as u32,
    })
}

// What the first n records reserve and how many autoresize, if all are empty or good.
fn tally(t: &[u8], n: usize, leb_size: u32, unit: u32, empty: &[u8]) -> Option<Tally>
    requires { (n ≤ 128) × ((172 * n ≤ length t.now) × (empty.now ≡ empty_record)) }
    ensures { TallyOf n leb_size unit t.now result }
{
    let mut sum = Tally {
        reserved: 0,
        autoresize: 0,
    };
    for i in 0..n {
        let at = RECORD_SIZE * i;
        sum = tally_record(sum, &t[at..at + RECORD_SIZE], leb_size, unit, empty)?;
    }
    Some(sum)
}

// Is the table in a layout LEB's content good?
pub fn table_good(content: &[u8], leb_size: u32, unit: u32, peb_count: u32) -> bool
    ensures { result ≡ table_good leb_size unit peb_count content.now }
{
    let n = record_count(leb_size);
    if n == 0 {
        return false;
    }
    if content.len() < RECORD_SIZE * n {
        return false;
    }
    let t = records_part(content, leb_size);
    let empty = empty_record();
    let Some(sum) = tally(t, n, leb_size, unit, &empty) else {
        return false;
    };
    sum.autoresize <= MOST_AUTORESIZE
        && sum.reserved <= most_reserved(peb_count)
        && names_differ(t, n, &empty)
}

// "PEB count less 2", and not below 0.
fn most_reserved(peb_count: u32) -> u64
    ensures { result ≡ reserved_limit peb_count }
{
    u64::from(peb_count.saturating_sub(2))
}
