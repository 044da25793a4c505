// Which of the two copies of the volume table counts.
#![tactic(auto)]

ghost use Rattle.std.specs.Prelude.{◌≡◌, ◌&&◌, cond};
ghost use Rattle.base.specs.Answers.{given, refused};
ghost use Rattle.volume_table.specs.Table.{taken_leb, records_taken, copies_mark_of, taken_number};

use volume_table::{TableChoice, records_part, table_good};

// The choice where the copies' records are equal.
fn choice_of_equal(good: bool) -> TableChoice
    ensures { (taken_number result.taken ≡ cond good (given 0) (cond good (given 1) (refused 11 0)))
        × (result.copies_mark ≡ cond good 0 1) }
{
    if good {
        TableChoice {
            taken: Some(0),
            copies_mark: 0,
        }
    } else {
        TableChoice {
            taken: None,
            copies_mark: 1,
        }
    }
}

// The choice where they differ.
fn choice_of(good0: bool, good1: bool) -> TableChoice
    ensures { (taken_number result.taken ≡ cond good0 (given 0) (cond good1 (given 1) (refused 11 0)))
        × (result.copies_mark ≡ cond (good0 && good1) 2 1) }
{
    let (taken, copies_mark) = match (good0, good1) {
        (true, true) => (Some(0), 2),
        (true, false) => (Some(0), 1),
        (false, true) => (Some(1), 1),
        (false, false) => (None, 1),
    };
    TableChoice { taken, copies_mark }
}

// Which copy's table is taken, and the copies mark. A copy of a LEB that is not mapped has no bytes.
pub fn choose_table(
    copy0: &[u8],
    copy1: &[u8],
    leb_size: u32,
    unit: u32,
    peb_count: u32,
) -> TableChoice
    ensures taken { taken_number result.taken
        ≡ taken_leb leb_size unit peb_count copy0.now copy1.now }
    ensures mark { result.copies_mark
        ≡ copies_mark_of leb_size unit peb_count copy0.now copy1.now }
{
    let good0 = table_good(copy0, leb_size, unit, peb_count);
    if base::same(records_part(copy0, leb_size), records_part(copy1, leb_size)) {
        // equal records are judged once
        return choice_of_equal(good0);
    }
    choice_of(good0, table_good(copy1, leb_size, unit, peb_count))
}

// The records of the table taken, as part of its copy; no bytes where neither is taken.
pub fn taken_table<'a>(
    copy0: &'a [u8],
    copy1: &'a [u8],
    taken: Option<u32>,
    leb_size: u32,
) -> &'a [u8]
    ensures { result.now ≡ records_taken leb_size (taken_number taken) copy0.now copy1.now }
{
    match taken {
        None => &copy0[..0],
        Some(0) => records_part(copy0, leb_size),
        Some(_) => records_part(copy1, leb_size),
    }
}
