// The volume table in a layout LEB: its records, and whether it is good.
#![tactic(auto)]

mod table;

pub use table::{record_count, records_part, table_good};

// The layout LEB whose table is taken, 0 or 1, if one is (none is refusal 11), and the copies mark.
#[derive(Clone, Copy)]
pub struct TableChoice {
    pub taken: Option<u32>,
    pub copies_mark: u32,
}

// What a pass over records adds up: PEBs reserved, and how many autoresize.
#[derive(Clone, Copy)]
struct Tally {
    reserved: u64,
    autoresize: u32,
}
