// From the sorted map and the table taken: volume states, and the entries that refusal 12 names.
#![tactic(auto)]

mod entries;
mod misfit;
mod record;
mod state;

pub use misfit::first_misfit;
pub use state::fill_states;

// The numbers of a volume's record that are compared with its entries.
#[derive(Clone, Copy)]
pub struct RecordNumbers {
    pub reserved: u32,
    pub data_pad: u32,
    pub vol_type: u8,
    pub marker: u8,
    pub flags: u8,
}
