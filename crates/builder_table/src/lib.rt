// The volume table that the volume fields of a slip give; refusal 20.
#![tactic(auto)]

mod records;
mod table;

pub use table::volumes_good;
