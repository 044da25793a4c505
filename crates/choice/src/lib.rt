// Which copy of a logical block (LEB) counts, and the first copy that repeats another.
#![tactic(auto)]

mod chain;
mod chosen;
mod marking;
mod repeat;

pub use chain::{BUCKETS, link_copies};
pub use marking::mark_chosen;
pub use repeat::first_repeat;
