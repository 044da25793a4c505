// What the beginning of a move asks of blocks, and the EC header of the one that it leaves.
#![tactic(auto)]

mod block;

pub use block::{any_to_delete, is_no_target, new_ec, old_counter};
