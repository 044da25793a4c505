// Moving one logical block to another physical block: its beginning.
#![tactic(auto)]

mod beginning;

pub use beginning::begin;
