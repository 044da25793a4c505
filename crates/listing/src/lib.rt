// The listing program's whole job: the listing of a dump.
#![tactic(auto)]

mod program;

pub use program::list;
