// The structs of the library as words that C lends: 64 bits each, in the order of include/choduljin.h.
#![tactic(auto)]

mod read;
mod store;
mod write;

pub use read::{attached_fits, attached_in, ec_fits, ec_in, plan_fits, plan_in, vid_fits, vid_in};
pub use store::store_words;
pub use write::{ec_words, geometry_words, plan_words, record_words, report_words, vid_words};

// How many words each struct has.
pub const REPORT_WORDS: usize = 17;

pub const PLAN_WORDS: usize = 24;

pub const GEOMETRY_WORDS: usize = 6;

pub const EC_WORDS: usize = 5;

pub const VID_WORDS: usize = 11;

pub const RECORD_WORDS: usize = 7;

pub const WRITE_WORDS: usize = 3;
