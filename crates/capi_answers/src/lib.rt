// What the library answers C: one number, and words that C lends.
#![tactic(auto)]

mod store;

pub use store::{
    store_attached, store_begun, store_ec, store_geometry, store_next, store_plan, store_record,
    store_rendered, store_stepped, store_vid,
};

// Answers of this library's own, beside 0 and the refusals' numbers.
pub const ON: u32 = 256;

pub const BAD: u32 = 257;

pub const EMPTY: u32 = 258;

pub const UNFIT: u32 = 259;

// Refusals 18 and 19.
pub const MAY_NOT_RUN: u32 = 18;

pub const NOT_GOOD: u32 = 19;
