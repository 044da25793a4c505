// A report as the text of a listing.
#![tactic(auto)]

mod lines;
mod text;
mod write;

pub use text::render;

// A lent table or the buffer is too short: refusal 4.
#[derive(Clone, Copy)]
pub struct TooShort;
