// What one PEB, judged alone, says: its headers, and its first words in the lent tables.
#![tactic(auto)]

mod first_words;
mod headers;

pub use first_words::{first_class, first_counter, is_idle, store_key};
pub use headers::{is_internal, is_mappable, see_ec, see_vid};

// What stands where no good header is: a newer one, all 0xFF, or neither (an EC header is lost then).
#[derive(Clone, Copy)]
pub enum NoHeader {
    Newer,
    Blank,
    Bad,
}
