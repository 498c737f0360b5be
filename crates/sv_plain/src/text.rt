// Text: the digits of numbers, and the listing of a file system.
mod digits;
mod tree_text;

pub use digits::{are_lower_hex, number_of, value_of};
pub use tree_text::listing;
