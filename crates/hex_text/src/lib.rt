// Hexadecimal digits of the house text: numbers read from lent parts, a number written into a lent part, and lines.
#![tactic(auto)]

mod block;
mod line;
mod numbers;
mod words;
mod writer;

pub use block::Lines;
pub use line::is_line;
pub use numbers::{number_of_four, number_of_two};
pub use words::{number_of_words, word};
pub use writer::write_digits;

// The byte that ends a line.
pub const LINE_END: u8 = 10;
