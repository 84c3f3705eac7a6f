//! Lines and the pieces of a line, and numbers in decimal digits.
//! It stands on `itoa` alone.
//! The layer above uses: `next_line` and the like give exactly the lines of a text, and `cut` gives its pieces.
#![tactic(auto)]

mod cuts;
mod fault;
mod law;
mod numbers;
mod numerals;
mod print;
mod walks;

pub use cuts::{cut, next_line};
pub use fault::LineFault;
pub use law::lines_are_joined;
pub use numbers::{
    DIGIT_LIMIT, number, number_within, printed_number, printed_within, small_number,
};
pub use numerals::{NUMBER_ROOM, Numerals, put_byte, put_bytes};
pub use print::{push_field, push_number};
pub use walks::{
    one_line, one_line_and_more, three_lines, three_lines_and_more, two_lines, two_lines_and_more,
};
