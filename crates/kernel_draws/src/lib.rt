//! Draws from random words: a number below another, two different agents, how many trials fail before one succeeds.
//! It stands on `rand_xoshiro` and `rand_core`.
//! The layer above uses: what a word stands for, and that each number, and each pair, has equally many words.
#![tactic(auto)]

mod fraction;
mod law;
mod numbers;
mod pair;
mod skip;
mod words;

pub use fraction::{share, times};
pub use law::draws_are_uniform;
pub use numbers::{TRIES, below, below_wide, bound_of, number_below};
pub use pair::pair_of;
pub use skip::{SKIP_BITS, skipped};
pub use words::Words;
