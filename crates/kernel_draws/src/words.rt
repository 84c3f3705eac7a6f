//! The random words of a run.

use rand_core::{Rng, SeedableRng};
use rand_xoshiro::Xoshiro256PlusPlus;

/// The words of a seed. Xoshiro256++ is a generator of Blackman and Vigna.
#[derive(Drop)]
pub struct Words {
    generator: Xoshiro256PlusPlus,
}

impl Words {
    /// The words of this seed. It allocates nothing.
    pub fn new(seed: u64) -> Words {
        Words {
            generator: Xoshiro256PlusPlus::seed_from_u64(seed),
        }
    }

    /// The next word.
    #[inline(always)]
    pub fn next(&mut self) -> u64 {
        self.generator.next_u64()
    }
}

/// The bits behind a word, where a draw needs more of them: they are made of the word itself, so that the words that
/// follow do not hang on whether they were needed.
pub fn more(word: u64) -> u64 {
    let mixed = (word ^ (word >> 30)).wrapping_mul(0xBF58_476D_1CE4_E5B9);
    let again = (mixed ^ (mixed >> 27)).wrapping_mul(0x94D0_49BB_1331_11EB);
    again ^ (again >> 31)
}
