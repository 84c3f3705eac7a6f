//! What two states become when they meet.

ghost use Rattle.std.specs.Prelude.{◌<◌, IfSome, Contains};
ghost use Rattle.kernel_ways.specs.Results.{IsResult, IsTossed, results};

use kernel_draws::{Words, below};

/// What two states may become, with its share.
#[derive(Clone, Copy)]
pub struct Outcome {
    pub first: u8,
    pub second: u8,
    pub share: u64,
}

/// Several outcomes. `moving` is the sum of their shares, and `whole` that with the share of what changes nothing.
#[derive(Drop)]
pub struct Coin {
    pub moving: u64,
    pub whole: u64,
    pub outcomes: Vec<Outcome>,
}

/// What becomes of an ordered pair of states: nothing, these two, or what the coin of this number says.
#[derive(Clone, Copy)]
pub enum Cell {
    Silent,
    Sure(u8, u8),
    Coin(usize),
}

/// An ordered pair of states that change, and by which weight: the share that moves, in units of one over the table's
/// scale.
#[derive(Clone, Copy)]
pub struct Meet {
    pub first: u8,
    pub second: u8,
    pub weight: u64,
}

/// All that can happen.
#[derive(Drop)]
pub struct Table {
    pub states: u16,
    pub outputs: [u8; 256],
    pub cells: Vec<Cell>,
    pub coins: Vec<Coin>,
    pub meets: Vec<Meet>,
    pub scale: u64,
}

/// Which of the outcomes has the place `at` among their shares; none where it lies behind them.
fn outcome_at(outcomes: &[Outcome], at: u64) -> Option<(u8, u8)>
    ensures { IfSome result (λ made. Contains (results outcomes.now) made) }
{
    let mut left = at;
    for outcome in outcomes {
        if left < outcome.share {
            return Some((outcome.first, outcome.second));
        }
        left -= outcome.share;
    }
    None
}

impl Coin {
    /// One of the outcomes, each as often as its share of this size; none where it is none of them.
    fn toss(&self, words: &mut Words, size: u64) -> Option<(u8, u8)>
        ensures { IfSome result (λ made. Contains (results self.now.outcomes.items) made) }
    {
        if size == 0 {
            return None;
        }
        outcome_at(self.outcomes.as_slice(), below(words, size))
    }
}

impl Table {
    /// What the coin of this number says, where all shares count or those that move alone.
    fn tossed(&self, words: &mut Words, number: usize, is_moving: bool) -> Option<(u8, u8)>
        ensures { IfSome result (λ made. IsTossed self.now.coins.items number made) }
    {
        let coin = self.coins.get(number)?;
        coin.toss(words, if is_moving { coin.moving } else { coin.whole })
    }

    /// What two states become, where all shares count or those that move alone; none where nothing changes.
    #[inline(always)]
    pub fn met(&self, words: &mut Words, p: u8, q: u8, is_moving: bool) -> Option<(u8, u8)>
        ensures { IfSome result (λ made. IsResult self.now p q made) }
    {
        match *self
            .cells
            .get(usize::from(p) * usize::from(self.states) + usize::from(q))?
        {
            Cell::Silent => None,
            Cell::Sure(first, second) => Some((first, second)),
            Cell::Coin(number) => self.tossed(words, number, is_moving),
        }
    }
}
