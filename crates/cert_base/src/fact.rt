//! Facts about the counts of an execution.

ghost use Rattle.std.specs.Prelude.{◌≡◌, ◌∷◌, [], IfOk};

use pop_io::{List, NoMemory};
use pres_ast::Pred;
use std::alloc::Global;

/// A number of a variable or of a fact, and its coefficient or multiplier.
#[derive(Clone, Copy, PartialEq, Eq)]
pub struct Term {
    pub at: u32,
    pub by: i64,
}

/// A sum of variables with coefficients, and a constant.
///
/// The variables of a leaf are numbered consecutively: first one per input, how often it was given; then one per state,
/// how many agents are in it at the end; then one per move, how often it was taken.
#[derive(Drop)]
pub struct Row {
    pub terms: List<Term>,
    pub constant: i64,
}

/// A statement about the counts of an execution.
#[derive(Drop)]
pub enum Fact {
    /// The row is at least 0.
    Ge(Row),
    /// The row is 0.
    Eq(Row),
    /// The row is a multiple of the modulus.
    Cong(Row, u32),
    /// The row is no multiple of the modulus.
    NotCong(Row, u32),
    /// The predicate has this value at the inputs.
    Holds(Pred, bool),
}

impl Fact {
    /// An equal fact.
    pub fn copy(&self, alloc: Global) -> Result<Fact, NoMemory>
        ensures { IfOk result (λ fact. fact ≡ self.now) }
    {
        Ok(match self {
            Fact::Ge(row) => Fact::Ge(row.copy(alloc)?),
            Fact::Eq(row) => Fact::Eq(row.copy(alloc)?),
            Fact::Cong(row, modulus) => Fact::Cong(row.copy(alloc)?, *modulus),
            Fact::NotCong(row, modulus) => Fact::NotCong(row.copy(alloc)?, *modulus),
            Fact::Holds(pred, value) => Fact::Holds(pred.copy(alloc)?, *value),
        })
    }
}

/// The list of one fact.
pub fn only(alloc: Global, fact: Fact) -> Result<List<Fact>, NoMemory>
    ensures { IfOk result (λ facts. facts ≡ fact ∷ []) }
{
    let mut facts = Vec::new(alloc);
    facts.push(fact)?;
    Ok(List::from_vec(facts))
}
