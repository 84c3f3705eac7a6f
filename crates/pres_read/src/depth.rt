//! The charge for the signs, and the number of open parentheses.

ghost use Rattle.std.specs.Prelude.{◌≡◌, ◌≤◌};
ghost use Rattle.pres_tokens.specs.Symbols.{symbol_of, token_of};
ghost use Rattle.pres_read.specs.Outcome.{GivesParsed};
ghost use Rattle.pres_read.specs.Depth.{symbol_charge, charge_of_relation, sunk, surface};
ghost use Rattle.pres_read.specs.Views.{depth_of};

use crate::fault::ReadPred;
use pop_io::Failure;
use pres_ast::WEIGHT_LIMIT;
use pres_tokens::{Kind, Relation, Token};

/// The greatest number of open parentheses.
pub const PARENTHESIS_LIMIT: u32 = 64;

#[derive(Clone, Copy)]
pub(crate) struct Depth {
    pub charge: u32,
    pub parentheses: u32,
}

impl Depth {
    pub fn new() -> Depth
        ensures { depth_of result ≡ surface }
    {
        Depth {
            charge: 0,
            parentheses: 0,
        }
    }

    /// The depth after a token.
    pub fn after(self, token: Token<'_>) -> Result<Depth, Failure<ReadPred>>
        requires charge { self.charge ≤ WEIGHT_LIMIT }
        requires parentheses { self.parentheses ≤ PARENTHESIS_LIMIT }
        ensures { GivesParsed depth_of result (sunk (depth_of self) (token_of token.entry)) }
    {
        let charge = self.charge + charge_of(token.kind);
        let parentheses = match token.kind {
            Kind::Open => self.parentheses + 1,
            Kind::Close => self.parentheses.saturating_sub(1),
            _ => self.parentheses,
        };
        if charge > WEIGHT_LIMIT || parentheses > PARENTHESIS_LIMIT {
            return Err(Failure::Fault(ReadPred::TooDeep(token.place)));
        }
        Ok(Depth {
            charge,
            parentheses,
        })
    }
}

fn charge_of(kind: Kind<'_>) -> u32
    ensures value { result ≡ symbol_charge (symbol_of kind.entry) }
    ensures small { result ≤ 2 }
{
    match kind {
        Kind::Not | Kind::And | Kind::Or => 1,
        Kind::Compare(relation) => relation_charge(relation),
        _ => 0,
    }
}

fn relation_charge(relation: Relation) -> u32
    ensures value { result ≡ charge_of_relation relation }
    ensures small { result ≤ 2 }
{
    match relation {
        Relation::Less | Relation::AtMost | Relation::Greater | Relation::AtLeast => 0,
        Relation::Equal => 1,
        Relation::Unequal => 2,
    }
}
