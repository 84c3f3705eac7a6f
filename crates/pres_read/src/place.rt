//! The state of a reader of a predicate's text.

ghost use Rattle.std.specs.Prelude.{◌≡◌};
ghost use Rattle.pres_read.specs.Progress.{clear};
ghost use Rattle.pres_read.specs.Views.{span_of_level};

use pres_ast::Tree;
use pres_tokens::Relation;

/// What was read after an open parenthesis: the disjunction before the last `
/// `, the conjunction after it and
/// before the last `&&`, and how many `!` follow.
#[derive(Drop)]
pub(crate) struct Level {
    pub ors: Option<Tree>,
    pub ands: Option<Tree>,
    pub nots: u32,
}

impl Level {
    /// The level after an open parenthesis.
    pub fn new() -> Level
        ensures { span_of_level result ≡ clear }
    {
        Level {
            ors: None,
            ands: None,
            nots: 0,
        }
    }
}

/// What surrounds a unit. The level of the innermost open parenthesis is the last one.
#[derive(Drop)]
pub(crate) struct Around {
    pub above: Vec<Level>,
    pub level: Level,
}

/// A term's sign and number, and the offset of its first byte.
#[derive(Clone, Copy)]
pub(crate) struct Factor<'a> {
    pub negative: bool,
    pub digits: &'a [u8],
    pub place: u32,
}

/// What comes next. Inside an atom, `coefs` is the sum of its terms so far.
#[derive(Drop)]
pub(crate) enum Expect<'a> {
    Unit,
    Atom { coefs: Vec<i64>, next: Next<'a> },
    /// `&&`, `||`, `)` or the end, after this conjunction.
    Sign { tree: Tree },
}

/// What comes next in an atom, and what the tokens after its last whole term have given.
#[derive(Clone, Copy)]
pub(crate) enum Next<'a> {
    Term { negative: bool },
    Star { factor: Factor<'a> },
    Name { factor: Factor<'a> },
    /// A relation, or a further term.
    Relation,
    Constant { relation: Relation },
    /// A constant's number, after its `-`.
    Number { relation: Relation },
    /// `mod`, or what follows a unit.
    Modulo { unequal: bool, constant: i64 },
    Modulus { unequal: bool, constant: i64 },
}

#[derive(Drop)]
pub(crate) struct Parser<'a> {
    pub around: Around,
    pub expect: Expect<'a>,
}
