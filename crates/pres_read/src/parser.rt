//! One token further.

ghost use Rattle.std.specs.Prelude.{◌≡◌, ◌≤◌, ◌-◌, Ok, List as Items, ℤ, All, nat_abs, IfOk, length};
ghost use Rattle.pres_ast.specs.declared.limits.TheConstants.{WEIGHT_LIMIT};
ghost use Rattle.pres_ast.specs.PredModel.{AreCoefs};
ghost use Rattle.pres_ast.specs.TreeOf.{tree_of};
ghost use Rattle.pres_tokens.specs.Symbols.{symbol_of, token_of};
ghost use Rattle.pres_read.specs.Outcome.{GivesParsed};
ghost use Rattle.pres_read.specs.Progress.{Around as Surroundings, start};
ghost use Rattle.pres_read.specs.Reading.{after_open, unit_step, first_step, term_step};
ghost use Rattle.pres_read.specs.Atoms.{zero_coefs};
ghost use Rattle.pres_read.specs.Reading.{star_step, name_step, relation_step};
ghost use Rattle.pres_read.specs.Reading.{constant_step, number_step, modulo_step, after_sum};
ghost use Rattle.pres_read.specs.Reading.{equality_step, modulus_step, by_next, step, finish_by, finish, going_on};
ghost use Rattle.pres_read.specs.Reading.{progress_after_constant, progress_after_unit};
ghost use Rattle.pres_read.specs.Atoms.{added, limit_of};
ghost use Rattle.pres_read.specs.Sound.{HasNext};
ghost use Rattle.pres_read.specs.Views.{factor_of, around_of, progress_of, next_in_atom, next_expected};

use crate::atom::{compared, congruent, constant_limit, equal};
use crate::fault::ReadPred;
use crate::number::number_within;
use crate::place::{Around, Expect, Factor, Level, Next, Parser};
use crate::sum::{signed, with_term};
use crate::unit::{after_unit, at_sign, ended, up_to_unit};
use pop_io::{Failure, List, Text};
use pres_ast::{BOUND_LIMIT, COEFFICIENT_LIMIT, MODULUS_LIMIT, Tree};
use pres_tokens::{Kind, Relation, Token};
use std::alloc::{AllocError, Global};
use std::mem;

fn zeros(alloc: Global, names: &List<Text>) -> Result<Vec<i64>, AllocError>
    ensures { IfOk result (λ sum. sum.items ≡ zero_coefs names.now) }
{
    vec![in alloc; 0i64; names.as_slice().len()]
}

fn at_unit<'a>(
    alloc: Global,
    names: &List<Text>,
    around: &mut Around,
    token: Token<'a>,
) -> Result<Expect<'a>, Failure<ReadPred>>
    requires { around.old.level.nots ≤ WEIGHT_LIMIT }
    ensures { GivesParsed (λ e. going_on (around_of around.new) (next_expected e)) result
        (unit_step names.now (around_of around.old) token.entry.place (symbol_of token.entry.kind)) }
{
    match token.kind {
        Kind::Not => {
            around.level.nots += 1;
            Ok(Expect::Unit)
        }
        Kind::Open => opened(around),
        _ => at_first(alloc, names, token),
    }
}

fn opened<'a>(around: &mut Around) -> Result<Expect<'a>, Failure<ReadPred>>
    ensures { GivesParsed
        (λ e. going_on (around_of around.new) (next_expected e)) result (Ok (after_open (around_of around.old))) }
{
    let level = mem::replace(&mut around.level, Level::new());
    around.above.push(level)?;
    Ok(Expect::Unit)
}

/// What follows the first token of a sum, whatever surrounds it.
fn at_first<'a>(
    alloc: Global,
    names: &List<Text>,
    token: Token<'a>,
) -> Result<Expect<'a>, Failure<ReadPred>>
    ensures { (a : Surroundings) → GivesParsed (λ e. going_on a (next_expected e)) result
        (first_step names.now a token.entry.place (symbol_of token.entry.kind)) }
{
    let coefs = zeros(alloc, names)?;
    match token.kind {
        Kind::Minus => Ok(Expect::Atom {
            coefs,
            next: Next::Term { negative: true },
        }),
        _ => at_term(names, coefs, false, token),
    }
}

fn at_term<'a>(
    names: &List<Text>,
    coefs: Vec<i64>,
    negative: bool,
    token: Token<'a>,
) -> Result<Expect<'a>, Failure<ReadPred>>
    requires { AreCoefs (length names.now) coefs.items }
    ensures { (a : Surroundings) → GivesParsed (λ e. going_on a (next_expected e)) result
        (term_step names.now a coefs.items negative token.entry.place (symbol_of token.entry.kind)) }
{
    let place = token.place;
    match token.kind {
        Kind::Name(word) => {
            let digits = b"1".as_slice();
            let factor = Factor {
                negative,
                digits,
                place,
            };
            after_term(names, coefs, factor, word, place)
        }
        Kind::Number(digits) => {
            let factor = Factor {
                negative,
                digits,
                place,
            };
            Ok(Expect::Atom {
                coefs,
                next: Next::Star { factor },
            })
        }
        _ => Err(Failure::Fault(ReadPred::Syntax(place))),
    }
}

/// What follows a term, whose name is the word at `place`.
fn after_term<'a>(
    names: &List<Text>,
    coefs: Vec<i64>,
    factor: Factor<'_>,
    word: &[u8],
    place: u32,
) -> Result<Expect<'a>, Failure<ReadPred>>
    requires { AreCoefs (length names.now) coefs.items }
    ensures { (a : Surroundings) → GivesParsed (λ e. going_on a (next_expected e)) result
        (after_sum a (added names.now coefs.items (factor_of factor.entry) place word.now)) }
{
    let coefs = with_term(coefs, names, factor, word, place)?;
    Ok(Expect::Atom {
        coefs,
        next: Next::Relation,
    })
}

fn at_star<'a>(
    coefs: Vec<i64>,
    factor: Factor<'a>,
    token: Token<'a>,
) -> Result<Expect<'a>, Failure<ReadPred>>
    ensures { (a : Surroundings) → GivesParsed (λ e. going_on a (next_expected e)) result
        (star_step a coefs.items (factor_of factor.entry) token.entry.place (symbol_of token.entry.kind)) }
{
    match token.kind {
        Kind::Star => Ok(Expect::Atom {
            coefs,
            next: Next::Name { factor },
        }),
        _ => Err(Failure::Fault(ReadPred::Syntax(token.place))),
    }
}

fn at_name<'a>(
    names: &List<Text>,
    coefs: Vec<i64>,
    factor: Factor<'a>,
    token: Token<'a>,
) -> Result<Expect<'a>, Failure<ReadPred>>
    requires { AreCoefs (length names.now) coefs.items }
    ensures { (a : Surroundings) → GivesParsed (λ e. going_on a (next_expected e)) result
        (name_step names.now a coefs.items (factor_of factor.entry) token.entry.place
        (symbol_of token.entry.kind)) }
{
    match token.kind {
        Kind::Name(word) => after_term(names, coefs, factor, word, token.place),
        _ => Err(Failure::Fault(ReadPred::Syntax(token.place))),
    }
}

fn at_relation<'a>(coefs: Vec<i64>, token: Token<'a>) -> Result<Expect<'a>, Failure<ReadPred>>
    ensures { (a : Surroundings) → GivesParsed (λ e. going_on a (next_expected e)) result
        (relation_step a coefs.items token.entry.place (symbol_of token.entry.kind)) }
{
    let next = match token.kind {
        Kind::Plus => Next::Term { negative: false },
        Kind::Minus => Next::Term { negative: true },
        Kind::Compare(relation) => Next::Constant { relation },
        _ => return Err(Failure::Fault(ReadPred::Syntax(token.place))),
    };
    Ok(Expect::Atom { coefs, next })
}

fn at_constant<'a>(
    alloc: Global,
    around: &mut Around,
    coefs: Vec<i64>,
    relation: Relation,
    token: Token<'a>,
) -> Result<Expect<'a>, Failure<ReadPred>>
    requires { All (λ a. nat_abs a ≤ COEFFICIENT_LIMIT) coefs.items }
    ensures { GivesParsed (λ e. going_on (around_of around.new) (next_expected e)) result
        (constant_step (around_of around.old) coefs.items relation token.entry.place (symbol_of token.entry.kind)) }
{
    match token.kind {
        Kind::Minus => Ok(Expect::Atom {
            coefs,
            next: Next::Number { relation },
        }),
        _ => at_number(alloc, around, coefs, relation, false, token),
    }
}

/// The constant that a token gives, whatever surrounds it.
fn constant_of(
    relation: Relation,
    negative: bool,
    token: Token<'_>,
) -> Result<i64, Failure<ReadPred>>
    ensures constant { (a : Surroundings) → (coefs : Items ℤ)
        → GivesParsed (λ c. progress_after_constant a coefs relation c) result
        (number_step a coefs relation negative token.entry.place (symbol_of token.entry.kind)) }
    ensures small { IfOk result (λ c. nat_abs c ≤ limit_of relation) }
{
    let Kind::Number(digits) = token.kind else {
        return Err(Failure::Fault(ReadPred::Syntax(token.place)));
    };
    match number_within(digits, constant_limit(relation)) {
        Some(size) => Ok(signed(negative, size)),
        None => Err(Failure::Fault(ReadPred::TooLarge(token.place))),
    }
}

fn at_number<'a>(
    alloc: Global,
    around: &mut Around,
    coefs: Vec<i64>,
    relation: Relation,
    negative: bool,
    token: Token<'a>,
) -> Result<Expect<'a>, Failure<ReadPred>>
    requires { All (λ a. nat_abs a ≤ COEFFICIENT_LIMIT) coefs.items }
    ensures { GivesParsed (λ e. going_on (around_of around.new) (next_expected e)) result
        (number_step (around_of around.old) coefs.items relation negative token.entry.place
        (symbol_of token.entry.kind)) }
{
    let constant = constant_of(relation, negative, token)?;
    after_constant(alloc, around, coefs, relation, constant)
}

fn after_constant<'a>(
    alloc: Global,
    around: &mut Around,
    coefs: Vec<i64>,
    relation: Relation,
    constant: i64,
) -> Result<Expect<'a>, Failure<ReadPred>>
    requires coefs { All (λ a. nat_abs a ≤ COEFFICIENT_LIMIT) coefs.items }
    requires constant { nat_abs constant ≤ limit_of relation }
    ensures { GivesParsed (λ e. going_on (around_of around.new) (next_expected e)) result
        (Ok (progress_after_constant (around_of around.old) coefs.items relation constant)) }
{
    let unequal = match relation {
        Relation::Equal => false,
        Relation::Unequal => true,
        _ => {
            let tree = compared(alloc, coefs, relation, constant)?;
            return after_unit(alloc, around, tree);
        }
    };
    Ok(Expect::Atom {
        coefs,
        next: Next::Modulo { unequal, constant },
    })
}

fn at_modulo<'a>(
    alloc: Global,
    around: &mut Around,
    coefs: Vec<i64>,
    unequal: bool,
    constant: i64,
    token: Token<'a>,
) -> Result<Expect<'a>, Failure<ReadPred>>
    requires coefs { All (λ a. nat_abs a ≤ COEFFICIENT_LIMIT) coefs.items }
    requires constant { nat_abs constant ≤ BOUND_LIMIT - 1 }
    ensures { GivesParsed (λ e. going_on (around_of around.new) (next_expected e)) result
        (modulo_step (around_of around.old) coefs.items unequal constant token.entry.place
        (symbol_of token.entry.kind)) }
{
    match token.kind {
        Kind::Mod => Ok(Expect::Atom {
            coefs,
            next: Next::Modulus { unequal, constant },
        }),
        _ => after_equality(alloc, around, coefs, unequal, constant, token),
    }
}

fn after_equality<'a>(
    alloc: Global,
    around: &mut Around,
    coefs: Vec<i64>,
    unequal: bool,
    constant: i64,
    token: Token<'a>,
) -> Result<Expect<'a>, Failure<ReadPred>>
    requires coefs { All (λ a. nat_abs a ≤ COEFFICIENT_LIMIT) coefs.items }
    requires constant { nat_abs constant ≤ BOUND_LIMIT - 1 }
    ensures { GivesParsed (λ e. going_on (around_of around.new) (next_expected e)) result
        (equality_step (around_of around.old) coefs.items unequal constant token.entry.place
        (symbol_of token.entry.kind)) }
{
    let tree = equal(alloc, coefs, unequal, constant)?;
    let tree = up_to_unit(alloc, &mut around.level, tree)?;
    at_sign(alloc, around, tree, token)
}

/// The tree of a congruence whose modulus is the token, whatever surrounds it.
fn congruence(
    alloc: Global,
    coefs: Vec<i64>,
    unequal: bool,
    constant: i64,
    token: Token<'_>,
) -> Result<Tree, Failure<ReadPred>>
    ensures { (a : Surroundings) → GivesParsed (λ tree. progress_after_unit a (tree_of tree)) result
        (modulus_step a coefs.items unequal constant token.entry.place (symbol_of token.entry.kind)) }
{
    let Kind::Number(digits) = token.kind else {
        return Err(Failure::Fault(ReadPred::Syntax(token.place)));
    };
    match number_within(digits, u64::from(MODULUS_LIMIT)) {
        Some(modulus) if 2 <= modulus => {
            let tree = congruent(alloc, coefs, unequal, constant, modulus as u32)?;
            Ok(tree)
        }
        _ => Err(Failure::Fault(ReadPred::TooLarge(token.place))),
    }
}

fn at_modulus<'a>(
    alloc: Global,
    around: &mut Around,
    coefs: Vec<i64>,
    unequal: bool,
    constant: i64,
    token: Token<'a>,
) -> Result<Expect<'a>, Failure<ReadPred>>
    ensures { GivesParsed (λ e. going_on (around_of around.new) (next_expected e)) result
        (modulus_step (around_of around.old) coefs.items unequal constant token.entry.place
        (symbol_of token.entry.kind)) }
{
    let tree = congruence(alloc, coefs, unequal, constant, token)?;
    after_unit(alloc, around, tree)
}

fn in_atom<'a>(
    alloc: Global,
    names: &List<Text>,
    around: &mut Around,
    coefs: Vec<i64>,
    next: Next<'a>,
    token: Token<'a>,
) -> Result<Expect<'a>, Failure<ReadPred>>
    requires next { HasNext (length names.now) (next_in_atom coefs.items next) }
    ensures { GivesParsed (λ e. going_on (around_of around.new) (next_expected e)) result
        (by_next names.now (around_of around.old) (next_in_atom coefs.items next.entry) token.entry.place
        (symbol_of token.entry.kind)) }
{
    match next {
        Next::Term { negative } => at_term(names, coefs, negative, token),
        Next::Star { factor } => at_star(coefs, factor, token),
        Next::Name { factor } => at_name(names, coefs, factor, token),
        Next::Relation => at_relation(coefs, token),
        Next::Constant { relation } => at_constant(alloc, around, coefs, relation, token),
        Next::Number { relation } => at_number(alloc, around, coefs, relation, true, token),
        Next::Modulo { unequal, constant } => at_modulo(
            alloc, around, coefs, unequal, constant, token,
        ),
        Next::Modulus { unequal, constant } => at_modulus(
            alloc, around, coefs, unequal, constant, token,
        ),
    }
}

/// What follows one more token.
#[tactic(auto, unfolding(crate::specs::Reading::step))]
pub(crate) fn after_token<'a>(
    alloc: Global,
    names: &List<Text>,
    around: &mut Around,
    expect: Expect<'a>,
    token: Token<'a>,
) -> Result<Expect<'a>, Failure<ReadPred>>
    requires nots { around.old.level.nots ≤ WEIGHT_LIMIT }
    requires next { HasNext (length names.now) (next_expected expect) }
    ensures { GivesParsed (λ e. going_on (around_of around.new) (next_expected e)) result
        (step names.now (going_on (around_of around.old) (next_expected expect.entry)) (token_of token.entry)) }
{
    match expect {
        Expect::Unit => at_unit(alloc, names, around, token),
        Expect::Atom { coefs, next } => in_atom(alloc, names, around, coefs, next, token),
        Expect::Sign { tree } => at_sign(alloc, around, tree, token),
    }
}

/// The tree if the text ends here.
#[tactic(auto, unfolding(crate::specs::Reading::finish))]
fn at_end(
    alloc: Global,
    names: &List<Text>,
    around: &mut Around,
    expect: Expect<'_>,
    end: u32,
) -> Result<Tree, Failure<ReadPred>>
    requires next { HasNext (length names.now) (next_expected expect) }
    ensures { GivesParsed tree_of result (finish (going_on (around_of around.old) (next_expected expect.entry)) end) }
{
    match expect {
        Expect::Unit => Err(Failure::Fault(ReadPred::Syntax(end))),
        Expect::Atom { coefs, next } => end_of_atom(alloc, names, around, coefs, next, end),
        Expect::Sign { tree } => ended(alloc, around, tree, end),
    }
}

/// The tree if the text ends in an atom.
fn end_of_atom(
    alloc: Global,
    names: &List<Text>,
    around: &mut Around,
    coefs: Vec<i64>,
    next: Next<'_>,
    end: u32,
) -> Result<Tree, Failure<ReadPred>>
    requires next { HasNext (length names.now) (next_in_atom coefs.items next) }
    ensures { GivesParsed tree_of result
        (finish_by (around_of around.old) (next_in_atom coefs.items next.entry) end) }
{
    let Next::Modulo { unequal, constant } = next else {
        return Err(Failure::Fault(ReadPred::Syntax(end)));
    };
    let tree = equal(alloc, coefs, unequal, constant)?;
    let tree = up_to_unit(alloc, &mut around.level, tree)?;
    ended(alloc, around, tree, end)
}

impl<'a> Parser<'a> {
    pub fn new(alloc: Global) -> Parser<'a>
        ensures { progress_of result ≡ start }
    {
        Parser {
            around: Around {
                above: Vec::new(alloc),
                level: Level::new(),
            },
            expect: Expect::Unit,
        }
    }

    /// Reads one more token.
    pub fn read_token(
        &mut self,
        alloc: Global,
        names: &List<Text>,
        token: Token<'a>,
    ) -> Result<(), Failure<ReadPred>>
        requires nots { self.old.around.level.nots ≤ WEIGHT_LIMIT }
        requires next { HasNext (length names.now) (next_expected self.old.expect) }
        ensures { GivesParsed (λ _. progress_of self.new) result
            (step names.now (progress_of self.old) (token_of token.entry)) }
    {
        let expect = mem::replace(&mut self.expect, Expect::Unit);
        self.expect = after_token(alloc, names, &mut self.around, expect, token)?;
        Ok(())
    }

    /// The tree at the end of the text.
    pub fn finish(
        self,
        alloc: Global,
        names: &List<Text>,
        end: u32,
    ) -> Result<Tree, Failure<ReadPred>>
        requires next { HasNext (length names.now) (next_expected self.expect) }
        ensures { GivesParsed tree_of result (finish (progress_of self.entry) end) }
    {
        let Parser { mut around, expect } = self;
        at_end(alloc, names, &mut around, expect, end)
    }
}
