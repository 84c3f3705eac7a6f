//! Whether a combination of facts refutes them.

ghost use Rattle.std.specs.Prelude.{◌≡◌, ◌<◌, length, All, MatchOption, IfOk, OnOk, true};
ghost use Rattle.std.specs.Prelude.{false, negsuc, Some, None};
ghost use Rattle.std.specs.List.{list_any};
ghost use Rattle.cert_base.specs.declared.fact.Row.{Row};
ghost use Rattle.cert_base.specs.ClosingTests.{closes_by_sum, closes_by_residue};
ghost use Rattle.cert_base.specs.ClosingTests.{row_of, denies, is_zero_row, add_rows, times};
ghost use Rattle.cert_linear.specs.Conditions.{AreAscending, IsOrdered, AreMultipliers, AreNamed};
ghost use Rattle.cert_linear.specs.Conditions.{IsCombination, TellsRefuted};
ghost use Rattle.cert_linear.specs.Sums.{may_by, SumsUp, IsTidy, IsSum, IsSame, IsSumWithin};

use crate::sum::{SUM_LIMIT, Sum};
use crate::tally::Tally;
use cert_base::{Fact, Row, Term};
use pop_io::{List, NoMemory};
use std::alloc::Global;

/// Whether the sum of the named facts, each times its multiplier, has no coefficient above 0 and a constant below 0
/// (Farkas' lemma). A `Ge` may have a multiplier that is at least 0, an `Eq` any.
pub fn linear_closes(
    alloc: Global,
    facts: &List<Fact>,
    terms: &List<Term>,
) -> Result<bool, NoMemory>
    requires { IsCombination facts.now terms.now }
    ensures { IfOk result (TellsRefuted facts.now (closes_by_sum facts.now terms.now)) }
{
    Tally::new(alloc).closes(alloc, facts.as_slice(), 0, terms.as_slice())
}

/// Whether the sum of the named facts, each times its multiplier, is no multiple of the modulus by its constant alone
/// or by a `NotCong` of the list. An `Eq` may be named, and a `Cong` with this modulus.
pub fn residue_closes(
    alloc: Global,
    facts: &List<Fact>,
    modulus: u32,
    terms: &List<Term>,
) -> Result<bool, NoMemory>
    requires combination { IsCombination facts.now terms.now }
    requires modulus { 0 < modulus }
    ensures { IfOk result (TellsRefuted facts.now (closes_by_residue facts.now modulus terms.now)) }
{
    residue(
        &mut Sum::new(alloc),
        facts.as_slice(),
        modulus,
        terms.as_slice(),
    )
}

/// The same with a sum that is reused.
pub(crate) fn residue(
    sum: &mut Sum,
    facts: &[Fact],
    modulus: u32,
    terms: &[Term],
) -> Result<bool, NoMemory>
    requires tidy { IsTidy sum.old }
    requires named { AreNamed (length facts.now) terms.now }
    requires multipliers { AreMultipliers terms.now }
    requires modulus { 0 < modulus }
    requires ordered { All IsOrdered facts.now }
    ensures closes { IfOk result (λ closes. closes ≡ closes_by_residue facts.now modulus terms.now) }
    ensures tidy { IsTidy sum.new }
{
    if !sum_up(sum, facts, terms, Some(modulus))? {
        return Ok(false);
    }
    if sum.is_constant(modulus) {
        return Ok(true);
    }
    is_denied(sum, facts, modulus)
}

/// Sums up the named facts, unless one may not have its multiplier.
pub(crate) fn sum_up(
    sum: &mut Sum,
    facts: &[Fact],
    terms: &[Term],
    modulus: Option<u32>,
) -> Result<bool, NoMemory>
    requires tidy { IsTidy sum.old }
    requires named { AreNamed (length facts.now) terms.now }
    requires multipliers { AreMultipliers terms.now }
    requires ordered { All IsOrdered facts.now }
    ensures sum { IfOk result (SumsUp modulus facts.now terms.now sum.new) }
    ensures tidy { IsTidy sum.new }
{
    sum.clear();
    for term in terms {
        let Some(row) = row_to_add(&facts[term.at as usize], term.by, modulus) else {
            return Ok(false);
        };
        sum.add(row, term.by)?;
    }
    Ok(true)
}

/// The row of a fact, if it may have the multiplier.
fn row_to_add(fact: &Fact, by: i64, modulus: Option<u32>) -> Option<&Row>
    ensures { MatchOption result (may_by modulus by fact.now ≡ false)
        (λ row. (may_by modulus by fact.now ≡ true) × (row.now ≡ row_of fact.now)) }
{
    match (fact, modulus) {
        (Fact::Ge(row), None) if by >= 0 => Some(row),
        (Fact::Eq(row), _) => Some(row),
        (Fact::Cong(row, own), Some(modulus)) if *own == modulus => Some(row),
        _ => None,
    }
}

/// Whether a `NotCong` of the facts, with this modulus, has a row that differs from the sum by multiples of the
/// modulus.
fn is_denied(sum: &mut Sum, facts: &[Fact], modulus: u32) -> Result<bool, NoMemory>
    requires modulus { 0 < modulus }
    requires ordered { All IsOrdered facts.now }
    requires tidy { IsTidy sum.old }
    requires size { IsSumWithin SUM_LIMIT sum.old }
    ensures denied { IfOk result
        (λ denied. (row : Row) → IsSum row sum.old → denied ≡ list_any (denies modulus row) facts.now) }
    ensures tidy { IsTidy sum.new }
{
    for fact in facts {
        if is_denied_by(sum, fact, modulus)? {
            return Ok(true);
        }
    }
    Ok(false)
}

/// Whether a fact is a `NotCong` with this modulus, and its row differs from the sum by multiples of the modulus.
fn is_denied_by(sum: &mut Sum, fact: &Fact, modulus: u32) -> Result<bool, NoMemory>
    requires modulus { 0 < modulus }
    requires ordered { IsOrdered fact.now }
    requires tidy { IsTidy sum.old }
    requires size { IsSumWithin SUM_LIMIT sum.old }
    ensures value { IfOk result (λ denied. (row : Row) → IsSum row sum.old → denied ≡ denies modulus row fact.now) }
    ensures stays { OnOk result (IsSame sum.old sum.new) }
    ensures tidy { IsTidy sum.new }
{
    match fact {
        Fact::NotCong(row, own) if *own == modulus => agrees(sum, row, modulus),
        _ => Ok(false),
    }
}

/// Whether a row differs from the sum by multiples of the modulus. The sum is unchanged.
fn agrees(sum: &mut Sum, row: &Row, modulus: u32) -> Result<bool, NoMemory>
    requires modulus { 0 < modulus }
    requires ascending { AreAscending row.now.terms }
    requires tidy { IsTidy sum.old }
    requires size { IsSumWithin SUM_LIMIT sum.old }
    ensures value { IfOk result
        (λ agrees. (other : Row) → IsSum other sum.old
        → agrees ≡ is_zero_row modulus (add_rows other (times (negsuc 0) row.now))) }
    ensures stays { OnOk result (IsSame sum.old sum.new) }
    ensures tidy { IsTidy sum.new }
{
    sum.add(row, -1)?;
    let agrees = sum.vanishes(modulus);
    sum.add(row, 1)?;
    Ok(agrees)
}
