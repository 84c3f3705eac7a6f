//! A row is above 0, is 0, or is below 0.

ghost use Rattle.std.specs.Prelude.{◌≡◌, ◌≤◌, ◌∷◌, [], nat_abs, negsuc, All, IfOk};
ghost use Rattle.cert_base.specs.declared.fact.Fact.TheVariants.{Ge, Eq};
ghost use Rattle.cert_base.specs.FactsAndCases.{plus, negated_row, signs_of, without_zeros, cases_of_split};
ghost use Rattle.cert_base.specs.Ends.{CoverAll, AreCasesBy};

use crate::fact::{Fact, Row, Term, only};
use crate::limits::SIZE_LIMIT;
use pop_io::{List, NoMemory};
use std::alloc::Global;

/// The three cases, in this order. Their rows have no terms that are 0.
pub fn split_cases(alloc: Global, row: &Row) -> Result<List<List<Fact>>, NoMemory>
    requires coefs { All (λ term. nat_abs term.by ≤ SIZE_LIMIT) row.now.terms }
    requires constant { nat_abs row.now.constant ≤ SIZE_LIMIT }
    // All counts meet all facts of one of the cases.
    ensures { IfOk result (AreCasesBy CoverAll (cases_of_split row.now)) }
{
    let named = without_zeros(alloc, row)?;
    signs(alloc, &named)
}

/// The row without its terms that are 0.
fn without_zeros(alloc: Global, row: &Row) -> Result<Row, NoMemory>
    ensures { IfOk result (λ named. named ≡ without_zeros row.now) }
{
    let terms = row
        .terms
        .as_slice()
        .iter()
        .copied()
        .filter(|term| term.by != 0)
        .collect(alloc)?;
    Ok(Row {
        terms: List::from_vec(terms),
        constant: row.constant,
    })
}

fn signs(alloc: Global, row: &Row) -> Result<List<List<Fact>>, NoMemory>
    requires coefs { All (λ term. nat_abs term.by ≤ SIZE_LIMIT) row.now.terms }
    requires constant { nat_abs row.now.constant ≤ SIZE_LIMIT }
    ensures { IfOk result (λ cases. cases ≡ signs_of row.now) }
{
    let mut cases = Vec::new(alloc);
    cases.push(above(alloc, row)?)?;
    cases.push(zero(alloc, row)?)?;
    cases.push(below(alloc, row)?)?;
    Ok(List::from_vec(cases))
}

/// The row is above 0.
fn above(alloc: Global, row: &Row) -> Result<List<Fact>, NoMemory>
    requires { nat_abs row.now.constant ≤ SIZE_LIMIT }
    ensures { IfOk result (λ facts. facts ≡ Ge (plus row.now (negsuc 0)) ∷ []) }
{
    only(alloc, Fact::Ge(less_one(row.copy(alloc)?)))
}

/// The row is 0.
fn zero(alloc: Global, row: &Row) -> Result<List<Fact>, NoMemory>
    ensures { IfOk result (λ facts. facts ≡ Eq row.now ∷ []) }
{
    only(alloc, Fact::Eq(row.copy(alloc)?))
}

/// The row is below 0.
fn below(alloc: Global, row: &Row) -> Result<List<Fact>, NoMemory>
    requires coefs { All (λ term. nat_abs term.by ≤ SIZE_LIMIT) row.now.terms }
    requires constant { nat_abs row.now.constant ≤ SIZE_LIMIT }
    ensures { IfOk result (λ facts. facts ≡ Ge (plus (negated_row row.now) (negsuc 0)) ∷ []) }
{
    only(alloc, Fact::Ge(less_one(negated(alloc, row)?)))
}

fn less_one(row: Row) -> Row
    requires { nat_abs row.constant ≤ SIZE_LIMIT }
    ensures { result ≡ plus row (negsuc 0) }
{
    let Row { terms, constant } = row;
    Row {
        terms,
        constant: constant - 1,
    }
}

/// The row negated.
fn negated(alloc: Global, row: &Row) -> Result<Row, NoMemory>
    requires coefs { All (λ term. nat_abs term.by ≤ SIZE_LIMIT) row.now.terms }
    requires constant { nat_abs row.now.constant ≤ SIZE_LIMIT }
    ensures { IfOk result (λ turned. turned ≡ negated_row row.now) }
{
    let mut terms = Vec::new(alloc);
    for term in row.terms.as_slice() {
        terms.push(Term {
            at: term.at,
            by: -term.by,
        })?;
    }
    Ok(Row {
        terms: List::from_vec(terms),
        constant: -row.constant,
    })
}
