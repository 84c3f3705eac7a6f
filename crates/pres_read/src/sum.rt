//! The coefficients of a sum, term by term.

ghost use Rattle.std.specs.Prelude.{◌≡◌, ◌≤◌, ◌<◌, length, vec_len, All, nat_abs, pos, ◌+ℤ◌, slice_index_or};
ghost use Rattle.pres_ast.specs.declared.limits.TheConstants.{BOUND_LIMIT};
ghost use Rattle.pres_ast.specs.PredModel.{AreCoefs};
ghost use Rattle.pres_read.specs.Outcome.{GivesParsed};
ghost use Rattle.pres_read.specs.Atoms.{added, with_coef_at, signed_number};
ghost use Rattle.pres_read.specs.Views.{factor_of};

use crate::fault::ReadPred;
use crate::number::number_within;
use crate::place::Factor;
use pop_io::{Failure, List, Text, place_of};
use pres_ast::COEFFICIENT_LIMIT;

/// The coefficients after a further term, whose name is the word at `place`.
pub(crate) fn with_term(
    coefs: Vec<i64>,
    names: &List<Text>,
    factor: Factor<'_>,
    word: &[u8],
    place: u32,
) -> Result<Vec<i64>, Failure<ReadPred>>
    requires { AreCoefs (length names.now) coefs.items }
    ensures { GivesParsed
        (λ sum. sum.items) result (added names.now coefs.items (factor_of factor.entry) place word.now) }
{
    let Some(at) = place_of(names.as_slice(), word) else {
        return Err(Failure::Fault(ReadPred::UnknownName(place)));
    };
    let Some(size) = number_within(factor.digits, COEFFICIENT_LIMIT) else {
        return Err(Failure::Fault(ReadPred::TooLarge(factor.place)));
    };
    let coef = grown(coefs.as_slice(), at, signed(factor.negative, size));
    with_coef(coefs, at, coef, factor.place)
}

fn grown(coefs: &[i64], at: usize, amount: i64) -> i64
    requires at { at < length coefs.now }
    requires coefs { All (λ a. nat_abs a ≤ COEFFICIENT_LIMIT) coefs.now }
    requires amount { nat_abs amount ≤ COEFFICIENT_LIMIT }
    ensures { result ≡ slice_index_or coefs.now at (pos 0) +ℤ amount }
{
    coefs[at] + amount
}

fn with_coef(
    mut coefs: Vec<i64>,
    at: usize,
    coef: i64,
    place: u32,
) -> Result<Vec<i64>, Failure<ReadPred>>
    requires { at < vec_len coefs }
    ensures { GivesParsed (λ sum. sum.items) result (with_coef_at coefs.items at coef place) }
{
    if coef.unsigned_abs() > COEFFICIENT_LIMIT {
        return Err(Failure::Fault(ReadPred::TooLarge(place)));
    }
    coefs[at] = coef;
    Ok(coefs)
}

/// The number with its sign.
pub(crate) fn signed(negative: bool, size: u64) -> i64
    requires { size ≤ BOUND_LIMIT }
    ensures value { result ≡ signed_number negative size }
    ensures small { nat_abs result ≡ size }
{
    if negative {
        -(size as i64)
    } else {
        size as i64
    }
}
