//! Numbers, and lists of terms and of states.

ghost use Rattle.std.specs.Prelude.{◌≡◌, ◌-◌};
ghost use Rattle.serde_json.specs.View.{view};
ghost use Rattle.cert_base.specs.declared.limits.TheConstants.{INDEX_COUNT};
ghost use Rattle.base_json.specs.Faults.{GivesRead};
ghost use Rattle.base_json.specs.Paths.{path_text};
ghost use Rattle.base_json.specs.Shapes.{ascending_at, last_of};
ghost use Rattle.cert_json.specs.Examined.{index_at, state_at, modulus_at, small_at};
ghost use Rattle.cert_json.specs.Examined.{terms_at, numbers_of, row_terms_at, set_states_at};

use base_json::{
    FormatFault, Path, ReadItem, ascending_of, each_of, integer_of, number_of, pair_of,
};
use cert_base::{SIZE_LIMIT, TERM_LIMIT, Term};
use pop_io::List;
use pop_net::STATE_LIMIT;
use pres_ast::MODULUS_LIMIT;
use serde_json::Value;
use std::alloc::Global;

/// The number of a fact, a variable or a move.
pub(crate) fn index_of(alloc: Global, path: &Path<'_>, value: &Value) -> Result<u32, FormatFault>
    ensures { GivesRead (λ n. n) result (index_at (path_text path.now) (view value.now)) }
{
    number_of(alloc, path, 0, u32::MAX, value)
}

/// The number of a state.
pub(crate) fn state_of(alloc: Global, path: &Path<'_>, value: &Value) -> Result<u16, FormatFault>
    ensures { GivesRead (λ n. n) result (state_at (path_text path.now) (view value.now)) }
{
    let state = number_of(alloc, path, 0, u32::from(u16::MAX), value)?;
    Ok(state as u16)
}

pub(crate) fn modulus_of(alloc: Global, path: &Path<'_>, value: &Value) -> Result<u32, FormatFault>
    ensures { GivesRead (λ n. n) result (modulus_at (path_text path.now) (view value.now)) }
{
    number_of(alloc, path, 2, MODULUS_LIMIT, value)
}

/// A weight, a multiplier, a coefficient or a constant.
pub(crate) fn small_of(alloc: Global, path: &Path<'_>, value: &Value) -> Result<i64, FormatFault>
    ensures { GivesRead (λ z. z) result (small_at (path_text path.now) (view value.now)) }
{
    integer_of(alloc, path, SIZE_LIMIT, value)
}

/// Numbers of facts, each with its multiplier.
#[derive(Clone, Copy)]
struct Terms;

impl ReadItem for Terms {
    ghost use Rattle.std.specs.Prelude.{⊤};
    ghost use Rattle.cert_json.specs.Examined.{term_item};

    type Item = Term;

    ghost can_read = { λ _. ⊤ };

    ghost item_at = { λ _. term_item };

    #[tactic(auto, unfolding(crate::specs::Examined::term_at))]
    fn read(
        &self,
        alloc: Global,
        path: &Path<'_>,
        _found: &[Term],
        value: &Value,
    ) -> Result<Term, FormatFault> {
        let (number, multiplier) = pair_of(alloc, path, value)?;
        let at = index_of(alloc, &Path::Item(path, 0), number)?;
        let by = small_of(alloc, &Path::Item(path, 1), multiplier)?;
        Ok(Term { at, by })
    }
}

/// At most `TERM_LIMIT` numbers of facts, each with its multiplier.
pub(crate) fn terms_of(
    alloc: Global,
    path: &Path<'_>,
    value: &Value,
) -> Result<List<Term>, FormatFault>
    ensures { GivesRead (λ ts. ts) result (terms_at (path_text path.now) (view value.now)) }
{
    each_of(alloc, path, 0, TERM_LIMIT, &Terms, value)
}

fn variable_of(
    alloc: Global,
    path: &Path<'_>,
    before: Option<u32>,
    value: &Value,
) -> Result<u32, FormatFault>
    ensures { GivesRead (λ n. n) result (ascending_at (path_text path.now) (INDEX_COUNT - 1) before (view value.now)) }
{
    ascending_of(alloc, path, u32::MAX, before, value)
}

/// The number of the last term.
fn last_number(found: &[Term]) -> Option<u32>
    ensures { result ≡ last_of (numbers_of found.now) }
{
    match found.last() {
        None => None,
        Some(term) => Some(term.at),
    }
}

/// Numbers of variables that ascend, each with its coefficient.
#[derive(Clone, Copy)]
struct RowTerms;

impl ReadItem for RowTerms {
    ghost use Rattle.std.specs.Prelude.{⊤};
    ghost use Rattle.cert_json.specs.Examined.{row_term_item};

    type Item = Term;

    ghost can_read = { λ _. ⊤ };

    ghost item_at = { λ _. row_term_item };

    #[tactic(auto, unfolding(crate::specs::Examined::row_term_at))]
    fn read(
        &self,
        alloc: Global,
        path: &Path<'_>,
        found: &[Term],
        value: &Value,
    ) -> Result<Term, FormatFault> {
        let (number, coefficient) = pair_of(alloc, path, value)?;
        let before = last_number(found);
        let at = variable_of(alloc, &Path::Item(path, 0), before, number)?;
        let by = small_of(alloc, &Path::Item(path, 1), coefficient)?;
        Ok(Term { at, by })
    }
}

/// At most `TERM_LIMIT` numbers of variables that ascend, each with its coefficient.
pub(crate) fn row_terms_of(
    alloc: Global,
    path: &Path<'_>,
    value: &Value,
) -> Result<List<Term>, FormatFault>
    ensures { GivesRead (λ ts. ts) result (row_terms_at (path_text path.now) (view value.now)) }
{
    each_of(alloc, path, 0, TERM_LIMIT, &RowTerms, value)
}

fn last_state(found: &[u16]) -> Option<u32>
    ensures { result ≡ last_of found.now }
{
    match found.last() {
        None => None,
        Some(state) => Some(u32::from(*state)),
    }
}

/// Numbers of states that ascend.
#[derive(Clone, Copy)]
struct States;

impl ReadItem for States {
    ghost use Rattle.std.specs.Prelude.{⊤};
    ghost use Rattle.cert_json.specs.Examined.{set_state_item};

    type Item = u16;

    ghost can_read = { λ _. ⊤ };

    ghost item_at = { λ _. set_state_item };

    fn read(
        &self,
        alloc: Global,
        path: &Path<'_>,
        found: &[u16],
        value: &Value,
    ) -> Result<u16, FormatFault> {
        let before = last_state(found);
        let state = ascending_of(alloc, path, u32::from(u16::MAX), before, value)?;
        Ok(state as u16)
    }
}

/// At most `STATE_LIMIT` numbers of states that ascend.
pub(crate) fn states_of(
    alloc: Global,
    path: &Path<'_>,
    value: &Value,
) -> Result<List<u16>, FormatFault>
    ensures { GivesRead (λ qs. qs) result (set_states_at (path_text path.now) (view value.now)) }
{
    each_of(alloc, path, 0, STATE_LIMIT, &States, value)
}
