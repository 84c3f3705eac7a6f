//! What an end says of one state.

ghost use Rattle.std.specs.Prelude.{◌≡◌, ◌<◌, ◌∷◌, ◌++◌, ◌==◌, ◌&&◌, not, [], length, map, filter};
ghost use Rattle.std.specs.Prelude.{if◌then◌else◌, slice_index_or, false, Some, None, IfOk, OnOk, IfSome};
ghost use Rattle.cert_base.specs.FactsAndCases.{states_of, can_meet_in, absent_fact, occurs_fact};
ghost use Rattle.cert_base.specs.FactsAndCases.{alone_fact, not_twice, cases_of_present, case_of_twin};
ghost use Rattle.cert_base.specs.Ends.{CoverDead, AreCasesBy};
ghost use Rattle.cert_traps.specs.Facts.{alone_if};

use crate::facts::{is_zero, push_zero};
use crate::partners::partners;
use cert_base::{Fact, Row, only, variable_of_state};
use pop_io::{List, NoMemory};
use pop_leaf::Leaf;
use std::alloc::Global;

/// The state is absent; or it occurs, and no state does that it could meet. Of an end, the leaf is the one that has no
/// step there.
pub fn present_cases(alloc: Global, leaf: &Leaf, state: u16) -> Result<List<List<Fact>>, NoMemory>
    requires { state < length leaf.now.states }
    // Every end at which the leaf has no step meets all facts of one of the cases.
    ensures { IfOk result (AreCasesBy (CoverDead leaf.now) (cases_of_present leaf.now state)) }
{
    let mut cases = Vec::new(alloc);
    cases.push(only(alloc, absence_of(alloc, leaf, state)?)?)?;
    cases.push(presence_case(alloc, leaf, state)?)?;
    Ok(List::from_vec(cases))
}

/// A state that can meet itself occurs at most once. Any other state has no case.
pub fn twin_case(alloc: Global, leaf: &Leaf, state: u16) -> Result<Option<List<Fact>>, NoMemory>
    requires { state < length leaf.now.states }
    ensures case { IfOk result (λ case. case ≡ case_of_twin leaf.now state) }
    // Every end at which the leaf has no step meets all its facts.
    ensures cover { IfOk result (λ case. IfSome case (λ facts. CoverDead leaf.now (facts ∷ []))) }
{
    let partners = partners(alloc, leaf, state)?;
    twin(alloc, leaf, state, partners[usize::from(state)])
}

fn twin(alloc: Global, leaf: &Leaf, state: u16, meets: bool) -> Result<Option<List<Fact>>, NoMemory>
    ensures { IfOk result (λ case. case ≡ (if meets then Some (not_twice leaf.now state ∷ []) else None)) }
{
    if !meets {
        return Ok(None);
    }
    let row = Row::single(alloc, variable_of_state(leaf, state), -1, 1)?;
    Ok(Some(only(alloc, Fact::Ge(row))?))
}

/// The state occurs, and no state does that it could meet.
fn presence_case(alloc: Global, leaf: &Leaf, state: u16) -> Result<List<Fact>, NoMemory>
    requires { state < length leaf.now.states }
    ensures { IfOk result (λ facts. facts ≡ occurs_fact leaf.now state
        ∷ map
        (absent_fact leaf.now)
        (filter (λ q. not (q == state) && can_meet_in leaf.now state q) (states_of leaf.now))
        ++ (if can_meet_in leaf.now state state then (alone_fact leaf.now state ∷ []) else [])) }
{
    let partners = partners(alloc, leaf, state)?;
    let mut facts = Vec::with_capacity(alloc, partners.len())?;
    facts.push(presence_of(alloc, leaf, state)?)?;
    for q in 0..leaf.state_count() {
        let meets = meets_other(partners.as_slice(), state, q);
        push_zero(alloc, &mut facts, variable_of_state(leaf, q), meets)?;
    }
    push_alone(alloc, &mut facts, leaf, state, partners[usize::from(state)])?;
    Ok(List::from_vec(facts))
}

/// Whether `q` is another state that can be met.
fn meets_other(partners: &[bool], state: u16, q: u16) -> bool
    requires { q < length partners.now }
    ensures { result ≡ (not (q == state) && slice_index_or partners.now q false) }
{
    q != state && partners[usize::from(q)]
}

fn absence_of(alloc: Global, leaf: &Leaf, q: u16) -> Result<Fact, NoMemory>
    ensures { IfOk result (λ fact. fact ≡ absent_fact leaf.now q) }
{
    is_zero(alloc, variable_of_state(leaf, q))
}

/// The state occurs.
pub(crate) fn presence_of(alloc: Global, leaf: &Leaf, q: u16) -> Result<Fact, NoMemory>
    ensures { IfOk result (λ fact. fact ≡ occurs_fact leaf.now q) }
{
    Ok(Fact::Ge(Row::single(alloc, variable_of_state(leaf, q), 1, -1)?))
}

/// Adds that the state occurs once, if the flag is set.
fn push_alone(
    alloc: Global,
    facts: &mut Vec<Fact>,
    leaf: &Leaf,
    q: u16,
    flag: bool,
) -> Result<(), NoMemory>
    ensures { OnOk result (facts.new.items ≡ facts.old.items ++ alone_if leaf.now q flag) }
{
    if flag {
        let row = Row::single(alloc, variable_of_state(leaf, q), 1, -1)?;
        facts.push(Fact::Eq(row))?;
    }
    Ok(())
}
