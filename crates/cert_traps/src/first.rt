//! The first move that enters a set of states.

ghost use Rattle.std.specs.Prelude.{◌≡◌, ◌++◌, pos, negsuc, IfOk, OnOk};
ghost use Rattle.pop_leaf.specs.declared.limits.TheConstants.{STATE_LIMIT};
ghost use Rattle.pop_leaf.specs.LeafModel.{IsLeaf, IsMoveBelow};
ghost use Rattle.cert_base.specs.declared.fact.Fact.TheVariants.{Ge};
ghost use Rattle.cert_base.specs.Rows.{single_row, state_variable};
ghost use Rattle.cert_base.specs.FactsAndCases.{enters, cases_of_first, before_entry, is_possible, cases_of_entry};
ghost use Rattle.cert_base.specs.FirstEntry.{CoverFirst};
ghost use Rattle.cert_traps.specs.Facts.{case_if};

use crate::inputs::keep_about_inputs;
use crate::present::presence_of;
use crate::role::{Role, passes};
use crate::set::StateSet;
use crate::siphon::{none_inside, some_started};
use crate::trap::none_there;
use cert_base::{Fact, Row, flow_facts, only, variable_of_state};
use pop_io::{List, NoMemory};
use pop_leaf::{Leaf, Move};
use std::alloc::Global;

/// Somebody started in the set; or nobody was ever in it.
pub fn first_cases(
    alloc: Global,
    leaf: &Leaf,
    set: &List<u16>,
) -> Result<List<List<Fact>>, NoMemory>
    ensures cases { IfOk result (λ cases. cases ≡ cases_of_first leaf.now set.now) }
    // Every end meets all facts of one of them, or the set was entered.
    ensures cover { IfOk result (λ cases. CoverFirst leaf.now set.now) }
{
    let set = StateSet::new(alloc, set)?;
    // What the invariant says is known from here on.
    let _formed = leaf.state_count();
    let cases = cases_of(alloc, leaf, &set)?;
    Ok(cases)
}

fn cases_of(alloc: Global, leaf: &Leaf, set: &StateSet) -> Result<List<List<Fact>>, NoMemory>
    requires { IsLeaf leaf.now }
    ensures { IfOk result (λ cases. cases ≡ cases_of_first leaf.now set.now) }
{
    let mut cases = Vec::new(alloc);
    cases.push(only(alloc, some_started(alloc, leaf, set)?)?)?;
    cases.push(none_inside(alloc, leaf, set, Role::Touches)?)?;
    Ok(List::from_vec(cases))
}

/// For each move that enters the set, that two agents can take it.
pub fn entry_cases(
    alloc: Global,
    leaf: &Leaf,
    set: &List<u16>,
) -> Result<List<List<Fact>>, NoMemory>
    ensures { IfOk result (λ cases. cases ≡ cases_of_entry leaf.now set.now) }
{
    let set = StateSet::new(alloc, set)?;
    // What the invariant says is known from here on.
    let _formed = leaf.state_count();
    let cases = entries_of(alloc, leaf, &set)?;
    Ok(cases)
}

fn entries_of(alloc: Global, leaf: &Leaf, set: &StateSet) -> Result<List<List<Fact>>, NoMemory>
    requires { IsLeaf leaf.now }
    ensures { IfOk result (λ cases. cases ≡ cases_of_entry leaf.now set.now) }
{
    let mut cases = Vec::new(alloc);
    for t in 0..leaf.move_count() {
        push_entry(alloc, &mut cases, leaf, set, leaf.move_at(t))?;
    }
    Ok(List::from_vec(cases))
}

/// Adds that two agents can take the move, if it enters the set.
fn push_entry(
    alloc: Global,
    cases: &mut Vec<List<Fact>>,
    leaf: &Leaf,
    set: &StateSet,
    taken: Move,
) -> Result<(), NoMemory>
    requires { IsMoveBelow STATE_LIMIT taken }
    ensures { OnOk result (cases.new.items ≡ cases.old.items ++ case_if leaf.now taken (enters set.now taken)) }
{
    if passes(set, taken, Role::Enters) {
        cases.push(possible(alloc, leaf, taken)?)?;
    }
    Ok(())
}

/// Two agents are in the states that the move takes.
fn possible(alloc: Global, leaf: &Leaf, taken: Move) -> Result<List<Fact>, NoMemory>
    ensures { IfOk result (λ facts. facts ≡ is_possible leaf.now taken) }
{
    if taken.p == taken.q {
        return only(alloc, two_in(alloc, leaf, taken.p)?);
    }
    let mut facts = Vec::with_capacity(alloc, 2)?;
    facts.push(presence_of(alloc, leaf, taken.p)?)?;
    facts.push(presence_of(alloc, leaf, taken.q)?)?;
    Ok(List::from_vec(facts))
}

fn two_in(alloc: Global, leaf: &Leaf, q: u16) -> Result<Fact, NoMemory>
    ensures { IfOk result (λ fact. fact ≡ Ge (single_row (state_variable leaf.now q) (pos 1) (negsuc 1))) }
{
    Ok(Fact::Ge(Row::single(alloc, variable_of_state(leaf, q), 1, -2)?))
}

/// What holds of a crowd up to which nobody was in the set, given facts of an end.
pub fn facts_before_entry(
    alloc: Global,
    leaf: &Leaf,
    set: &List<u16>,
    facts: &[Fact],
) -> Result<List<Fact>, NoMemory>
    ensures { IfOk result (λ before. before ≡ before_entry leaf.now set.now facts.now) }
{
    let set = StateSet::new(alloc, set)?;
    let mut before = flow_facts(alloc, leaf)?;
    keep_about_inputs(alloc, &mut before, leaf, facts)?;
    none_there(alloc, &mut before, leaf, &set, Role::Touches)?;
    Ok(List::from_vec(before))
}
