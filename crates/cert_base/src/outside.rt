//! The facts of a goal's tree.

ghost use Rattle.std.specs.Prelude.{◌≡◌, length, map, not, IfOk};
ghost use Rattle.cert_base.specs.FactsAndCases.{indicator, is_in, states_of, outside_fact, goal_list};
ghost use Rattle.cert_base.specs.GoalEnds.{HoldAtOutsideEnds};

use crate::base::input_facts;
use crate::fact::{Fact, Row};
use pop_io::{List, NoMemory};
use pop_leaf::Leaf;
use pres_ast::Pred;
use std::alloc::Global;

/// As `base_facts`, with one fact for each set in the place of the last: that some agent is outside.
pub fn goal_facts(
    alloc: Global,
    leaf: &Leaf,
    pred: &Pred,
    value: bool,
    sets: &List<List<u16>>,
) -> Result<List<Fact>, NoMemory>
    requires { pred.now.variables ≡ length leaf.now.inputs }
    ensures facts { IfOk result (λ facts. facts ≡ goal_list leaf.now pred.now value sets.now) }
    // Every end with an agent outside each set meets all of them.
    ensures met { IfOk result (HoldAtOutsideEnds leaf.now pred.now.tree value sets.now) }
{
    let mut facts = input_facts(alloc, leaf, pred, value)?;
    for set in sets.as_slice() {
        facts.push(some_outside(alloc, leaf, set.as_slice())?)?;
    }
    Ok(List::from_vec(facts))
}

fn some_outside(alloc: Global, leaf: &Leaf, set: &[u16]) -> Result<Fact, NoMemory>
    ensures { IfOk result (λ fact. fact ≡ outside_fact leaf.now set.now) }
{
    let coefs = states_outside(alloc, leaf, set)?;
    Ok(Fact::Ge(Row::over_states(alloc, leaf, coefs.as_slice(), -1)?))
}

/// 1 for each state outside the set, and 0 for the others.
fn states_outside(alloc: Global, leaf: &Leaf, set: &[u16]) -> Result<Vec<i64>, NoMemory>
    ensures { IfOk result
        (λ coefs. coefs.items ≡ map (λ q. indicator (not (is_in set.now q))) (states_of leaf.now)) }
{
    let coefs = (0..leaf.state_count())
        .map(|q| is_outside(set, q))
        .collect(alloc)?;
    Ok(coefs)
}

fn is_outside(set: &[u16], q: u16) -> i64
    ensures { result ≡ indicator (not (is_in set.now q)) }
{
    if set.contains(&q) { 0 } else { 1 }
}
