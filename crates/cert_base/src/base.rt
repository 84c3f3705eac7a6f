//! The facts that every wrong end meets.

ghost use Rattle.std.specs.Prelude.{◌≡◌, ◌<◌, length, map, slice_index_or, false, IfOk};
ghost use Rattle.cert_base.specs.FactsAndCases.{indicator, states_of, differs, base_list};
ghost use Rattle.cert_base.specs.FactsAndCases.{two_agents_fact, wrong_output_fact};
ghost use Rattle.cert_base.specs.Ends.{HoldAtWrongEnds};
ghost use Rattle.cert_base.specs.Parts.{input_list};
ghost use Rattle.pop_leaf.specs.LeafModel.{IsLeaf};

use crate::fact::{Fact, Row};
use crate::flow::flow_facts;
use pop_io::{List, NoMemory};
use pop_leaf::Leaf;
use pres_ast::Pred;
use std::alloc::Global;

/// First the flow fact of each state; then that there are two agents, helpers included, that the predicate has the
/// value, and that some agent has another output (the state equation of Blondin, Esparza, Jaax, Meyer 2017).
pub fn base_facts(
    alloc: Global,
    leaf: &Leaf,
    pred: &Pred,
    value: bool,
) -> Result<List<Fact>, NoMemory>
    requires { pred.now.variables ≡ length leaf.now.inputs }
    ensures facts { IfOk result (λ facts. facts ≡ base_list leaf.now pred.now value) }
    // Every wrong end meets all of them.
    ensures met { IfOk result (HoldAtWrongEnds leaf.now pred.now.tree value) }
{
    let mut facts = input_facts(alloc, leaf, pred, value)?;
    facts.push(wrong_output(alloc, leaf, value)?)?;
    Ok(List::from_vec(facts))
}

/// The same without the last one.
pub(crate) fn input_facts(
    alloc: Global,
    leaf: &Leaf,
    pred: &Pred,
    value: bool,
) -> Result<Vec<Fact>, NoMemory>
    ensures facts { IfOk result (λ facts. facts.items ≡ input_list leaf.now pred.now value) }
    ensures formed { IsLeaf leaf.now }
{
    let mut facts = flow_facts(alloc, leaf)?;
    facts.push(two_agents(alloc, leaf)?)?;
    facts.push(Fact::Holds(pred.copy(alloc)?, value))?;
    Ok(facts)
}

fn two_agents(alloc: Global, leaf: &Leaf) -> Result<Fact, NoMemory>
    ensures { IfOk result (λ fact. fact ≡ two_agents_fact leaf.now) }
{
    let ones = vec![in alloc; 1i64; usize::from(leaf.input_count())]?;
    Ok(Fact::Ge(Row::over_inputs(alloc, ones.as_slice(), i64::from(leaf.helper_count()) - 2)?))
}

fn wrong_output(alloc: Global, leaf: &Leaf, value: bool) -> Result<Fact, NoMemory>
    ensures { IfOk result (λ fact. fact ≡ wrong_output_fact leaf.now value) }
{
    let coefs = wrong_states(alloc, leaf, value)?;
    Ok(Fact::Ge(Row::over_states(alloc, leaf, coefs.as_slice(), -1)?))
}

/// 1 for each state that has another output than the value, and 0 for the others.
fn wrong_states(alloc: Global, leaf: &Leaf, value: bool) -> Result<Vec<i64>, NoMemory>
    ensures { IfOk result
        (λ coefs. coefs.items
        ≡ map (λ q. indicator (differs value (slice_index_or leaf.now.outputs q false))) (states_of leaf.now)) }
{
    let coefs = (0..leaf.state_count())
        .map(|q| is_wrong(leaf, value, q))
        .collect(alloc)?;
    Ok(coefs)
}

fn is_wrong(leaf: &Leaf, value: bool, q: u16) -> i64
    requires { q < length leaf.now.states }
    ensures { result ≡ indicator (differs value (slice_index_or leaf.now.outputs q false)) }
{
    if leaf.output(q) == value { 0 } else { 1 }
}
