//! The check of a goal.

ghost use Rattle.std.specs.Prelude.{◌≡◌, ◌<◌, ◌∷◌, [], not, length, slice_index_or, false, IfOk, OnOk};
ghost use Rattle.pop_io.specs.Failures.{IfFault, OnlyMemory};
ghost use Rattle.cert_base.specs.FactsAndCases.{differs, sets_of, states_with};
ghost use Rattle.cert_base.specs.ProofBound.{layers_bound};
ghost use Rattle.cert_base.specs.ValidLayers.{moves_of_layers, ValidLayers};
ghost use Rattle.cert_layers.specs.LayerFaults.{AreLayersWithin};
ghost use Rattle.cert_tree.specs.Refusals.{AreNodesOf};
ghost use Rattle.cert_sets.specs.Layered.{layered};
ghost use Rattle.cert_sets.specs.SetFaults.{AreSetsWithin, AreGoodSets};
ghost use Rattle.cert_goals.specs.ValidGoal.{IsGoalOf, ChecksGoal};
ghost use Rattle.cert_goals.specs.GoalParts.{IsLayersFault, IsSetsFault, NodesClose, IsNodesFault, ChecksRest};

use crate::fault::GoalWhy;
use crate::layers::checked_layers;
use cert_base::{Goal, Node};
use cert_sets::{GoalMoves, checked_sets, kept_leaf};
use cert_tree::check_goal_tree;
use pop_io::{Failure, List, NoMemory};
use pop_leaf::Leaf;
use pres_ast::Pred;
use std::alloc::Global;

/// The value that all agents are to output, and the predicate that has it at their input.
#[derive(Clone, Copy)]
struct Aim<'a> {
    pred: &'a Pred,
    value: bool,
}

/// Whether the goal is valid for the leaf, its predicate and the value, and its bound for each agent.
pub fn check_goal(
    alloc: Global,
    leaf: &Leaf,
    pred: &Pred,
    value: bool,
    goal: &Goal,
) -> Result<u64, Failure<GoalWhy>>
    requires { IsGoalOf leaf.now pred.now goal.now }
    ensures { ChecksGoal leaf.now pred.now value goal.now result }
{
    let kept = kept_leaf(alloc, leaf, &goal.layers)?;
    let given = GoalMoves {
        leaf,
        layers: &goal.layers,
        kept: &kept,
    };
    let aim = Aim { pred, value };
    let bound = check_order(alloc, &given)?;
    check_sets_and_nodes(alloc, &given, &aim, &goal.sets, &goal.nodes)?;
    Ok(bound)
}

fn check_order(alloc: Global, given: &GoalMoves<'_>) -> Result<u64, Failure<GoalWhy>>
    requires { AreLayersWithin given.now.layers.now }
    ensures valid { IfOk result (λ bound.
        ValidLayers (layered given.now.leaf.now given.now.layers.now) given.now.layers.now
        × (bound ≡ layers_bound given.now.layers.now)) }
    ensures fault { IfFault result (IsLayersFault given.now.leaf.now given.now.layers.now) }
    ensures accepts { ValidLayers (layered given.now.leaf.now given.now.layers.now) given.now.layers.now
        → OnlyMemory result }
{
    match checked_layers(alloc, given) {
        Ok(bound) => Ok(bound),
        Err(Failure::Fault(why)) => Err(Failure::Fault(GoalWhy::Layers(why))),
        Err(Failure::NoMemory) => Err(Failure::NoMemory),
    }
}

/// First the sets in order, then the nodes. No set stands for the one of all states with the value as their output.
fn check_sets_and_nodes(
    alloc: Global,
    given: &GoalMoves<'_>,
    aim: &Aim<'_>,
    sets: &List<List<u16>>,
    nodes: &List<Node>,
) -> Result<(), Failure<GoalWhy>>
    requires sets { AreSetsWithin sets.now }
    requires nodes { AreNodesOf given.now.leaf.now aim.now.pred.now nodes.now }
    ensures { ChecksRest given.now.leaf.now given.now.layers.now aim.now.pred.now aim.now.value
        (sets_of given.now.leaf.now aim.now.value sets.now) nodes.now result }
{
    if sets.as_slice().is_empty() {
        let all = all_with_output(alloc, given.leaf, aim.value)?;
        check_rest(alloc, given, aim, &all, nodes)
    } else {
        check_rest(alloc, given, aim, sets, nodes)
    }
}

/// The same with these sets.
fn check_rest(
    alloc: Global,
    given: &GoalMoves<'_>,
    aim: &Aim<'_>,
    sets: &List<List<u16>>,
    nodes: &List<Node>,
) -> Result<(), Failure<GoalWhy>>
    requires sets { AreSetsWithin sets.now }
    requires nodes { AreNodesOf given.now.leaf.now aim.now.pred.now nodes.now }
    ensures { ChecksRest given.now.leaf.now given.now.layers.now aim.now.pred.now aim.now.value sets.now nodes.now
        result }
{
    check_all_sets(alloc, given, aim.value, sets)?;
    check_nodes(alloc, given, aim, sets, nodes)
}

fn check_all_sets(
    alloc: Global,
    given: &GoalMoves<'_>,
    value: bool,
    sets: &List<List<u16>>,
) -> Result<(), Failure<GoalWhy>>
    requires { AreSetsWithin sets.now }
    ensures good { OnOk result
        (AreGoodSets given.now.leaf.now (moves_of_layers given.now.layers.now) value sets.now) }
    ensures fault { IfFault result (IsSetsFault given.now.leaf.now given.now.layers.now value sets.now) }
    ensures accepts { AreGoodSets given.now.leaf.now (moves_of_layers given.now.layers.now) value sets.now
        → OnlyMemory result }
{
    match checked_sets(alloc, given, value, sets) {
        Ok(()) => Ok(()),
        Err(Failure::Fault(fault)) => Err(Failure::Fault(GoalWhy::Set(fault))),
        Err(Failure::NoMemory) => Err(Failure::NoMemory),
    }
}

fn check_nodes(
    alloc: Global,
    given: &GoalMoves<'_>,
    aim: &Aim<'_>,
    sets: &List<List<u16>>,
    nodes: &List<Node>,
) -> Result<(), Failure<GoalWhy>>
    requires sets { AreSetsWithin sets.now }
    requires nodes { AreNodesOf given.now.leaf.now aim.now.pred.now nodes.now }
    ensures closes { OnOk result
        (NodesClose given.now.leaf.now given.now.layers.now aim.now.pred.now aim.now.value sets.now nodes.now) }
    ensures fault { IfFault result
        (IsNodesFault given.now.leaf.now given.now.layers.now aim.now.pred.now aim.now.value sets.now nodes.now) }
    ensures accepts { let leaf = given.now.leaf.now in
        NodesClose leaf given.now.layers.now aim.now.pred.now aim.now.value sets.now nodes.now → OnlyMemory result }
{
    match check_goal_tree(
        alloc, given.leaf, given.kept, aim.pred, aim.value, sets, nodes,
    ) {
        Ok(()) => Ok(()),
        Err(Failure::Fault(fault)) => Err(Failure::Fault(GoalWhy::Node(fault))),
        Err(Failure::NoMemory) => Err(Failure::NoMemory),
    }
}

/// The set of all states that have the value as their output.
fn all_with_output(alloc: Global, leaf: &Leaf, value: bool) -> Result<List<List<u16>>, NoMemory>
    ensures { IfOk result (λ sets. sets ≡ states_with leaf.now value ∷ []) }
{
    let states = states_with_output(alloc, leaf, value)?;
    let mut sets = Vec::new(alloc);
    sets.push(List::from_vec(states))?;
    Ok(List::from_vec(sets))
}

fn states_with_output(alloc: Global, leaf: &Leaf, value: bool) -> Result<Vec<u16>, NoMemory>
    ensures { IfOk result (λ states. states.items ≡ states_with leaf.now value) }
{
    let states = (0..leaf.state_count())
        .filter(|q| outputs_value(leaf, value, *q))
        .collect(alloc)?;
    Ok(states)
}

fn outputs_value(leaf: &Leaf, value: bool, q: u16) -> bool
    requires { q < length leaf.now.states }
    ensures { result ≡ not (differs value (slice_index_or leaf.now.outputs q false)) }
{
    leaf.output(q) == value
}
