//! The layers.

ghost use Rattle.std.specs.Prelude.{◌≡◌, ◌≤◌, ◌<◌, ◌++◌, ◌∷◌, [], if◌then◌else◌, length, map, pos, IfOk, OnOk};
ghost use Rattle.comp_trees.specs.SortedLayers.{sorted_layer};
ghost use Rattle.comp_trees.specs.declared.range.TheConstants.{RANGE_LIMIT};
ghost use Rattle.comp_powers.specs.PowersProof.{powers_layers_of};
ghost use Rattle.comp_powers_leaf.specs.PowersLeaf.{powers_moves};
ghost use Rattle.comp_powers_leaf.specs.PowersLayers.{low_kind, nothing_kind, kind_by, kind_at, sum_weight};
ghost use Rattle.comp_powers_leaf.specs.PowersLayers.{answer_weight};
ghost use Rattle.comp_powers_leaf.specs.PowersLayers.{one_if as one_where};

use crate::roled::RoledLeaf;
use cert_base::Layer;
use comp_powers_leaf::Role;
use pop_io::{List, NoMemory};
use pop_leaf::{Leaf, Move};
use std::alloc::Global;

fn kind_of_low(q: Role) -> u32
    ensures { result ≡ low_kind q }
{
    match q {
        Role::Nothing(_) => 1,
        Role::Piece(_, _) => 1,
        _ => 0,
    }
}

fn kind_of_nothing(kind: u32, q: Role) -> u32
    ensures { result ≡ nothing_kind kind q }
{
    match q {
        Role::Nothing(_) => kind,
        _ => 0,
    }
}

/// The kind of a move by the states that it takes.
fn kind_of(p: Role, q: Role) -> u32
    ensures { result ≡ kind_by p q }
{
    match p {
        Role::Low => kind_of_low(q),
        Role::High => 2,
        Role::Plus => kind_of_nothing(2, q),
        Role::Debtor(_) => kind_of_nothing(1, q),
        _ => 0,
    }
}

/// In the first layer.
fn weight_of(k: u32, role: Role) -> i64
    requires { k ≤ RANGE_LIMIT }
    ensures { result ≡ pos (sum_weight k role) }
{
    match role {
        Role::Nothing(_) => 0,
        Role::Debtor(_) => 2 * i64::from(k) + 1,
        Role::Token(_, i) => 2 * i64::from(i) + 2,
        _ => 1,
    }
}

fn one_if(b: bool) -> i64
    ensures { result ≡ pos (one_where b) }
{
    if b { 1 } else { 0 }
}

/// In a layer that turns this answer.
fn answer_of(turned: bool, role: Role) -> i64
    ensures { result ≡ pos (answer_weight turned role) }
{
    match role {
        Role::Nothing(b) => one_if(b == turned),
        Role::Piece(_, b) => one_if(b == turned),
        _ => 0,
    }
}

pub(crate) fn push_if(numbers: &mut Vec<u32>, number: u32, passes: bool) -> Result<(), NoMemory>
    ensures { OnOk result (numbers.new.items ≡ numbers.old.items ++ (if passes then (number ∷ []) else [])) }
{
    if passes {
        numbers.push(number)?;
    }
    Ok(())
}

fn first_weights(alloc: Global, k: u32, roles: &[Role]) -> Result<Vec<i64>, NoMemory>
    requires { k ≤ RANGE_LIMIT }
    ensures { IfOk result (λ weights. weights.items ≡ map (λ r. pos (sum_weight k r)) roles.now) }
{
    let mut weights = Vec::new(alloc);
    for role in roles {
        weights.push(weight_of(k, *role))?;
    }
    Ok(weights)
}

fn answer_weights(alloc: Global, turned: bool, roles: &[Role]) -> Result<Vec<i64>, NoMemory>
    ensures { IfOk result (λ weights. weights.items ≡ map (λ r. pos (answer_weight turned r)) roles.now) }
{
    let mut weights = Vec::new(alloc);
    for role in roles {
        weights.push(answer_of(turned, *role))?;
    }
    Ok(weights)
}

/// The kind of a move, by the states' roles.
fn kind_in(roles: &[Role], t: Move) -> u32
    requires first { t.p < length roles.now }
    requires second { t.q < length roles.now }
    ensures { result ≡ kind_at roles.now t }
{
    kind_of(roles[usize::from(t.p)], roles[usize::from(t.q)])
}

/// The layer of one kind of moves.
fn layer(
    alloc: Global,
    leaf: &Leaf,
    roles: &[Role],
    kind: u32,
    weights: Vec<i64>,
) -> Result<Layer, NoMemory>
    requires { length roles.now ≡ length leaf.now.states }
    ensures { IfOk result (λ layer. layer ≡ sorted_layer leaf.now.moves (kind_at roles.now) kind weights.items) }
{
    // What the invariant says is known from here on.
    let _states = leaf.state_count();
    let mut moves = Vec::new(alloc);
    for t in 0..leaf.move_count() {
        let passes = kind_in(roles, leaf.move_at(t)) == kind;
        push_if(&mut moves, t, passes)?;
    }
    Ok(Layer {
        moves: List::from_vec(moves),
        weights: List::from_vec(weights),
    })
}

/// First the sum, then the turns to true, then those to false.
pub(crate) fn powers_layers(alloc: Global, powers: &RoledLeaf<'_>) -> Result<List<Layer>, NoMemory>
    requires moves { powers.now.leaf.now.moves ≡ powers_moves powers.now.coefs.now powers.now.k }
    ensures { IfOk result (λ layers. layers ≡ powers_layers_of powers.now.coefs.now powers.now.k) }
{
    let sum = first_weights(alloc, powers.k, powers.roles)?;
    let to_true = answer_weights(alloc, false, powers.roles)?;
    let to_false = answer_weights(alloc, true, powers.roles)?;
    let mut layers = Vec::new(alloc);
    layers.push(layer(alloc, powers.leaf, powers.roles, 0, sum)?)?;
    layers.push(layer(alloc, powers.leaf, powers.roles, 1, to_true)?)?;
    layers.push(layer(alloc, powers.leaf, powers.roles, 2, to_false)?)?;
    Ok(List::from_vec(layers))
}
