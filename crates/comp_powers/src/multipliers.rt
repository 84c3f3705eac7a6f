//! The multipliers of the nodes' own facts, and the nodes that they close.

ghost use Rattle.std.specs.Prelude.{◌≡◌, ◌≤◌, ◌<◌, ◌+◌, ◌++◌, ◌∷◌, [], pos, negsuc, true, false, map, length};
ghost use Rattle.std.specs.Prelude.{slice_index_or, IfOk, OnOk};
ghost use Rattle.cert_base.specs.Rows.{zeros};
ghost use Rattle.cert_base.specs.FactsAndCases.{puts_into, is_in, places_from, no_moves, no_start_facts};
ghost use Rattle.pop_io.specs.declared.names.TheConstants.{VARIABLE_LIMIT};
ghost use Rattle.pop_leaf.specs.declared.limits.TheConstants.{STATE_LIMIT, MOVE_LIMIT};
ghost use Rattle.comp_trees.specs.LeaderTree.{weighed_node, company_of};
ghost use Rattle.comp_powers.specs.PowersProof.{hubs, alone_zero, no_leak_mix, helped_mix, no_hub_mix};
ghost use Rattle.comp_powers.specs.PowersProof.{high_mix, few_mix, low_mix};

use crate::roled::RoledLeaf;
use crate::values::{Amount, amounts, same, size, sizes, wrong};
use crate::weights::push_if;
use cert_base::{Node, can_meet};
use comp_trees::{company, mixed, picked};
use pop_io::NoMemory;
use pop_leaf::{Leaf, Move};
use std::alloc::Global;

/// No move leaves the hubs.
pub(crate) fn no_leak(alloc: Global, leaf: &Leaf) -> Result<Node, NoMemory>
    requires { length leaf.now.states ≤ STATE_LIMIT }
    ensures { IfOk result (λ node. node ≡ weighed_node (no_leak_mix leaf.now)) }
{
    let none = same(alloc, leaf, 0)?;
    mixed(alloc, none.as_slice(), 0, 0, &[1])
}

/// Not both hubs are absent.
pub(crate) fn no_hub(alloc: Global, leaf: &Leaf) -> Result<Node, NoMemory>
    requires { length leaf.now.states ≤ STATE_LIMIT }
    ensures { IfOk result (λ node. node ≡ weighed_node (no_hub_mix leaf.now)) }
{
    let none = same(alloc, leaf, 0)?;
    mixed(alloc, none.as_slice(), 0, 0, &[1, -1, -1])
}

fn is_hub(q: u16) -> bool
    ensures { result ≡ is_in hubs q }
{
    q == 0 || q == 1
}

fn makes_hub(t: Move) -> bool
    ensures { result ≡ puts_into hubs t }
{
    is_hub(t.r) || is_hub(t.s)
}

/// The moves that put an agent into a hub.
fn to_hubs(alloc: Global, leaf: &Leaf) -> Result<Vec<u32>, NoMemory>
    ensures { IfOk result (λ moves. moves.items ≡ places_from 0 (puts_into hubs) leaf.now.moves) }
{
    let mut moves = Vec::new(alloc);
    for t in 0..leaf.move_count() {
        let passes = makes_hub(leaf.move_at(t));
        push_if(&mut moves, t, passes)?;
    }
    Ok(moves)
}

/// The variables whose agents start as hubs.
fn starting(alloc: Global, leaf: &Leaf) -> Result<Vec<u32>, NoMemory>
    ensures { IfOk result (λ inputs. inputs.items ≡ places_from 0 (is_in hubs) leaf.now.inputs) }
{
    let mut inputs = Vec::new(alloc);
    for i in 0..leaf.input_count() {
        let passes = is_hub(leaf.input(i));
        push_if(&mut inputs, u32::from(i), passes)?;
    }
    Ok(inputs)
}

/// The hubs are marked at the start, by a helper.
pub(crate) fn helped(alloc: Global, leaf: &Leaf) -> Result<Node, NoMemory>
    requires { length leaf.now.states ≤ STATE_LIMIT }
    ensures { IfOk result (λ node. node ≡ weighed_node (helped_mix leaf.now)) }
{
    let none = same(alloc, leaf, 0)?;
    let own = helped_own(alloc, leaf)?;
    mixed(alloc, none.as_slice(), 0, 0, own.as_slice())
}

fn helped_own(alloc: Global, leaf: &Leaf) -> Result<Vec<i64>, NoMemory>
    ensures list { IfOk result (λ own. own.items
        ≡ zeros (length (no_moves leaf.now (puts_into hubs) ++ no_start_facts leaf.now hubs)) ++ pos 0 ∷ negsuc 0 ∷ []) }
    ensures short { IfOk result (λ own. length own.items ≤ MOVE_LIMIT + VARIABLE_LIMIT + 2) }
{
    // What the invariant says is known from here on.
    let _formed = leaf.state_count();
    let moves = to_hubs(alloc, leaf)?;
    let inputs = starting(alloc, leaf)?;
    let mut own = vec![in alloc; 0i64; moves.len() + inputs.len()]?;
    own.extend_from_slice(&[0, -1])?;
    Ok(own)
}

/// The multipliers of the states that one state rules out.
fn out_of(alloc: Global, leaf: &Leaf, out: &[i64], state: u16) -> Result<Vec<i64>, NoMemory>
    requires state { state < length leaf.now.states }
    requires out { length out.now ≡ length leaf.now.states }
    ensures list { IfOk result (λ multipliers.
        multipliers.items ≡ map (λ q. slice_index_or out.now q (pos 0)) (company_of leaf.now state)) }
    ensures short { IfOk result (λ multipliers. length multipliers.items ≤ length leaf.now.states) }
{
    let states = company(alloc, leaf, state)?;
    picked(alloc, out, states.as_slice())
}

/// With a hub of 0: its company is absent.
fn high_own(alloc: Global, leaf: &Leaf, out: &[i64]) -> Result<Vec<i64>, NoMemory>
    requires some { 4 < length leaf.now.states }
    requires out { length out.now ≡ length leaf.now.states }
    ensures list { IfOk result (λ own. own.items
        ≡ pos 0 ∷ pos 0 ∷ pos 0 ∷ map (λ q. slice_index_or out.now q (pos 0)) (company_of leaf.now 1)) }
    ensures short { IfOk result (λ own. length own.items ≤ length leaf.now.states + 3) }
{
    let mut own = Vec::from_slice(alloc, &[0i64, 0, 0])?;
    let out = out_of(alloc, leaf, out, 1)?;
    own.extend_from_slice(out.as_slice())?;
    Ok(own)
}

/// The hub of -2^k is present: its company is absent.
fn presence(alloc: Global, leaf: &Leaf, here: i64, out: &[i64]) -> Result<Vec<i64>, NoMemory>
    requires some { 4 < length leaf.now.states }
    requires out { length out.now ≡ length leaf.now.states }
    ensures list { IfOk result (λ own. own.items
        ≡ here ∷ map (λ q. slice_index_or out.now q (pos 0)) (company_of leaf.now 0) ++ alone_zero leaf.now 0) }
    ensures short { IfOk result (λ own. length own.items ≤ length leaf.now.states + 2) }
{
    let mut own = Vec::from_slice(alloc, &[here])?;
    let out = out_of(alloc, leaf, out, 0)?;
    own.extend_from_slice(out.as_slice())?;
    push_alone(&mut own, leaf)?;
    Ok(own)
}

fn push_alone(own: &mut Vec<i64>, leaf: &Leaf) -> Result<(), NoMemory>
    requires { 0 < length leaf.now.states }
    ensures list { OnOk result (own.new.items ≡ own.old.items ++ alone_zero leaf.now 0) }
    ensures short { OnOk result (length own.new.items ≤ length own.old.items + 1) }
{
    if can_meet(leaf, 0, 0) {
        own.push(0)?;
    }
    Ok(())
}

/// With a hub of -2^k, and the facts of the pieces that say true, each there at most once, and the last ones.
fn low_own(
    alloc: Global,
    leaf: &Leaf,
    here: i64,
    out: &[i64],
    twins: &[i64],
    last: &[i64],
) -> Result<Vec<i64>, NoMemory>
    requires some { 4 < length leaf.now.states }
    requires out { length out.now ≡ length leaf.now.states }
    ensures list { IfOk result (λ own. own.items
        ≡ pos 0 ∷ ((here ∷ map (λ q. slice_index_or out.now q (pos 0)) (company_of leaf.now 0) ++ alone_zero leaf.now 0)
        ++ (twins.now ++ last.now))) }
    ensures short { IfOk result (λ own.
        length own.items ≤ length leaf.now.states + 3 + length twins.now + length last.now) }
{
    let mut own = Vec::from_slice(alloc, &[0i64])?;
    let presence = presence(alloc, leaf, here, out)?;
    own.extend_from_slice(presence.as_slice())?;
    let mut rest = Vec::from_slice(alloc, twins)?;
    rest.extend_from_slice(last)?;
    own.extend_from_slice(rest.as_slice())?;
    Ok(own)
}

/// Somebody is worth nothing.
fn nothing_own(alloc: Global, leaf: &Leaf, out: &[i64]) -> Result<Vec<i64>, NoMemory>
    requires some { 4 < length leaf.now.states }
    requires out { length out.now ≡ length leaf.now.states }
    ensures list { IfOk result (λ own. own.items
        ≡ pos 0 ∷ map (λ q. slice_index_or out.now q (pos 0)) (company_of leaf.now 3)) }
    ensures short { IfOk result (λ own. length own.items ≤ length leaf.now.states + 1) }
{
    let mut own = Vec::from_slice(alloc, &[0i64])?;
    let out = out_of(alloc, leaf, out, 3)?;
    own.extend_from_slice(out.as_slice())?;
    Ok(own)
}

/// With a hub of 0, where the sum is below the bound.
fn high_true(alloc: Global, powers: &RoledLeaf<'_>) -> Result<Node, NoMemory>
    ensures { IfOk result (λ node.
        node ≡ weighed_node (high_mix powers.now.coefs.now powers.now.k powers.now.leaf.now true)) }
{
    let worths = amounts(alloc, powers, Amount::Worth)?;
    let own = high_own(alloc, powers.leaf, worths.as_slice())?;
    mixed(alloc, worths.as_slice(), 0, 1, own.as_slice())
}

/// With a hub of 0, where it isn't.
fn high_false(alloc: Global, powers: &RoledLeaf<'_>) -> Result<Node, NoMemory>
    ensures { IfOk result (λ node.
        node ≡ weighed_node (high_mix powers.now.coefs.now powers.now.k powers.now.leaf.now false)) }
{
    let none = same(alloc, powers.leaf, 0)?;
    let wrong = wrong(alloc, powers.leaf, false)?;
    let own = high_own(alloc, powers.leaf, wrong.as_slice())?;
    mixed(alloc, none.as_slice(), 1, 0, own.as_slice())
}

/// With a hub of 0.
pub(crate) fn high(alloc: Global, powers: &RoledLeaf<'_>, b: bool) -> Result<Node, NoMemory>
    ensures { IfOk result (λ node.
        node ≡ weighed_node (high_mix powers.now.coefs.now powers.now.k powers.now.leaf.now b)) }
{
    if b {
        high_true(alloc, powers)
    } else {
        high_false(alloc, powers)
    }
}

/// Nobody is worth nothing: there are too few agents.
pub(crate) fn few(alloc: Global, powers: &RoledLeaf<'_>) -> Result<Node, NoMemory>
    ensures { IfOk result (λ node.
        node ≡ weighed_node (few_mix powers.now.coefs.now powers.now.k powers.now.leaf.now)) }
{
    let ready = amounts(alloc, powers, Amount::Ready)?;
    let out = same(alloc, powers.leaf, -1)?;
    let ones = vec![in alloc; 1i64; powers.k as usize]?;
    let own = low_own(
        alloc,
        powers.leaf,
        0,
        out.as_slice(),
        ones.as_slice(),
        &[-1],
    )?;
    mixed(alloc, ready.as_slice(), 0, 0, own.as_slice())
}

/// With a hub of -2^k, where the sum is below the bound.
fn low_true(alloc: Global, powers: &RoledLeaf<'_>) -> Result<Node, NoMemory>
    ensures { IfOk result (λ node.
        node ≡ weighed_node (low_mix powers.now.coefs.now powers.now.k powers.now.leaf.now true)) }
{
    let none = same(alloc, powers.leaf, 0)?;
    let wrong = wrong(alloc, powers.leaf, true)?;
    let zeros = vec![in alloc; 0i64; powers.k as usize]?;
    let last = nothing_own(alloc, powers.leaf, wrong.as_slice())?;
    let own = low_own(
        alloc,
        powers.leaf,
        0,
        wrong.as_slice(),
        zeros.as_slice(),
        last.as_slice(),
    )?;
    mixed(alloc, none.as_slice(), 1, 0, own.as_slice())
}

/// With a hub of -2^k, where it isn't.
fn low_false(alloc: Global, powers: &RoledLeaf<'_>) -> Result<Node, NoMemory>
    ensures { IfOk result (λ node.
        node ≡ weighed_node (low_mix powers.now.coefs.now powers.now.k powers.now.leaf.now false)) }
{
    let owed = amounts(alloc, powers, Amount::Owed)?;
    let lost = amounts(alloc, powers, Amount::Lost)?;
    let sizes = sizes(alloc, powers.k)?;
    let last = nothing_own(alloc, powers.leaf, lost.as_slice())?;
    let range = size(powers.k);
    let own = low_own(
        alloc,
        powers.leaf,
        range,
        lost.as_slice(),
        sizes.as_slice(),
        last.as_slice(),
    )?;
    mixed(alloc, owed.as_slice(), 0, 1, own.as_slice())
}

/// With a hub of -2^k, and somebody who is worth nothing.
pub(crate) fn low(alloc: Global, powers: &RoledLeaf<'_>, b: bool) -> Result<Node, NoMemory>
    ensures { IfOk result (λ node.
        node ≡ weighed_node (low_mix powers.now.coefs.now powers.now.k powers.now.leaf.now b)) }
{
    if b {
        low_true(alloc, powers)
    } else {
        low_false(alloc, powers)
    }
}
