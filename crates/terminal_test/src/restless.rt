//! The states that can react with those of a crowd.

ghost use Rattle.std.specs.Prelude.{◌≡◌, ◌<◌, length, map, nat_le, IfOk, false};
ghost use Rattle.std.specs.List.{list_all};
ghost use Rattle.pop_net.specs.Lanes.{tuple_of, crowd_of, IsValid, AreValid};
ghost use Rattle.pop_net.proofs.Projection.{component};
ghost use Rattle.terminal_test.specs.Loud.{pairs_of_moves, ArePairsBelow};
ghost use Rattle.terminal_test.specs.Restless.{AreSeen, are_held_by, AreMarkedByAll, IsMarked, IsLeafOf, AreRestless};
ghost use Rattle.terminal_test.specs.Restless.{AreSizes, IsCalm};

use pop_crowd::Crowd;
use pop_io::{List, NoMemory};
use pop_net::{Net, Word};
use std::alloc::Global;

/// A state is that of one agent, or of at least two.
const ONCE: u8 = 1;

const TWICE: u8 = 2;

/// For each leaf, whether a state can react with a state of the crowd.
pub(crate) fn restless_states(
    alloc: Global,
    net: &Net,
    loud: &[List<(u16, u16)>],
    crowd: &Crowd,
) -> Result<Vec<List<bool>>, NoMemory>
    requires pairs { loud.now ≡ map (λ leaf. pairs_of_moves leaf.moves) net.now.leaves }
    requires valid { AreValid net.now crowd.now }
    ensures { IfOk result (λ restless. AreRestless net.now (crowd_of net.now crowd.now) restless.items) }
{
    let mut restless = Vec::new(alloc);
    for leaf in 0..net.leaf_count() {
        restless.push(leaf_marks(alloc, net, crowd, leaf, loud[leaf as usize].as_slice())?)?;
    }
    Ok(restless)
}

/// Whether a state of a leaf can react with a state of the crowd.
fn leaf_marks(
    alloc: Global,
    net: &Net,
    crowd: &Crowd,
    leaf: u8,
    pairs: &[(u16, u16)],
) -> Result<List<bool>, NoMemory>
    requires leaf_in { leaf < length net.now.leaves }
    requires pairs { IsLeafOf net.now leaf (λ here. pairs.now ≡ pairs_of_moves here.moves) }
    requires valid { AreValid net.now crowd.now }
    ensures { IfOk result
        (λ marks. IsLeafOf net.now leaf (λ here. IsMarked here (component leaf (crowd_of net.now crowd.now)) marks)) }
{
    // Makes known that the pairs, of this leaf's moves, are in its range.
    let _formed = net.leaf(leaf).state_count();
    let seen = seen_states(alloc, net, crowd, leaf)?;
    let marks = marked_states(alloc, pairs, seen.as_slice())?;
    Ok(marks)
}

/// Whether a word has a state in which its agent may change.
pub(crate) fn is_restless(net: &Net, restless: &[List<bool>], word: Word) -> bool
    requires valid { IsValid net.now word }
    requires one_each { length restless.now ≡ length net.now.leaves }
    requires sizes { AreSizes net.now restless.now }
    ensures { result ≡ false → IsCalm restless.now (tuple_of net.now word) }
{
    for leaf in 0..net.leaf_count() {
        if restless[leaf as usize].as_slice()[net.lane(word, leaf) as usize] {
            return true;
        }
    }
    false
}

/// How many agents are in each state of a leaf, counted up to two. It ends where each state was seen twice.
fn seen_states(alloc: Global, net: &Net, crowd: &Crowd, leaf: u8) -> Result<Vec<u8>, NoMemory>
    requires leaf_in { leaf < length net.now.leaves }
    requires valid { AreValid net.now crowd.now }
    ensures { IfOk result (λ seen. AreSeen net.now leaf (crowd_of net.now crowd.now) seen.items) }
{
    let mut seen = vec![in alloc; 0u8; net.leaf(leaf).state_count() as usize]?;
    for agent in 0..crowd.len() {
        let state = net.lane(crowd.word(agent), leaf) as usize;
        if seen[state] < TWICE {
            seen[state] += ONCE;
            if are_all_twice(seen.as_slice()) {
                return Ok(seen);
            }
        }
    }
    Ok(seen)
}

/// Whether each state was seen twice.
fn are_all_twice(seen: &[u8]) -> bool
    ensures { result ≡ list_all (λ count. nat_le TWICE count) seen.now }
{
    seen.iter().all(|count| *count >= TWICE)
}

/// The states of the pairs that can meet.
fn marked_states(alloc: Global, pairs: &[(u16, u16)], seen: &[u8]) -> Result<List<bool>, NoMemory>
    requires { ArePairsBelow (length seen.now) pairs.now }
    ensures { IfOk result (AreMarkedByAll pairs.now seen.now) }
{
    let mut marks = vec![in alloc; false; seen.len()]?;
    for pair in pairs {
        let (p, q) = *pair;
        if are_held(seen, p, q) {
            marks[p as usize] = true;
            marks[q as usize] = true;
        }
    }
    Ok(List::from_vec(marks))
}

/// Whether two different agents are in these states.
fn are_held(seen: &[u8], p: u16, q: u16) -> bool
    requires p_in { p < length seen.now }
    requires q_in { q < length seen.now }
    ensures { result ≡ are_held_by seen.now p q }
{
    let first = seen[p as usize];
    let second = seen[q as usize];
    if p == q {
        first >= TWICE
    } else {
        first >= ONCE && second >= ONCE
    }
}
