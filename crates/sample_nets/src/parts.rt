//! Lists, texts, leaves and nets from plain values.

ghost use Rattle.std.specs.Prelude.{◌≡◌, length, IfOk, IfSome};

use pop_io::{List, Text};
use pop_net::{Item, Leaf, Move, Net};
use std::alloc::{AllocError, Global};

/// A list of these items.
pub fn list<T: Copy>(alloc: Global, items: &[T]) -> Result<List<T>, AllocError>
    ensures { IfOk result (λ list. list ≡ items.now) }
{
    Ok(List::from_vec(Vec::from_slice(alloc, items)?))
}

/// A list of these texts.
pub fn texts(alloc: Global, names: &[&str]) -> Result<List<Text>, AllocError>
    ensures { IfOk result (λ list. length list ≡ length names.now) }
{
    let mut list = Vec::new(alloc);
    for name in names {
        list.push(Text::from_string(String::from_str(alloc, name)?))?;
    }
    Ok(List::from_vec(list))
}

/// This many texts: `x0`, `x1` and so on.
pub fn numbered(alloc: Global, count: usize) -> Result<List<Text>, AllocError>
    ensures { IfOk result (λ list. length list ≡ count) }
{
    let mut list = Vec::new(alloc);
    for k in 0..count {
        list.push(Text::from_string(format!(in alloc; "x{k}")?))?;
    }
    Ok(List::from_vec(list))
}

/// The move `p,q -> r,s`.
pub fn step(p: u16, q: u16, r: u16, s: u16) -> Move
    ensures { result ≡ record { p = p; q = q; r = r; s = s } }
{
    Move { p, q, r, s }
}

/// A leaf of these parts, if they break no rule.
pub fn leaf_of(
    alloc: Global,
    states: &[&str],
    moves: &[Move],
    inputs: &[u16],
    outputs: &[bool],
    helpers: &[u16],
) -> Option<Leaf> {
    let states = texts(alloc, states).ok()?;
    let moves = list(alloc, moves).ok()?;
    let inputs = list(alloc, inputs).ok()?;
    let outputs = list(alloc, outputs).ok()?;
    let helpers = list(alloc, helpers).ok()?;
    Leaf::with_helpers(alloc, states, moves, inputs, outputs, helpers).ok()
}

/// A net of these parts, if they break no rule.
pub fn net_of(alloc: Global, variables: &[&str], leaves: Vec<Leaf>, combine: &[Item]) -> Option<Net>
    ensures { IfSome result (λ net. length net.variables ≡ length variables.now) }
{
    let variables = texts(alloc, variables).ok()?;
    let combine = list(alloc, combine).ok()?;
    Net::new(alloc, variables, List::from_vec(leaves), combine).ok()
}
