//! The nodes that rest on the full state alone, which is the last one.

ghost use Rattle.std.specs.Prelude.{◌≡◌, ◌≤◌, ◌+◌, ◌^◌, ◌∷◌, [], length, IfOk};
ghost use Rattle.cert_base.specs.declared.node.Node.TheVariants.{Siphon};
ghost use Rattle.comp_trees.specs.LeaderTree.{weighed_node};
ghost use Rattle.comp_counting.specs.declared.limits.TheConstants.{POWER_LIMIT, PLACE_LIMIT};
ghost use Rattle.comp_counting.specs.FullState.{converted_mix, start_mix, never_mix, full_tree as tree_of_full};

use cert_base::Node;
use comp_trees::{MULTIPLIER_LIMIT, mix, weighed};
use pop_io::{List, NoMemory};
use std::alloc::Global;

/// The number of the fact that is opened: that the predicate has its value.
pub fn opened_number(power: u16) -> u32
    requires { power ≤ PLACE_LIMIT }
    ensures { result ≡ power + 2 + 1 }
{
    u32::from(power) + 2 + 1
}

/// The siphon of the full state alone.
fn siphon(alloc: Global, power: u16) -> Result<Node, NoMemory>
    requires { power ≤ PLACE_LIMIT }
    ensures { IfOk result (λ node. node ≡ Siphon ((power + 1) ∷ [])) }
{
    let full = Vec::from_slice(alloc, &[power + 1])?;
    Ok(Node::Siphon(List::from_vec(full)))
}

/// The node that these multipliers close.
pub fn node(alloc: Global, multipliers: Vec<i64>) -> Result<Node, NoMemory>
    requires { length multipliers.items ≤ MULTIPLIER_LIMIT }
    ensures { IfOk result (λ node. node ≡ weighed_node multipliers.items) }
{
    let node = weighed(alloc, multipliers.as_slice())?;
    Ok(node)
}

/// The full state is present, and nothing else.
fn converted(alloc: Global, power: u16) -> Result<Vec<i64>, NoMemory>
    requires { power ≤ PLACE_LIMIT }
    ensures { IfOk result (λ multipliers. multipliers.items ≡ converted_mix power) }
{
    let mut own = Vec::from_slice(alloc, &[0i64])?;
    let absent = vec![in alloc; -1i64; usize::from(power + 1)]?;
    own.extend_from_slice(absent.as_slice())?;
    let flows = vec![in alloc; 0i64; usize::from(power + 2)]?;
    mix(alloc, flows.as_slice(), 1, 0, own.as_slice())
}

/// An agent started in the full state, so it is enough.
fn start(alloc: Global, enough: u64, power: u16) -> Result<Vec<i64>, NoMemory>
    requires enough { enough ≤ 2 ^ POWER_LIMIT }
    requires power { power ≤ PLACE_LIMIT }
    ensures { IfOk result (λ multipliers. multipliers.items ≡ start_mix enough power) }
{
    let flows = vec![in alloc; 0i64; usize::from(power + 2)]?;
    mix(alloc, flows.as_slice(), 0, 1, &[enough as i64])
}

/// The full state never occurred.
fn never(alloc: Global, power: u16) -> Result<Vec<i64>, NoMemory>
    requires { power ≤ PLACE_LIMIT }
    ensures { IfOk result (λ multipliers. multipliers.items ≡ never_mix power) }
{
    let mut own = vec![in alloc; 0i64; usize::from(power + 1)]?;
    own.extend_from_slice(&[-1])?;
    let flows = vec![in alloc; 0i64; usize::from(power + 2)]?;
    mix(alloc, flows.as_slice(), 1, 0, own.as_slice())
}

/// It is present, so all others were turned to it.
pub fn converted_node(alloc: Global, power: u16) -> Result<Node, NoMemory>
    requires { power ≤ PLACE_LIMIT }
    ensures { IfOk result (λ node. node ≡ weighed_node (converted_mix power)) }
{
    let multipliers = converted(alloc, power)?;
    node(alloc, multipliers)
}

fn start_node(alloc: Global, enough: u64, power: u16) -> Result<Node, NoMemory>
    requires enough { enough ≤ 2 ^ POWER_LIMIT }
    requires power { power ≤ PLACE_LIMIT }
    ensures { IfOk result (λ node. node ≡ weighed_node (start_mix enough power)) }
{
    let multipliers = start(alloc, enough, power)?;
    node(alloc, multipliers)
}

fn never_node(alloc: Global, power: u16) -> Result<Node, NoMemory>
    requires { power ≤ PLACE_LIMIT }
    ensures { IfOk result (λ node. node ≡ weighed_node (never_mix power)) }
{
    let multipliers = never(alloc, power)?;
    node(alloc, multipliers)
}

/// The tree where there are too few, by the multipliers of the first full agent: it was put together, or was there at
/// the start, or never occurred.
pub fn full_tree(
    alloc: Global,
    enough: u64,
    power: u16,
    first: Vec<i64>,
) -> Result<List<Node>, NoMemory>
    requires enough { enough ≤ 2 ^ POWER_LIMIT }
    requires power { power ≤ PLACE_LIMIT }
    requires first { length first.items ≤ MULTIPLIER_LIMIT }
    ensures { IfOk result (λ nodes. nodes ≡ tree_of_full enough power first.items) }
{
    let mut nodes = Vec::new(alloc);
    nodes.push(Node::Open(opened_number(power)))?;
    nodes.push(siphon(alloc, power)?)?;
    nodes.push(node(alloc, first)?)?;
    nodes.push(start_node(alloc, enough, power)?)?;
    nodes.push(never_node(alloc, power)?)?;
    Ok(List::from_vec(nodes))
}
