//! Nodes and lists of nodes.

ghost use Rattle.std.specs.Prelude.{map};
ghost use Rattle.serde_json.specs.View.{view};
ghost use Rattle.base_json.specs.Faults.{GivesRead};
ghost use Rattle.base_json.specs.Paths.{path_text};
ghost use Rattle.base_json.specs.Shapes.{member_by};
ghost use Rattle.cert_base.specs.declared.node.Node.TheVariants.{Residue};
ghost use Rattle.cert_json.specs.Examined.{index_at, state_at, modulus_at, small_at, terms_at, row_terms_at};
ghost use Rattle.cert_json.specs.Examined.{set_states_at, only_by, with_two, split_by, after_word, nodes_at};

use crate::kind::NodeKind;
use crate::terms::{index_of, modulus_of, row_terms_of, small_of, state_of, states_of, terms_of};
use base_json::{
    FormatFault, Path, ReadItem, Why, both_items, broken, each_in, items_of, only_item, word_of,
};
use cert_base::{NODE_LIMIT, Node, Row, Term};
use pop_io::List;
use serde_json::Value;
use std::alloc::Global;

/// The terms after the word, if no other item is there.
fn terms_after(alloc: Global, path: &Path<'_>, items: &[Value]) -> Result<List<Term>, FormatFault>
    ensures { GivesRead (λ ts. ts) result (only_by terms_at (path_text path.now) (map view items.now)) }
{
    let item = only_item(alloc, path, items)?;
    terms_of(alloc, &Path::Item(path, 1), item)
}

/// The set of states after the word, if no other item is there.
fn set_after(alloc: Global, path: &Path<'_>, items: &[Value]) -> Result<List<u16>, FormatFault>
    ensures { GivesRead (λ qs. qs) result (only_by set_states_at (path_text path.now) (map view items.now)) }
{
    let item = only_item(alloc, path, items)?;
    states_of(alloc, &Path::Item(path, 1), item)
}

/// The state after the word, if no other item is there.
fn state_after(alloc: Global, path: &Path<'_>, items: &[Value]) -> Result<u16, FormatFault>
    ensures { GivesRead (λ q. q) result (only_by state_at (path_text path.now) (map view items.now)) }
{
    let item = only_item(alloc, path, items)?;
    state_of(alloc, &Path::Item(path, 1), item)
}

/// The number after the word, if no other item is there.
fn index_after(alloc: Global, path: &Path<'_>, items: &[Value]) -> Result<u32, FormatFault>
    ensures { GivesRead (λ n. n) result (only_by index_at (path_text path.now) (map view items.now)) }
{
    let item = only_item(alloc, path, items)?;
    index_of(alloc, &Path::Item(path, 1), item)
}

/// The modulus and the terms after the word.
fn residue_after(alloc: Global, path: &Path<'_>, items: &[Value]) -> Result<Node, FormatFault>
    ensures { GivesRead (λ node. node) result
        (with_two modulus_at terms_at Residue (path_text path.now) (map view items.now)) }
{
    let (modulus, terms) = both_items(alloc, path, items)?;
    let modulus = modulus_of(alloc, &Path::Item(path, 1), modulus)?;
    let terms = terms_of(alloc, &Path::Item(path, 2), terms)?;
    Ok(Node::Residue(modulus, terms))
}

/// The row's terms and its constant after the word.
fn split_after(alloc: Global, path: &Path<'_>, items: &[Value]) -> Result<Node, FormatFault>
    ensures { GivesRead (λ node. node) result
        (with_two row_terms_at small_at split_by (path_text path.now) (map view items.now)) }
{
    let (terms, constant) = both_items(alloc, path, items)?;
    let terms = row_terms_of(alloc, &Path::Item(path, 1), terms)?;
    let constant = small_of(alloc, &Path::Item(path, 2), constant)?;
    Ok(Node::Split(Row { terms, constant }))
}

/// What stands after the word, for each kind of node.
fn after_word(
    alloc: Global,
    path: &Path<'_>,
    kind: NodeKind,
    items: &[Value],
) -> Result<Node, FormatFault>
    ensures { GivesRead (λ node. node) result (after_word (path_text path.now) kind (map view items.now)) }
{
    match kind {
        NodeKind::Linear => terms_after(alloc, path, items).map(Node::Linear),
        NodeKind::Residue => residue_after(alloc, path, items),
        NodeKind::Split => split_after(alloc, path, items),
        NodeKind::Present => state_after(alloc, path, items).map(Node::Present),
        NodeKind::Twin => state_after(alloc, path, items).map(Node::Twin),
        NodeKind::Trap => set_after(alloc, path, items).map(Node::Trap),
        NodeKind::Siphon => set_after(alloc, path, items).map(Node::Siphon),
        NodeKind::Open => index_after(alloc, path, items).map(Node::Open),
        NodeKind::First => set_after(alloc, path, items).map(Node::First),
    }
}

#[derive(Clone, Copy)]
struct Nodes;

impl ReadItem for Nodes {
    ghost use Rattle.std.specs.Prelude.{⊤};
    ghost use Rattle.cert_json.specs.Examined.{node_item};

    type Item = Node;

    ghost can_read = { λ _. ⊤ };

    ghost item_at = { λ _. node_item };

    #[tactic(auto, unfolding(crate::specs::Examined::node_at))]
    fn read(
        &self,
        alloc: Global,
        path: &Path<'_>,
        _found: &[Node],
        value: &Value,
    ) -> Result<Node, FormatFault> {
        let items = items_of(alloc, path, value)?;
        let text = word_of(alloc, path, items)?;
        match NodeKind::named(text) {
            Some(kind) => after_word(alloc, path, kind, items),
            None => Err(broken(alloc, &Path::Item(path, 0), Why::Name)),
        }
    }
}

/// A member by its name: at most `NODE_LIMIT` nodes.
pub(crate) fn nodes_of(
    alloc: Global,
    path: &Path<'_>,
    member: &str,
    value: &Value,
) -> Result<List<Node>, FormatFault>
    ensures { GivesRead (λ nodes. nodes) result
        (member_by (path_text path.now) member.now nodes_at (view value.now)) }
{
    each_in(alloc, path, member, 0, NODE_LIMIT, &Nodes, value)
}
