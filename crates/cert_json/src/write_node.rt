//! Writing nodes as JSON values.

ghost use Rattle.std.specs.Prelude.{◌≡◌, [], ◌∷◌, map, IfOk};
ghost use Rattle.serde_json.specs.Data.{string};
ghost use Rattle.serde_json.specs.View.{view};
ghost use Rattle.net_json.specs.Written.{numbers_data};
ghost use Rattle.cert_json.specs.Kinds.{kind_text};
ghost use Rattle.cert_json.specs.Written.{term_data, terms_data, one_part, two_parts, node_data, nodes_data};

use crate::kind::NodeKind;
use cert_base::{Node, Term};
use serde_json::{Value, push};
use std::alloc::{AllocError, Global};

fn term_value(alloc: Global, term: Term) -> Result<Value, AllocError>
    ensures { IfOk result (λ v. view v ≡ term_data term) }
{
    let mut list = Vec::new(alloc);
    push(&mut list, Value::from(term.at))?;
    push(&mut list, Value::from(term.by))?;
    Ok(Value::Array(list))
}

fn terms_value(alloc: Global, terms: &[Term]) -> Result<Value, AllocError>
    ensures { IfOk result (λ v. view v ≡ terms_data terms.now) }
{
    let mut list = Vec::new(alloc);
    for term in terms {
        list.push(term_value(alloc, *term)?)?;
    }
    Ok(Value::Array(list))
}

fn states_value(alloc: Global, states: &[u16]) -> Result<Value, AllocError>
    ensures { IfOk result (λ v. view v ≡ numbers_data states.now) }
{
    let mut list = Vec::new(alloc);
    for state in states {
        list.push(Value::from(*state))?;
    }
    Ok(Value::Array(list))
}

/// A list with the word of a kind.
fn word_list(alloc: Global, kind: NodeKind) -> Result<Vec<Value>, AllocError>
    ensures { IfOk result (λ list. map view list.items ≡ string (kind_text kind) ∷ []) }
{
    let mut list = Vec::new(alloc);
    push(&mut list, Value::try_from_str(alloc, kind.text())?)?;
    Ok(list)
}

fn one_value(alloc: Global, kind: NodeKind, part: Value) -> Result<Value, AllocError>
    ensures { IfOk result (λ v. view v ≡ one_part (kind_text kind) (view part)) }
{
    let mut list = word_list(alloc, kind)?;
    push(&mut list, part)?;
    Ok(Value::Array(list))
}

fn two_value(alloc: Global, kind: NodeKind, part: Value, rest: Value) -> Result<Value, AllocError>
    ensures { IfOk result (λ v. view v ≡ two_parts (kind_text kind) (view part) (view rest)) }
{
    let mut list = word_list(alloc, kind)?;
    push(&mut list, part)?;
    push(&mut list, rest)?;
    Ok(Value::Array(list))
}

fn node_value(alloc: Global, node: &Node) -> Result<Value, AllocError>
    ensures { IfOk result (λ v. view v ≡ node_data node.now) }
{
    match node {
        Node::Linear(terms) => {
            let terms = terms_value(alloc, terms.as_slice())?;
            one_value(alloc, NodeKind::Linear, terms)
        }
        Node::Residue(modulus, terms) => {
            let terms = terms_value(alloc, terms.as_slice())?;
            two_value(alloc, NodeKind::Residue, Value::from(*modulus), terms)
        }
        Node::Split(row) => {
            let terms = terms_value(alloc, row.terms.as_slice())?;
            two_value(alloc, NodeKind::Split, terms, Value::from(row.constant))
        }
        Node::Present(state) => one_value(alloc, NodeKind::Present, Value::from(*state)),
        Node::Twin(state) => one_value(alloc, NodeKind::Twin, Value::from(*state)),
        Node::Trap(set) => {
            let set = states_value(alloc, set.as_slice())?;
            one_value(alloc, NodeKind::Trap, set)
        }
        Node::Siphon(set) => {
            let set = states_value(alloc, set.as_slice())?;
            one_value(alloc, NodeKind::Siphon, set)
        }
        Node::Open(fact) => one_value(alloc, NodeKind::Open, Value::from(*fact)),
        Node::First(set) => {
            let set = states_value(alloc, set.as_slice())?;
            one_value(alloc, NodeKind::First, set)
        }
    }
}

pub(crate) fn nodes_value(alloc: Global, nodes: &[Node]) -> Result<Value, AllocError>
    ensures { IfOk result (λ v. view v ≡ nodes_data nodes.now) }
{
    let mut list = Vec::new(alloc);
    for node in nodes {
        list.push(node_value(alloc, node)?)?;
    }
    Ok(Value::Array(list))
}
