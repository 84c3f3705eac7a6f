//! The nodes of a tree as JSON text.

ghost use Rattle.std.specs.Prelude.{◌≡◌, ◌++◌, ◌∷◌, [], OnOk, map, codes};
ghost use Rattle.serde_json.specs.Written.{compact_text};
ghost use Rattle.net_json.specs.Written.{number_data, numbers_data};
ghost use Rattle.cert_json.specs.Written.{integer_data, term_data, terms_data, one_part, two_parts, node_data};

use crate::list::{WriteItems, write_list};
use crate::pieces::{push_integer, push_text};
use base_lines::push_number;
use cert_base::{Node, Row, Term};
use pop_io::NoMemory;
use std::alloc::{AllocError, Global};

#[derive(Drop)]
struct Terms<'p> {
    terms: &'p [Term],
}

/// Numbers of states.
#[derive(Drop)]
struct Places<'p> {
    states: &'p [u16],
}

/// The nodes of a tree in preorder.
#[derive(Drop)]
pub(crate) struct Nodes<'p> {
    pub(crate) nodes: &'p [Node],
}

fn push_term(out: &mut Vec<u8>, term: Term) -> Result<(), AllocError>
    ensures { OnOk result (out.new.items ≡ out.old.items ++ compact_text (term_data term)) }
{
    push_text(out, b"[")?;
    push_number(out, u64::from(term.at))?;
    push_text(out, b",")?;
    push_integer(out, term.by)?;
    push_text(out, b"]")?;
    Ok(())
}

impl WriteItems for Terms<'_> {
    ghost use Rattle.std.specs.Prelude.{⊤, map};
    ghost use Rattle.cert_json.specs.Written.{term_data};

    ghost can_write = { λ _. ⊤ };

    ghost items = { λ list. map term_data list.terms.now };

    fn count(&self) -> usize {
        self.terms.len()
    }

    fn write(&self, _alloc: Global, out: &mut Vec<u8>, i: usize) -> Result<(), NoMemory> {
        push_term(out, self.terms[i])?;
        Ok(())
    }
}

impl WriteItems for Places<'_> {
    ghost use Rattle.std.specs.Prelude.{⊤, map};
    ghost use Rattle.net_json.specs.Written.{number_data};

    ghost can_write = { λ _. ⊤ };

    ghost items = { λ list. map number_data list.states.now };

    fn count(&self) -> usize {
        self.states.len()
    }

    fn write(&self, _alloc: Global, out: &mut Vec<u8>, i: usize) -> Result<(), NoMemory> {
        push_number(out, u64::from(self.states[i]))?;
        Ok(())
    }
}

fn write_linear(alloc: Global, out: &mut Vec<u8>, terms: &[Term]) -> Result<(), NoMemory>
    ensures { OnOk result (out.new.items
        ≡ out.old.items ++ compact_text (one_part (codes "lin") (terms_data terms.now))) }
{
    push_text(out, b"[\"lin\",")?;
    write_list(alloc, out, &Terms { terms })?;
    push_text(out, b"]")?;
    Ok(())
}

fn write_residue(
    alloc: Global,
    out: &mut Vec<u8>,
    modulus: u32,
    terms: &[Term],
) -> Result<(), NoMemory>
    ensures { OnOk result (out.new.items
        ≡ out.old.items ++ compact_text (two_parts (codes "residue") (number_data modulus) (terms_data terms.now))) }
{
    push_text(out, b"[\"residue\",")?;
    push_number(out, u64::from(modulus))?;
    push_text(out, b",")?;
    write_list(alloc, out, &Terms { terms })?;
    push_text(out, b"]")?;
    Ok(())
}

fn write_split(alloc: Global, out: &mut Vec<u8>, row: &Row) -> Result<(), NoMemory>
    ensures { OnOk result (out.new.items
        ≡ out.old.items
        ++ compact_text (two_parts (codes "split") (terms_data row.now.terms) (integer_data row.now.constant))) }
{
    push_text(out, b"[\"split\",")?;
    let terms = row.terms.as_slice();
    write_list(alloc, out, &Terms { terms })?;
    push_text(out, b",")?;
    push_integer(out, row.constant)?;
    push_text(out, b"]")?;
    Ok(())
}

/// Adds the node of a set of states, whose text begins with `begin`.
fn write_states(
    alloc: Global,
    out: &mut Vec<u8>,
    begin: &[u8],
    states: &[u16],
) -> Result<(), NoMemory>
    ensures { OnOk result (out.new.items
        ≡ out.old.items ++ (begin.now ++ (compact_text (numbers_data states.now) ++ 93 ∷ []))) }
{
    push_text(out, begin)?;
    write_list(alloc, out, &Places { states })?;
    push_text(out, b"]")?;
    Ok(())
}

/// Adds the node of a number, whose text begins with `begin`.
fn push_numbered(out: &mut Vec<u8>, begin: &[u8], number: u64) -> Result<(), AllocError>
    ensures { OnOk result (out.new.items
        ≡ out.old.items ++ (begin.now ++ (compact_text (number_data number) ++ 93 ∷ []))) }
{
    push_text(out, begin)?;
    push_number(out, number)?;
    push_text(out, b"]")?;
    Ok(())
}

fn write_node(alloc: Global, out: &mut Vec<u8>, node: &Node) -> Result<(), NoMemory>
    ensures { OnOk result (out.new.items ≡ out.old.items ++ compact_text (node_data node.now)) }
{
    match node {
        Node::Linear(terms) => write_linear(alloc, out, terms.as_slice())?,
        Node::Residue(modulus, terms) => write_residue(alloc, out, *modulus, terms.as_slice())?,
        Node::Split(row) => write_split(alloc, out, row)?,
        Node::Present(state) => push_numbered(out, b"[\"present\",", u64::from(*state))?,
        Node::Twin(state) => push_numbered(out, b"[\"twin\",", u64::from(*state))?,
        Node::Trap(set) => write_states(alloc, out, b"[\"trap\",", set.as_slice())?,
        Node::Siphon(set) => write_states(alloc, out, b"[\"siphon\",", set.as_slice())?,
        Node::Open(fact) => push_numbered(out, b"[\"open\",", u64::from(*fact))?,
        Node::First(set) => write_states(alloc, out, b"[\"first\",", set.as_slice())?,
    }
    Ok(())
}

impl WriteItems for Nodes<'_> {
    ghost use Rattle.std.specs.Prelude.{⊤, map};
    ghost use Rattle.cert_json.specs.Written.{node_data};

    ghost can_write = { λ _. ⊤ };

    ghost items = { λ list. map node_data list.nodes.now };

    fn count(&self) -> usize {
        self.nodes.len()
    }

    fn write(&self, alloc: Global, out: &mut Vec<u8>, i: usize) -> Result<(), NoMemory> {
        write_node(alloc, out, &self.nodes[i])
    }
}
