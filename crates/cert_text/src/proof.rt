//! A proof as JSON text.

ghost use Rattle.std.specs.Prelude.{◌≡◌, ◌++◌, All, length, OnOk};
ghost use Rattle.serde_json.specs.Written.{compact_text};
ghost use Rattle.pop_io.specs.Names.{variable_name, AreNames};
ghost use Rattle.cert_json.specs.Written.{layer_data, leaf_proof_data, proof_data};

use crate::list::{WriteItems, write_list};
use crate::node::Nodes;
use crate::pieces::{push_integer, push_quoted, push_text};
use base_lines::push_number;
use cert_base::{Layer, LeafProof, Proof};
use pop_io::{List, NoMemory, Text};
use pres_read::print_pred;
use std::alloc::Global;

/// Numbers of moves.
#[derive(Drop)]
struct Moves<'p> {
    moves: &'p [u32],
}

/// A weight for each state.
#[derive(Drop)]
struct Weights<'p> {
    weights: &'p [i64],
}

#[derive(Drop)]
struct Layers<'p> {
    layers: &'p [Layer],
}

/// The proofs of the leaves, whose predicates are over these names.
#[derive(Drop)]
struct Parts<'p> {
    parts: &'p [LeafProof],
    names: &'p List<Text>,
}

impl WriteItems for Moves<'_> {
    ghost use Rattle.std.specs.Prelude.{⊤, map};
    ghost use Rattle.net_json.specs.Written.{number_data};

    ghost can_write = { λ _. ⊤ };

    ghost items = { λ list. map number_data list.moves.now };

    fn count(&self) -> usize {
        self.moves.len()
    }

    fn write(&self, _alloc: Global, out: &mut Vec<u8>, i: usize) -> Result<(), NoMemory> {
        push_number(out, u64::from(self.moves[i]))?;
        Ok(())
    }
}

impl WriteItems for Weights<'_> {
    ghost use Rattle.std.specs.Prelude.{⊤, map};
    ghost use Rattle.cert_json.specs.Written.{integer_data};

    ghost can_write = { λ _. ⊤ };

    ghost items = { λ list. map integer_data list.weights.now };

    fn count(&self) -> usize {
        self.weights.len()
    }

    fn write(&self, _alloc: Global, out: &mut Vec<u8>, i: usize) -> Result<(), NoMemory> {
        push_integer(out, self.weights[i])?;
        Ok(())
    }
}

fn write_layer(alloc: Global, out: &mut Vec<u8>, layer: &Layer) -> Result<(), NoMemory>
    ensures { OnOk result (out.new.items ≡ out.old.items ++ compact_text (layer_data layer.now)) }
{
    push_text(out, b"{\"moves\":")?;
    let moves = layer.moves.as_slice();
    write_list(alloc, out, &Moves { moves })?;
    push_text(out, b",\"weights\":")?;
    let weights = layer.weights.as_slice();
    write_list(alloc, out, &Weights { weights })?;
    push_text(out, b"}")?;
    Ok(())
}

impl WriteItems for Layers<'_> {
    ghost use Rattle.std.specs.Prelude.{⊤, map};
    ghost use Rattle.cert_json.specs.Written.{layer_data};

    ghost can_write = { λ _. ⊤ };

    ghost items = { λ list. map layer_data list.layers.now };

    fn count(&self) -> usize {
        self.layers.len()
    }

    fn write(&self, alloc: Global, out: &mut Vec<u8>, i: usize) -> Result<(), NoMemory> {
        write_layer(alloc, out, &self.layers[i])
    }
}

/// Adds the proof of a leaf.
fn write_part(
    alloc: Global,
    out: &mut Vec<u8>,
    part: &LeafProof,
    names: &List<Text>,
) -> Result<(), NoMemory>
    requires count { part.now.pred.variables ≡ length names.now }
    requires names { AreNames variable_name names.now }
    ensures { OnOk result (out.new.items ≡ out.old.items ++ compact_text (leaf_proof_data names.now part.now)) }
{
    push_text(out, b"{\"false\":")?;
    let nodes = part.on_false.as_slice();
    write_list(alloc, out, &Nodes { nodes })?;
    push_text(out, b",\"layers\":")?;
    let layers = part.layers.as_slice();
    write_list(alloc, out, &Layers { layers })?;
    push_text(out, b",\"pred\":")?;
    let pred = print_pred(alloc, &part.pred, names)?;
    push_quoted(alloc, out, pred.as_str())?;
    push_text(out, b",\"true\":")?;
    let nodes = part.on_true.as_slice();
    write_list(alloc, out, &Nodes { nodes })?;
    push_text(out, b"}")?;
    Ok(())
}

impl WriteItems for Parts<'_> {
    ghost use Rattle.std.specs.Prelude.{◌≡◌, map, length, All};
    ghost use Rattle.pop_io.specs.Names.{variable_name, AreNames};
    ghost use Rattle.cert_json.specs.Written.{leaf_proof_data};

    ghost can_write = { λ list.
        All (λ part. part.pred.variables ≡ length list.names.now) list.parts.now
        × AreNames variable_name list.names.now };

    ghost items = { λ list. map (leaf_proof_data list.names.now) list.parts.now };

    fn count(&self) -> usize {
        self.parts.len()
    }

    fn write(&self, alloc: Global, out: &mut Vec<u8>, i: usize) -> Result<(), NoMemory> {
        write_part(alloc, out, &self.parts[i], self.names)
    }
}

/// Adds a proof over these names.
pub(crate) fn write_proof(
    alloc: Global,
    out: &mut Vec<u8>,
    proof: &Proof,
    names: &List<Text>,
) -> Result<(), NoMemory>
    requires count { All (λ part. part.pred.variables ≡ length names.now) proof.now.leaves }
    requires names { AreNames variable_name names.now }
    ensures { OnOk result (out.new.items ≡ out.old.items ++ compact_text (proof_data names.now proof.now)) }
{
    let parts = proof.leaves.as_slice();
    write_list(alloc, out, &Parts { parts, names })?;
    Ok(())
}
