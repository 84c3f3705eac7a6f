//! Writing a proof as a JSON value.

ghost use Rattle.std.specs.Prelude.{◌≡◌, All, map, length, IfOk, Ok, Some};
ghost use Rattle.serde_json.specs.Data.{Data, string};
ghost use Rattle.serde_json.specs.View.{view};
ghost use Rattle.serde_json.specs.Find.{get};
ghost use Rattle.std.specs.Prelude.{codes};
ghost use Rattle.pop_io.specs.Names.{variable_name, AreNames};
ghost use Rattle.pres_ast.specs.PredModel.{IsPred};
ghost use Rattle.pres_read.specs.Canonical.{tree_text};
ghost use Rattle.net_json.specs.Written.{list_data, numbers_data};
ghost use Rattle.cert_base.specs.ProofLimits.{IsProofWithin};
ghost use Rattle.cert_json.specs.Examined.{proof_at};
ghost use Rattle.cert_json.specs.Written.{integers_data, nodes_data, layer_data};
ghost use Rattle.cert_json.specs.Written.{leaf_proof_members, leaf_proof_data, proof_data};

use crate::write_node::nodes_value;
use base_json::put_made;
use cert_base::{Layer, LeafProof, Proof};
use pop_io::{List, NoMemory, Text};
use pres_ast::Pred;
use pres_read::print_pred;
use serde_json::{Map, Value, put};
use std::alloc::{AllocError, Global};

fn moves_value(alloc: Global, moves: &[u32]) -> Result<Value, AllocError>
    ensures { IfOk result (λ v. view v ≡ numbers_data moves.now) }
{
    let mut list = Vec::new(alloc);
    for number in moves {
        list.push(Value::from(*number))?;
    }
    Ok(Value::Array(list))
}

fn weights_value(alloc: Global, weights: &[i64]) -> Result<Value, AllocError>
    ensures { IfOk result (λ v. view v ≡ integers_data weights.now) }
{
    let mut list = Vec::new(alloc);
    for weight in weights {
        list.push(Value::from(*weight))?;
    }
    Ok(Value::Array(list))
}

fn layer_value(alloc: Global, layer: &Layer) -> Result<Value, AllocError>
    ensures { IfOk result (λ v. view v ≡ layer_data layer.now) }
{
    let mut members = Map::new(alloc);
    let moves = layer.moves.as_slice();
    put_made(&mut members, alloc, "moves", moves_value(alloc, moves))?;
    let weights = layer.weights.as_slice();
    put_made(
        &mut members,
        alloc,
        "weights",
        weights_value(alloc, weights),
    )?;
    Ok(Value::Object(members))
}

fn layers_value(alloc: Global, layers: &[Layer]) -> Result<Value, AllocError>
    ensures { IfOk result (λ v. view v ≡ list_data (map layer_data layers.now)) }
{
    let mut list = Vec::new(alloc);
    for layer in layers {
        list.push(layer_value(alloc, layer)?)?;
    }
    Ok(Value::Array(list))
}

/// A predicate's canonical text.
fn pred_value(alloc: Global, pred: &Pred, names: &List<Text>) -> Result<Value, NoMemory>
    requires count { pred.now.variables ≡ length names.now }
    requires names { AreNames variable_name names.now }
    ensures value { IfOk result (λ v. view v ≡ string (tree_text names.now pred.now.tree)) }
    ensures limits { IfOk result (λ v. IsPred (length names.now) pred.now.tree) }
{
    let _ = pred.vars();
    let text = print_pred(alloc, pred, names)?;
    let text = Value::try_from_str(alloc, text.as_str())?;
    Ok(text)
}

/// A leaf's proof with this predicate.
fn leaf_proof_object(alloc: Global, pred: Value, part: &LeafProof) -> Result<Value, AllocError>
    ensures { IfOk result (λ v. view v
        ≡ leaf_proof_members (nodes_data part.now.on_false) (list_data (map layer_data part.now.layers)) (view pred)
        (nodes_data part.now.on_true)) }
{
    let mut members = Map::new(alloc);
    put(&mut members, alloc, "pred", pred)?;
    let on_false = part.on_false.as_slice();
    put_made(&mut members, alloc, "false", nodes_value(alloc, on_false))?;
    let layers = part.layers.as_slice();
    put_made(&mut members, alloc, "layers", layers_value(alloc, layers))?;
    let on_true = part.on_true.as_slice();
    put_made(&mut members, alloc, "true", nodes_value(alloc, on_true))?;
    Ok(Value::Object(members))
}

#[tactic(auto, unfolding(crate::specs::Written::leaf_proof_data))]
fn leaf_proof_value(alloc: Global, part: &LeafProof, names: &List<Text>) -> Result<Value, NoMemory>
    requires count { part.now.pred.variables ≡ length names.now }
    requires names { AreNames variable_name names.now }
    ensures value { IfOk result (λ v. view v ≡ leaf_proof_data names.now part.now) }
    ensures limits { IfOk result (λ v. IsPred (length names.now) part.now.pred.tree) }
{
    let pred = pred_value(alloc, &part.pred, names)?;
    let value = leaf_proof_object(alloc, pred, part)?;
    Ok(value)
}

#[tactic(auto, unfolding(crate::specs::Written::proof_data))]
fn proof_value(alloc: Global, proof: &Proof, names: &List<Text>) -> Result<Value, NoMemory>
    requires count { All (λ part. part.pred.variables ≡ length names.now) proof.now.leaves }
    requires names { AreNames variable_name names.now }
    ensures value { IfOk result (λ v. view v ≡ proof_data names.now proof.now) }
    ensures limits { IfOk result (λ v. All (λ part. IsPred (length names.now) part.pred.tree) proof.now.leaves) }
{
    let mut list = Vec::new(alloc);
    let parts = proof.leaves.as_slice();
    for part in parts {
        list.push(leaf_proof_value(alloc, part, names)?)?;
    }
    Ok(Value::Array(list))
}

/// The member `proof` of a bundle over these names: the named members alone, in the byte order of their names, and
/// each predicate as its canonical text.
pub fn write_proof(alloc: Global, proof: &Proof, names: &List<Text>) -> Result<Value, NoMemory>
    requires count { All (λ part. part.pred.variables ≡ length names.now) proof.now.leaves }
    requires names { AreNames variable_name names.now }
    ensures value { IfOk result (λ v. view v ≡ proof_data names.now proof.now) }
    // A bundle with this member, over these names and for as many leaves, is read to an equal proof, within the limits.
    ensures again { IfOk result (λ v. (bundle : Data) → get (codes "proof") bundle ≡ Some (view v)
        → IsProofWithin (length names.now) (length proof.now.leaves) proof.now
        → proof_at names.now (length proof.now.leaves) bundle ≡ Ok proof.now) }
{
    proof_value(alloc, proof, names)
}
