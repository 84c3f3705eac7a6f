//! Reading a proof from a bundle's JSON value.

ghost use Rattle.std.specs.Prelude.{◌≡◌, ◌≤◌, codes, length, IfOk};
ghost use Rattle.serde_json.specs.View.{view};
ghost use Rattle.pop_io.specs.Names.{variable_name, AreNames};
ghost use Rattle.base_json.specs.Faults.{GivesRead};
ghost use Rattle.base_json.specs.Paths.{path_text};
ghost use Rattle.base_json.specs.Shapes.{member_by};
ghost use Rattle.cert_base.specs.declared.proof.Proof.{Proof};
ghost use Rattle.cert_json.specs.Calls.{IsReadProof};
ghost use Rattle.cert_json.specs.Examined.{pred_at, why_of, leaf_proof_at, leaf_proofs_at, proof_at};

use crate::layers::layers_of;
use crate::node::nodes_of;
use base_json::{
    FormatFault, Path, PredWhy, ReadItem, Why, broken, each_in, member_of, object_of, text_of,
};
use cert_base::{LeafProof, Proof};
use pop_io::{Failure, List, Text, VARIABLE_LIMIT};
use pop_net::Net;
use pres_ast::Pred;
use pres_read::{ReadPred, read_pred};
use serde_json::Value;
use std::alloc::Global;

/// Why a text is no predicate, in the words of a file's fault.
pub fn pred_why(fault: ReadPred) -> PredWhy
    ensures { result ≡ why_of fault }
{
    match fault {
        ReadPred::Syntax(at) => PredWhy::Syntax(at),
        ReadPred::UnknownName(at) => PredWhy::UnknownName(at),
        ReadPred::TooLarge(at) => PredWhy::TooLarge(at),
        ReadPred::TooDeep(at) => PredWhy::TooDeep(at),
        ReadPred::LongText(length) => PredWhy::LongText(length),
    }
}

/// A predicate over these names.
#[tactic(auto, unfolding(crate::specs::Examined::pred_at))]
fn pred_from(
    alloc: Global,
    path: &Path<'_>,
    names: &List<Text>,
    value: &Value,
) -> Result<Pred, FormatFault>
    requires some { 1 ≤ length names.now }
    requires few { length names.now ≤ VARIABLE_LIMIT }
    requires names { AreNames variable_name names.now }
    ensures pred { GivesRead (λ pred. pred) result (pred_at names.now (path_text path.now) (view value.now)) }
    ensures variables { IfOk result (λ pred. pred.variables ≡ length names.now) }
{
    let text = text_of(alloc, path, value)?;
    match read_pred(alloc, text.as_bytes(), names) {
        Ok(pred) => Ok(pred),
        Err(Failure::Fault(fault)) => Err(broken(alloc, path, Why::Pred(pred_why(fault)))),
        Err(Failure::NoMemory) => Err(FormatFault::NoMemory),
    }
}

/// The member `pred`: a predicate over these names.
pub(crate) fn pred_of(
    alloc: Global,
    path: &Path<'_>,
    names: &List<Text>,
    value: &Value,
) -> Result<Pred, FormatFault>
    requires some { 1 ≤ length names.now }
    requires few { length names.now ≤ VARIABLE_LIMIT }
    requires names { AreNames variable_name names.now }
    ensures pred { GivesRead (λ pred. pred) result
        (member_by (path_text path.now) (codes "pred") (pred_at names.now) (view value.now)) }
    ensures variables { IfOk result (λ pred. pred.variables ≡ length names.now) }
{
    let pred = member_of(alloc, path, "pred", value)?;
    pred_from(alloc, &Path::Member(path, "pred"), names, pred)
}

/// The proof of a leaf over these names.
#[tactic(auto, unfolding(crate::specs::Examined::leaf_proof_at))]
pub(crate) fn leaf_proof_of(
    alloc: Global,
    path: &Path<'_>,
    names: &List<Text>,
    value: &Value,
) -> Result<LeafProof, FormatFault>
    requires some { 1 ≤ length names.now }
    requires few { length names.now ≤ VARIABLE_LIMIT }
    requires names { AreNames variable_name names.now }
    ensures { GivesRead (λ part. part) result (leaf_proof_at names.now (path_text path.now) (view value.now)) }
{
    object_of(alloc, path, value)?;
    let pred = pred_of(alloc, path, names, value)?;
    let layers = layers_of(alloc, path, value)?;
    let on_true = nodes_of(alloc, path, "true", value)?;
    let on_false = nodes_of(alloc, path, "false", value)?;
    Ok(LeafProof {
        pred,
        layers,
        on_true,
        on_false,
    })
}

/// Proofs of leaves over these names.
#[derive(Drop)]
struct LeafProofs<'a> {
    names: &'a List<Text>,
}

impl<'a> ReadItem for LeafProofs<'a> {
    ghost use Rattle.std.specs.Prelude.{◌≤◌, length};
    ghost use Rattle.pop_io.specs.Names.{variable_name, AreNames};
    ghost use Rattle.pop_io.specs.declared.names.TheConstants.{VARIABLE_LIMIT};
    ghost use Rattle.cert_json.specs.Examined.{leaf_proof_item};

    type Item = LeafProof;

    ghost can_read = { λ reader. (1 ≤ length reader.names.now) × (length reader.names.now ≤ VARIABLE_LIMIT)
        × AreNames variable_name reader.names.now };

    ghost item_at = { λ reader. leaf_proof_item reader.names.now };

    fn read(
        &self,
        alloc: Global,
        path: &Path<'_>,
        _found: &[LeafProof],
        value: &Value,
    ) -> Result<LeafProof, FormatFault> {
        leaf_proof_of(alloc, path, self.names, value)
    }
}

/// The member `proof`: one proof for each leaf, over these names.
fn leaf_proofs_of(
    alloc: Global,
    path: &Path<'_>,
    names: &List<Text>,
    leaves: usize,
    value: &Value,
) -> Result<List<LeafProof>, FormatFault>
    requires some { 1 ≤ length names.now }
    requires few { length names.now ≤ VARIABLE_LIMIT }
    requires names { AreNames variable_name names.now }
    ensures { GivesRead (λ parts. parts) result
        (member_by (path_text path.now) (codes "proof") (leaf_proofs_at names.now leaves) (view value.now)) }
{
    let reader = LeafProofs { names };
    each_in(alloc, path, "proof", leaves, leaves, &reader, value)
}

#[tactic(auto, unfolding(crate::specs::Examined::proof_at))]
fn proof_of(alloc: Global, value: &Value, net: &Net) -> Result<Proof, FormatFault>
    ensures { GivesRead (λ proof. proof) result
        (proof_at net.now.variables (length net.now.leaves) (view value.now)) }
{
    let names = net.var_names();
    let leaves = net.leaf_count() as usize;
    let leaves = leaf_proofs_of(alloc, &Path::Root, names, leaves, value)?;
    Ok(Proof { leaves })
}

/// The member `proof` of a bundle, or the first rule that it breaks, with its path from the bundle's root. `value` is
/// the whole bundle: if it lacks the member, or is no object, the fault is `Kind` at `/proof`.
///
/// The proof has one object for each leaf. The members are examined in order. Of a leaf these are `pred`, `layers`,
/// `true`, `false`; of a layer `moves`, `weights`. Of a node it is its word, then how many items it has, then each
/// item. Each is examined whole before the next is looked for. Other members are ignored.
pub fn read_proof(alloc: Global, value: &Value, net: &Net) -> Result<Proof, FormatFault>
    ensures { IsReadProof net.now (view value.now) result }
{
    proof_of(alloc, value, net)
}
