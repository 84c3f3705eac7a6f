//! A leaf's part of a proof.

ghost use Rattle.std.specs.Prelude.{◌≡◌, ◌≤◌, codes, length};
ghost use Rattle.serde_json.specs.View.{view};
ghost use Rattle.pop_io.specs.Names.{variable_name, AreNames};
ghost use Rattle.base_json.specs.Faults.{GivesRead};
ghost use Rattle.base_json.specs.Paths.{path_text};
ghost use Rattle.base_json.specs.Shapes.{member_by};
ghost use Rattle.cert_json.specs.PartFile.{has_goals_in_place};
ghost use Rattle.cert_json.specs.StableExamined.{leaf_goals_at, part_at, parts_at, stable_proof_at};

use crate::goal::goals_of;
use crate::read::{leaf_proof_of, pred_of};
use base_json::{FormatFault, Path, ReadItem, each_in, object_of};
use cert_base::{LeafGoals, StablePart, StableProof};
use pop_io::{List, Text, VARIABLE_LIMIT};
use pop_net::Net;
use serde_json::Value;
use std::alloc::Global;

/// Whether a leaf's object has goals in the place of layers.
fn has_goals_in_place(value: &Value) -> bool
    ensures { result ≡ has_goals_in_place (view value.now) }
{
    value.get("layers").is_none() && value.get("goals").is_some()
}

/// The goals of a leaf over these names.
#[tactic(auto, unfolding(crate::specs::StableExamined::leaf_goals_at))]
fn leaf_goals_of(
    alloc: Global,
    path: &Path<'_>,
    names: &List<Text>,
    value: &Value,
) -> Result<LeafGoals, FormatFault>
    requires some { 1 ≤ length names.now }
    requires few { length names.now ≤ VARIABLE_LIMIT }
    requires names { AreNames variable_name names.now }
    ensures { GivesRead (λ goals. goals) result
        (leaf_goals_at names.now (path_text path.now) (view value.now)) }
{
    object_of(alloc, path, value)?;
    let pred = pred_of(alloc, path, names, value)?;
    let (on_true, on_false) = goals_of(alloc, path, value)?;
    Ok(LeafGoals {
        pred,
        on_true,
        on_false,
    })
}

/// The part of a leaf over these names.
#[tactic(auto, unfolding(crate::specs::StableExamined::part_at))]
fn part_of(
    alloc: Global,
    path: &Path<'_>,
    names: &List<Text>,
    value: &Value,
) -> Result<StablePart, FormatFault>
    requires some { 1 ≤ length names.now }
    requires few { length names.now ≤ VARIABLE_LIMIT }
    requires names { AreNames variable_name names.now }
    ensures { GivesRead (λ part. part) result (part_at names.now (path_text path.now) (view value.now)) }
{
    if has_goals_in_place(value) {
        let goals = leaf_goals_of(alloc, path, names, value)?;
        return Ok(StablePart::Stable(goals));
    }
    let part = leaf_proof_of(alloc, path, names, value)?;
    Ok(StablePart::Silent(part))
}

/// Parts of leaves over these names.
#[derive(Drop)]
struct Parts<'a> {
    names: &'a List<Text>,
}

impl<'a> ReadItem for Parts<'a> {
    ghost use Rattle.std.specs.Prelude.{◌≤◌, length};
    ghost use Rattle.pop_io.specs.Names.{variable_name, AreNames};
    ghost use Rattle.pop_io.specs.declared.names.TheConstants.{VARIABLE_LIMIT};
    ghost use Rattle.cert_json.specs.StableExamined.{part_item};

    type Item = StablePart;

    ghost can_read = { λ reader. (1 ≤ length reader.names.now) × (length reader.names.now ≤ VARIABLE_LIMIT)
        × AreNames variable_name reader.names.now };

    ghost item_at = { λ reader. part_item reader.names.now };

    fn read(
        &self,
        alloc: Global,
        path: &Path<'_>,
        _found: &[StablePart],
        value: &Value,
    ) -> Result<StablePart, FormatFault> {
        part_of(alloc, path, self.names, value)
    }
}

/// The member `proof`: one part for each leaf, over these names.
fn parts_of(
    alloc: Global,
    path: &Path<'_>,
    names: &List<Text>,
    leaves: usize,
    value: &Value,
) -> Result<List<StablePart>, FormatFault>
    requires some { 1 ≤ length names.now }
    requires few { length names.now ≤ VARIABLE_LIMIT }
    requires names { AreNames variable_name names.now }
    ensures { GivesRead (λ parts. parts) result
        (member_by (path_text path.now) (codes "proof") (parts_at names.now leaves) (view value.now)) }
{
    let reader = Parts { names };
    each_in(alloc, path, "proof", leaves, leaves, &reader, value)
}

/// The member `proof` of a bundle with this net.
#[tactic(auto, unfolding(crate::specs::StableExamined::stable_proof_at))]
pub(crate) fn stable_proof_of(
    alloc: Global,
    value: &Value,
    net: &Net,
) -> Result<StableProof, FormatFault>
    ensures { GivesRead (λ proof. proof) result
        (stable_proof_at net.now.variables (length net.now.leaves) (view value.now)) }
{
    let names = net.var_names();
    let leaves = net.leaf_count() as usize;
    let leaves = parts_of(alloc, &Path::Root, names, leaves, value)?;
    Ok(StableProof { leaves })
}
