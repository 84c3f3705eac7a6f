//! Goals.

ghost use Rattle.std.specs.Prelude.{codes};
ghost use Rattle.serde_json.specs.View.{view};
ghost use Rattle.base_json.specs.Faults.{GivesRead};
ghost use Rattle.base_json.specs.Paths.{path_text};
ghost use Rattle.base_json.specs.Shapes.{member_by};
ghost use Rattle.cert_json.specs.StableExamined.{sets_at, goal_at, both_goals_at};

use crate::layers::layers_of;
use crate::node::nodes_of;
use crate::terms::states_of;
use base_json::{FormatFault, Path, ReadItem, each_of, member_of, object_of, pair_of};
use cert_base::{Goal, SET_LIMIT};
use pop_io::List;
use serde_json::Value;
use std::alloc::Global;

/// Sets of states.
#[derive(Clone, Copy)]
struct Sets;

impl ReadItem for Sets {
    ghost use Rattle.std.specs.Prelude.{⊤};
    ghost use Rattle.cert_json.specs.StableExamined.{set_item};

    type Item = List<u16>;

    ghost can_read = { λ _. ⊤ };

    ghost item_at = { λ _. set_item };

    fn read(
        &self,
        alloc: Global,
        path: &Path<'_>,
        _found: &[List<u16>],
        value: &Value,
    ) -> Result<List<u16>, FormatFault> {
        states_of(alloc, path, value)
    }
}

/// The member `sets`: at most `SET_LIMIT` sets, none where it is missing.
fn sets_of(alloc: Global, path: &Path<'_>, value: &Value) -> Result<List<List<u16>>, FormatFault>
    ensures { GivesRead (λ sets. sets) result (sets_at (path_text path.now) (view value.now)) }
{
    match value.get("sets") {
        Some(sets) => each_of(
            alloc,
            &Path::Member(path, "sets"),
            0,
            SET_LIMIT,
            &Sets,
            sets,
        ),
        None => Ok(List::from_vec(Vec::new(alloc))),
    }
}

#[tactic(auto, unfolding(crate::specs::StableExamined::goal_at))]
fn goal_of(alloc: Global, path: &Path<'_>, value: &Value) -> Result<Goal, FormatFault>
    ensures { GivesRead (λ goal. goal) result (goal_at (path_text path.now) (view value.now)) }
{
    object_of(alloc, path, value)?;
    let layers = layers_of(alloc, path, value)?;
    let sets = sets_of(alloc, path, value)?;
    let nodes = nodes_of(alloc, path, "nodes", value)?;
    Ok(Goal {
        layers,
        sets,
        nodes,
    })
}

/// A list of two goals.
#[tactic(auto, unfolding(crate::specs::StableExamined::both_goals_at))]
fn both_goals(alloc: Global, path: &Path<'_>, value: &Value) -> Result<(Goal, Goal), FormatFault>
    ensures { GivesRead (λ goals. goals) result (both_goals_at (path_text path.now) (view value.now)) }
{
    let (on_true, on_false) = pair_of(alloc, path, value)?;
    let on_true = goal_of(alloc, &Path::Item(path, 0), on_true)?;
    let on_false = goal_of(alloc, &Path::Item(path, 1), on_false)?;
    Ok((on_true, on_false))
}

/// The member `goals`: a goal for true and one for false.
pub(crate) fn goals_of(
    alloc: Global,
    path: &Path<'_>,
    value: &Value,
) -> Result<(Goal, Goal), FormatFault>
    ensures { GivesRead (λ goals. goals) result
        (member_by (path_text path.now) (codes "goals") both_goals_at (view value.now)) }
{
    let goals = member_of(alloc, path, "goals", value)?;
    both_goals(alloc, &Path::Member(path, "goals"), goals)
}
