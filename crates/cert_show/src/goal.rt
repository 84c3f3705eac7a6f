//! The lines of goals.

ghost use Rattle.std.specs.Prelude.{◌≡◌, ◌++◌, OnOk};
ghost use Rattle.cert_show.specs.Lines.{text_of};
ghost use Rattle.cert_show.specs.LeafLines.{goal_title, goal_lines};
ghost use Rattle.cert_show.specs.Showable.{IsGoalOf};

use crate::layer::push_layers;
use crate::lines::{push_line, push_state, push_title};
use crate::list::{Texts, push_all};
use cert_base::Goal;
use pop_io::{List, NoMemory};
use pop_net::Leaf;
use std::alloc::Global;

/// The states of a set.
#[derive(Drop)]
struct Members<'n> {
    leaf: &'n Leaf,
    set: &'n [u16],
}

#[derive(Drop)]
struct Sets<'n> {
    leaf: &'n Leaf,
    sets: &'n [List<u16>],
}

impl Texts for Members<'_> {
    ghost use Rattle.std.specs.Prelude.{length, slice_index_or};
    ghost use Rattle.cert_show.specs.Lines.{spaced, name_at};
    ghost use Rattle.cert_show.specs.Showable.{IsSetOf};

    ghost can_push = { λ all. IsSetOf all.leaf.now all.set.now };

    ghost size = { λ all. length all.set.now };

    ghost text = { λ all i. spaced (name_at all.leaf.now.states (slice_index_or all.set.now i 0)) };

    fn count(&self) -> usize {
        self.set.len()
    }

    fn push(&self, _alloc: Global, out: &mut Vec<u8>, i: usize) -> Result<(), NoMemory> {
        push_state(out, self.leaf, self.set[i])?;
        Ok(())
    }
}

impl Texts for Sets<'_> {
    ghost use Rattle.std.specs.Prelude.{[], length, slice_index_or, All};
    ghost use Rattle.base_lines.specs.Lines.{ended};
    ghost use Rattle.cert_show.specs.LeafLines.{set_line};
    ghost use Rattle.cert_show.specs.Showable.{IsSetOf};

    ghost can_push = { λ all. All (IsSetOf all.leaf.now) all.sets.now };

    ghost size = { λ all. length all.sets.now };

    ghost text = { λ all i. ended (set_line all.leaf.now (slice_index_or all.sets.now i [])) };

    fn count(&self) -> usize {
        self.sets.len()
    }

    fn push(&self, alloc: Global, out: &mut Vec<u8>, i: usize) -> Result<(), NoMemory> {
        let leaf = self.leaf;
        let set = self.sets[i].as_slice();
        push_line(alloc, out, "set", &Members { leaf, set })
    }
}

/// The first line of the goal for a value.
fn goal_title(value: bool) -> &'static str
    ensures { result.now ≡ goal_title value }
{
    if value { "goal true" } else { "goal false" }
}

/// Adds the lines of the goal for a value.
pub(crate) fn push_goal(
    alloc: Global,
    out: &mut Vec<u8>,
    leaf: &Leaf,
    value: bool,
    goal: &Goal,
) -> Result<(), NoMemory>
    requires { IsGoalOf leaf.now goal.now }
    ensures { OnOk result (out.new.items ≡ out.old.items ++ text_of (goal_lines leaf.now value goal.now)) }
{
    push_title(out, goal_title(value))?;
    push_layers(alloc, out, leaf, &goal.layers)?;
    let sets = goal.sets.as_slice();
    push_all(alloc, out, &Sets { leaf, sets })?;
    Ok(())
}
