//! The lines of a leaf.

ghost use Rattle.std.specs.Prelude.{◌≡◌, ◌<◌, ◌++◌, true, false, OnOk, Some, length, slice_index_or};
ghost use Rattle.pop_io.specs.Names.{variable_name, AreNames};
ghost use Rattle.cert_show.specs.Lines.{text_of, spaced, quoted, named, name_at};
ghost use Rattle.cert_base.specs.StableProof.{pred_of_part};
ghost use Rattle.cert_show.specs.LeafLines.{word_if, head_lines, helper_lines, answer_lines, leaf_lines};
ghost use Rattle.cert_show.specs.LeafLines.{goal_lines, part_lines};
ghost use Rattle.cert_show.specs.Showable.{IsGoalOf, AreOfLeaf, IsPartOf};

use crate::goal::push_goal;
use crate::layer::push_layers;
use crate::lines::{
    push_line, push_move_line, push_name, push_number_line, push_pred_line, push_state, push_text,
    push_word,
};
use crate::list::{Texts, push_all};
use cert_base::{LeafGoals, LeafProof, StablePart};
use pop_io::{List, NoMemory, Text};
use pop_net::Leaf;
use pres_ast::Pred;
use std::alloc::{AllocError, Global};

#[derive(Drop)]
struct States<'n> {
    leaf: &'n Leaf,
}

/// The start states of the variables with these names.
#[derive(Drop)]
struct Starts<'n> {
    leaf: &'n Leaf,
    names: &'n [Text],
}

#[derive(Drop)]
struct Helpers<'n> {
    leaf: &'n Leaf,
}

/// The states with this output.
#[derive(Drop)]
struct Answering<'n> {
    leaf: &'n Leaf,
    answer: bool,
}

#[derive(Drop)]
struct Moves<'n> {
    leaf: &'n Leaf,
}

impl Texts for States<'_> {
    ghost use Rattle.std.specs.Prelude.{⊤, length};
    ghost use Rattle.cert_show.specs.Lines.{spaced, name_at};

    ghost can_push = { λ _. ⊤ };

    ghost size = { λ all. length all.leaf.now.states };

    ghost text = { λ all q. spaced (name_at all.leaf.now.states q) };

    fn count(&self) -> usize {
        self.leaf.state_count() as usize
    }

    fn push(&self, _alloc: Global, out: &mut Vec<u8>, i: usize) -> Result<(), NoMemory> {
        let _formed = self.leaf.state_count();
        push_state(out, self.leaf, i as u16)?;
        Ok(())
    }
}

/// Adds a variable's name, and where its agents start.
fn push_start(out: &mut Vec<u8>, name: &str, leaf: &Leaf, variable: u16) -> Result<(), AllocError>
    requires { variable < length leaf.now.inputs }
    ensures { OnOk result (out.new.items
        ≡ out.old.items ++ spaced (named (quoted name.now)
        (name_at leaf.now.states (slice_index_or leaf.now.inputs variable 0)))) }
{
    push_word(out, name)?;
    push_text(out, ": ")?;
    push_name(out, leaf, leaf.input(variable))
}

impl Texts for Starts<'_> {
    ghost use Rattle.std.specs.Prelude.{◌≡◌, length};
    ghost use Rattle.cert_show.specs.Lines.{spaced};
    ghost use Rattle.cert_show.specs.LeafLines.{start_text};

    ghost can_push = { λ all. length all.names.now ≡ length all.leaf.now.inputs };

    ghost size = { λ all. length all.leaf.now.inputs };

    ghost text = { λ all i. spaced (start_text all.names.now all.leaf.now i) };

    fn count(&self) -> usize {
        self.leaf.input_count() as usize
    }

    fn push(&self, _alloc: Global, out: &mut Vec<u8>, i: usize) -> Result<(), NoMemory> {
        let _formed = self.leaf.input_count();
        push_start(out, self.names[i].as_str(), self.leaf, i as u16)?;
        Ok(())
    }
}

impl Texts for Helpers<'_> {
    ghost use Rattle.std.specs.Prelude.{⊤, length};
    ghost use Rattle.cert_show.specs.Lines.{spaced};
    ghost use Rattle.cert_show.specs.LeafLines.{helper_text};

    ghost can_push = { λ _. ⊤ };

    ghost size = { λ all. length all.leaf.now.helpers };

    ghost text = { λ all i. spaced (helper_text all.leaf.now i) };

    fn count(&self) -> usize {
        self.leaf.helper_count() as usize
    }

    fn push(&self, _alloc: Global, out: &mut Vec<u8>, i: usize) -> Result<(), NoMemory> {
        let _formed = self.leaf.state_count();
        push_state(out, self.leaf, self.leaf.helper(i as u32))?;
        Ok(())
    }
}

/// Adds a state's name behind a blank, if its output is this answer.
fn push_if(out: &mut Vec<u8>, answer: bool, leaf: &Leaf, state: u16) -> Result<(), AllocError>
    requires { state < length leaf.now.states }
    ensures { OnOk result (out.new.items ≡ out.old.items ++ word_if answer leaf.now state) }
{
    if leaf.output(state) == answer {
        push_state(out, leaf, state)?;
    }
    Ok(())
}

impl Texts for Answering<'_> {
    ghost use Rattle.std.specs.Prelude.{⊤, length};
    ghost use Rattle.cert_show.specs.LeafLines.{word_if};

    ghost can_push = { λ _. ⊤ };

    ghost size = { λ all. length all.leaf.now.states };

    ghost text = { λ all q. word_if all.answer all.leaf.now q };

    fn count(&self) -> usize {
        self.leaf.state_count() as usize
    }

    fn push(&self, _alloc: Global, out: &mut Vec<u8>, i: usize) -> Result<(), NoMemory> {
        let _formed = self.leaf.state_count();
        push_if(out, self.answer, self.leaf, i as u16)?;
        Ok(())
    }
}

impl Texts for Moves<'_> {
    ghost use Rattle.std.specs.Prelude.{⊤, length, slice_index_or};
    ghost use Rattle.base_lines.specs.Lines.{ended};
    ghost use Rattle.cert_show.specs.LeafLines.{move_line};

    ghost can_push = { λ _. ⊤ };

    ghost size = { λ all. length all.leaf.now.moves };

    ghost text = { λ all i. ended
        (move_line all.leaf.now (slice_index_or all.leaf.now.moves i (record { p = 0; q = 0; r = 0; s = 0 }))) };

    fn count(&self) -> usize {
        self.leaf.move_count() as usize
    }

    fn push(&self, _alloc: Global, out: &mut Vec<u8>, i: usize) -> Result<(), NoMemory> {
        let _formed = self.leaf.state_count();
        push_move_line(out, "move ", self.leaf, self.leaf.move_at(i as u32))?;
        Ok(())
    }
}

/// Adds the line of the helpers, if there are any.
fn push_helpers(alloc: Global, out: &mut Vec<u8>, leaf: &Leaf) -> Result<(), NoMemory>
    ensures { OnOk result
        (out.new.items ≡ out.old.items ++ text_of (helper_lines leaf.now leaf.now.helpers)) }
{
    if leaf.helper_count() != 0 {
        push_line(alloc, out, "helpers", &Helpers { leaf })?;
    }
    Ok(())
}

/// Adds the lines of states, inputs and helpers.
fn push_head(alloc: Global, out: &mut Vec<u8>, names: &[Text], leaf: &Leaf) -> Result<(), NoMemory>
    requires { length names.now ≡ length leaf.now.inputs }
    ensures { OnOk result (out.new.items ≡ out.old.items ++ text_of (head_lines names.now leaf.now)) }
{
    push_line(alloc, out, "states", &States { leaf })?;
    push_line(alloc, out, "inputs", &Starts { leaf, names })?;
    push_helpers(alloc, out, leaf)
}

/// Adds the lines of the outputs.
fn push_answers(alloc: Global, out: &mut Vec<u8>, leaf: &Leaf) -> Result<(), NoMemory>
    ensures { OnOk result (out.new.items ≡ out.old.items ++ text_of (answer_lines leaf.now)) }
{
    let answer = true;
    push_line(alloc, out, "yes", &Answering { leaf, answer })?;
    let answer = false;
    push_line(alloc, out, "no", &Answering { leaf, answer })
}

/// The predicate of a leaf.
fn pred_of(part: &StablePart) -> &Pred
    ensures { result.now ≡ pred_of_part part.now }
{
    match part {
        StablePart::Silent(LeafProof { pred, .. }) => pred,
        StablePart::Stable(LeafGoals { pred, .. }) => pred,
    }
}

/// Adds the lines of both goals.
fn push_goals(
    alloc: Global,
    out: &mut Vec<u8>,
    leaf: &Leaf,
    goals: &LeafGoals,
) -> Result<(), NoMemory>
    requires on_true { IsGoalOf leaf.now goals.now.on_true }
    requires on_false { IsGoalOf leaf.now goals.now.on_false }
    ensures { OnOk result (out.new.items
        ≡ out.old.items ++ text_of (goal_lines leaf.now true goals.now.on_true ++ goal_lines leaf.now false goals.now.on_false)) }
{
    push_goal(alloc, out, leaf, true, &goals.on_true)?;
    push_goal(alloc, out, leaf, false, &goals.on_false)?;
    Ok(())
}

/// Adds the lines of a leaf's layers, or of its goals.
fn push_part(
    alloc: Global,
    out: &mut Vec<u8>,
    leaf: &Leaf,
    part: &StablePart,
) -> Result<(), NoMemory>
    requires { AreOfLeaf leaf.now part.now }
    ensures { OnOk result (out.new.items ≡ out.old.items ++ text_of (part_lines leaf.now part.now)) }
{
    match part {
        StablePart::Silent(part) => push_layers(alloc, out, leaf, &part.layers),
        StablePart::Stable(goals) => push_goals(alloc, out, leaf, goals),
    }
}

/// Adds the lines of a leaf with its number and its proof.
pub(crate) fn push_leaf(
    alloc: Global,
    out: &mut Vec<u8>,
    names: &List<Text>,
    number: u8,
    leaf: &Leaf,
    part: &StablePart,
) -> Result<(), NoMemory>
    requires names { AreNames variable_name names.now }
    requires inputs { length names.now ≡ length leaf.now.inputs }
    requires part { IsPartOf (length names.now) leaf.now part.now }
    ensures { OnOk result
        (out.new.items ≡ out.old.items ++ text_of (leaf_lines names.now number (Some leaf.now) (Some part.now))) }
{
    push_number_line(out, "leaf ", u64::from(number))?;
    push_pred_line(alloc, out, "computes ", pred_of(part), names)?;
    push_head(alloc, out, names.as_slice(), leaf)?;
    push_answers(alloc, out, leaf)?;
    push_all(alloc, out, &Moves { leaf })?;
    push_part(alloc, out, leaf, part)?;
    Ok(())
}
