//! The parts of a leaf, copied.

ghost use Rattle.std.specs.Prelude.{◌≡◌, IfOk};

use crate::leaf::Leaf;
use pop_io::{List, NoMemory, Text};
use std::alloc::Global;

/// The names of the states.
pub(crate) fn states_of(alloc: Global, leaf: &Leaf) -> Result<List<Text>, NoMemory>
    ensures { IfOk result (λ states. states ≡ leaf.now.states) }
{
    let mut states = Vec::new(alloc);
    for q in 0..leaf.state_count() {
        states.push(Text::from_string(String::from_str(alloc, leaf.name(q))?))?;
    }
    Ok(List::from_vec(states))
}

/// The start states.
pub(crate) fn inputs_of(alloc: Global, leaf: &Leaf) -> Result<List<u16>, NoMemory>
    ensures { IfOk result (λ inputs. inputs ≡ leaf.now.inputs) }
{
    let mut inputs = Vec::new(alloc);
    for i in 0..leaf.input_count() {
        inputs.push(leaf.input(i))?;
    }
    Ok(List::from_vec(inputs))
}

/// The outputs of the states.
pub(crate) fn outputs_of(alloc: Global, leaf: &Leaf) -> Result<List<bool>, NoMemory>
    ensures { IfOk result (λ outputs. outputs ≡ leaf.now.outputs) }
{
    let mut outputs = Vec::new(alloc);
    for q in 0..leaf.state_count() {
        outputs.push(leaf.output(q))?;
    }
    Ok(List::from_vec(outputs))
}

/// The states of the helpers.
pub(crate) fn helpers_of(alloc: Global, leaf: &Leaf) -> Result<List<u16>, NoMemory>
    ensures { IfOk result (λ helpers. helpers ≡ leaf.now.helpers) }
{
    let mut helpers = Vec::new(alloc);
    for j in 0..leaf.helper_count() {
        helpers.push(leaf.helper(j))?;
    }
    Ok(List::from_vec(helpers))
}
