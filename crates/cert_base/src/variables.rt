//! The numbers of a leaf's variables.

ghost use Rattle.std.specs.Prelude.{◌≡◌, ◌≤◌, length};
ghost use Rattle.pop_leaf.specs.LeafModel.{IsLeaf};
ghost use Rattle.cert_base.specs.declared.limits.TheConstants.{INDEX_COUNT};
ghost use Rattle.cert_base.specs.Rows.{state_variable, move_variable, variable_count};

use pop_leaf::Leaf;

/// The variable of an input: how often it was given.
pub fn variable_of_input(i: u16) -> u32
    ensures { result ≡ i }
{
    u32::from(i)
}

/// The variable of a state: how many agents are in it at the end.
pub fn variable_of_state(leaf: &Leaf, q: u16) -> u32
    ensures value { result ≡ state_variable leaf.now q }
    ensures formed { IsLeaf leaf.now }
{
    u32::from(leaf.input_count()) + u32::from(q)
}

/// The variable of a move: how often it was taken.
pub fn variable_of_move(leaf: &Leaf, t: u32) -> u32
    requires { t ≤ length leaf.now.moves }
    ensures value { result ≡ move_variable leaf.now t }
    ensures small { variable_count leaf.now ≤ INDEX_COUNT }
    ensures formed { IsLeaf leaf.now }
{
    u32::from(leaf.input_count()) + u32::from(leaf.state_count()) + t
}

/// How many variables there are. They are numbered from 0 on: inputs, then states, then moves.
pub fn count_variables(leaf: &Leaf) -> u32
    ensures { result ≡ variable_count leaf.now }
{
    u32::from(leaf.input_count()) + u32::from(leaf.state_count()) + leaf.move_count()
}
