//! A leaf as JSON text.

ghost use Rattle.std.specs.Prelude.{◌≡◌, ◌++◌, true, OnOk};
ghost use Rattle.serde_json.specs.Written.{compact_text};
ghost use Rattle.net_json.specs.Written.{move_data, leaf_data};
ghost use Rattle.cert_text.specs.LeafText.{leaf_head};

use crate::list::{WriteItems, write_list};
use crate::pieces::{push_quoted, push_text, push_truth};
use base_lines::push_number;
use pop_io::NoMemory;
use pop_net::{Leaf, Move};
use std::alloc::{AllocError, Global};

/// The states in which helpers start.
#[derive(Drop)]
struct Helpers<'n> {
    leaf: &'n Leaf,
}

/// The states in which agents start, one for each variable.
#[derive(Drop)]
struct Inputs<'n> {
    leaf: &'n Leaf,
}

#[derive(Drop)]
struct Moves<'n> {
    leaf: &'n Leaf,
}

#[derive(Drop)]
struct Outputs<'n> {
    leaf: &'n Leaf,
}

/// The names of the states.
#[derive(Drop)]
struct States<'n> {
    leaf: &'n Leaf,
}

fn push_move(out: &mut Vec<u8>, t: Move) -> Result<(), AllocError>
    ensures { OnOk result (out.new.items ≡ out.old.items ++ compact_text (move_data t)) }
{
    push_text(out, b"[")?;
    push_number(out, u64::from(t.p))?;
    push_text(out, b",")?;
    push_number(out, u64::from(t.q))?;
    push_text(out, b",")?;
    push_number(out, u64::from(t.r))?;
    push_text(out, b",")?;
    push_number(out, u64::from(t.s))?;
    push_text(out, b"]")?;
    Ok(())
}

impl WriteItems for Helpers<'_> {
    ghost use Rattle.std.specs.Prelude.{⊤, map};
    ghost use Rattle.net_json.specs.Written.{number_data};

    ghost can_write = { λ _. ⊤ };

    ghost items = { λ list. map number_data list.leaf.now.helpers };

    fn count(&self) -> usize {
        self.leaf.helper_count() as usize
    }

    fn write(&self, _alloc: Global, out: &mut Vec<u8>, i: usize) -> Result<(), NoMemory> {
        let _formed = self.leaf.helper_count();
        push_number(out, u64::from(self.leaf.helper(i as u32)))?;
        Ok(())
    }
}

impl WriteItems for Inputs<'_> {
    ghost use Rattle.std.specs.Prelude.{⊤, map};
    ghost use Rattle.net_json.specs.Written.{number_data};

    ghost can_write = { λ _. ⊤ };

    ghost items = { λ list. map number_data list.leaf.now.inputs };

    fn count(&self) -> usize {
        self.leaf.input_count() as usize
    }

    fn write(&self, _alloc: Global, out: &mut Vec<u8>, i: usize) -> Result<(), NoMemory> {
        let _formed = self.leaf.input_count();
        push_number(out, u64::from(self.leaf.input(i as u16)))?;
        Ok(())
    }
}

impl WriteItems for Moves<'_> {
    ghost use Rattle.std.specs.Prelude.{⊤, map};
    ghost use Rattle.net_json.specs.Written.{move_data};

    ghost can_write = { λ _. ⊤ };

    ghost items = { λ list. map move_data list.leaf.now.moves };

    fn count(&self) -> usize {
        self.leaf.move_count() as usize
    }

    fn write(&self, _alloc: Global, out: &mut Vec<u8>, i: usize) -> Result<(), NoMemory> {
        let _formed = self.leaf.move_count();
        push_move(out, self.leaf.move_at(i as u32))?;
        Ok(())
    }
}

impl WriteItems for Outputs<'_> {
    ghost use Rattle.std.specs.Prelude.{⊤, map};
    ghost use Rattle.serde_json.specs.Data.{boolean};

    ghost can_write = { λ _. ⊤ };

    ghost items = { λ list. map boolean list.leaf.now.outputs };

    fn count(&self) -> usize {
        self.leaf.state_count() as usize
    }

    fn write(&self, _alloc: Global, out: &mut Vec<u8>, i: usize) -> Result<(), NoMemory> {
        let _formed = self.leaf.state_count();
        push_truth(out, self.leaf.output(i as u16))?;
        Ok(())
    }
}

impl WriteItems for States<'_> {
    ghost use Rattle.std.specs.Prelude.{⊤, map};
    ghost use Rattle.serde_json.specs.Data.{string};

    ghost can_write = { λ _. ⊤ };

    ghost items = { λ list. map string list.leaf.now.states };

    fn count(&self) -> usize {
        self.leaf.state_count() as usize
    }

    fn write(&self, alloc: Global, out: &mut Vec<u8>, i: usize) -> Result<(), NoMemory> {
        let _formed = self.leaf.state_count();
        push_quoted(alloc, out, self.leaf.name(i as u16))
    }
}

/// The helpers, and what stands between them and the inputs.
fn write_helpers(alloc: Global, out: &mut Vec<u8>, leaf: &Leaf) -> Result<(), NoMemory>
    ensures { OnOk result (out.new.items ≡ out.old.items ++ leaf_head true leaf.now) }
{
    push_text(out, b"{\"helpers\":")?;
    write_list(alloc, out, &Helpers { leaf })?;
    push_text(out, b",\"input\":")?;
    Ok(())
}

/// What stands before a leaf's inputs.
fn write_head(alloc: Global, out: &mut Vec<u8>, helped: bool, leaf: &Leaf) -> Result<(), NoMemory>
    ensures { OnOk result (out.new.items ≡ out.old.items ++ leaf_head helped leaf.now) }
{
    if helped {
        write_helpers(alloc, out, leaf)?;
    } else {
        push_text(out, b"{\"input\":")?;
    }
    Ok(())
}

/// In the format with or without helpers.
pub(crate) fn write_leaf(
    alloc: Global,
    out: &mut Vec<u8>,
    helped: bool,
    leaf: &Leaf,
) -> Result<(), NoMemory>
    ensures { OnOk result (out.new.items ≡ out.old.items ++ compact_text (leaf_data helped leaf.now)) }
{
    write_head(alloc, out, helped, leaf)?;
    write_list(alloc, out, &Inputs { leaf })?;
    push_text(out, b",\"moves\":")?;
    write_list(alloc, out, &Moves { leaf })?;
    push_text(out, b",\"output\":")?;
    write_list(alloc, out, &Outputs { leaf })?;
    push_text(out, b",\"states\":")?;
    write_list(alloc, out, &States { leaf })?;
    push_text(out, b"}")?;
    Ok(())
}
