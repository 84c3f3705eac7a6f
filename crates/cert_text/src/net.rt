//! A net as JSON text.

ghost use Rattle.std.specs.Prelude.{◌≡◌, ◌++◌, OnOk};
ghost use Rattle.serde_json.specs.Written.{compact_text};
ghost use Rattle.net_json.specs.Written.{net_data, format_of, item_data};

use crate::leaf::write_leaf;
use crate::list::{WriteItems, write_list};
use crate::pieces::{push_quoted, push_text};
use base_lines::push_number;
use pop_io::{NoMemory, Text};
use pop_net::{Item, Net};
use std::alloc::{AllocError, Global};

/// The format of nets without helpers.
const PLAIN_FORMAT: u64 = 1;

/// The format of nets with helpers.
const HELPER_FORMAT: u64 = 2;

/// The combination in postfix.
#[derive(Drop)]
struct Combination<'n> {
    net: &'n Net,
}

/// The leaves, in the format with or without helpers.
#[derive(Drop)]
struct Leaves<'n> {
    net: &'n Net,
    helped: bool,
}

/// The names of the variables.
#[derive(Drop)]
struct Names<'n> {
    names: &'n [Text],
}

fn push_item(out: &mut Vec<u8>, item: Item) -> Result<(), AllocError>
    ensures { OnOk result (out.new.items ≡ out.old.items ++ compact_text (item_data item)) }
{
    match item {
        Item::Leaf(leaf) => push_number(out, u64::from(leaf))?,
        Item::Not => push_text(out, b"\"not\"")?,
        Item::And => push_text(out, b"\"and\"")?,
        Item::Or => push_text(out, b"\"or\"")?,
    }
    Ok(())
}

impl WriteItems for Combination<'_> {
    ghost use Rattle.std.specs.Prelude.{⊤, map};
    ghost use Rattle.net_json.specs.Written.{item_data};

    ghost can_write = { λ _. ⊤ };

    ghost items = { λ list. map item_data list.net.now.combine };

    fn count(&self) -> usize {
        self.net.item_count() as usize
    }

    fn write(&self, _alloc: Global, out: &mut Vec<u8>, i: usize) -> Result<(), NoMemory> {
        let _formed = self.net.item_count();
        push_item(out, self.net.item(i as u32))?;
        Ok(())
    }
}

impl WriteItems for Leaves<'_> {
    ghost use Rattle.std.specs.Prelude.{⊤, map};
    ghost use Rattle.net_json.specs.Written.{leaf_data};

    ghost can_write = { λ _. ⊤ };

    ghost items = { λ list. map (leaf_data list.helped) list.net.now.leaves };

    fn count(&self) -> usize {
        self.net.leaf_count() as usize
    }

    fn write(&self, alloc: Global, out: &mut Vec<u8>, i: usize) -> Result<(), NoMemory> {
        let _formed = self.net.leaf_count();
        write_leaf(alloc, out, self.helped, self.net.leaf(i as u8))
    }
}

impl WriteItems for Names<'_> {
    ghost use Rattle.std.specs.Prelude.{⊤, map};
    ghost use Rattle.serde_json.specs.Data.{string};

    ghost can_write = { λ _. ⊤ };

    ghost items = { λ list. map string list.names.now };

    fn count(&self) -> usize {
        self.names.len()
    }

    fn write(&self, alloc: Global, out: &mut Vec<u8>, i: usize) -> Result<(), NoMemory> {
        push_quoted(alloc, out, self.names[i].as_str())
    }
}

/// The number of the format with or without helpers.
fn format_number(helped: bool) -> u64
    ensures { result ≡ format_of helped }
{
    if helped { HELPER_FORMAT } else { PLAIN_FORMAT }
}

pub(crate) fn write_net(alloc: Global, out: &mut Vec<u8>, net: &Net) -> Result<(), NoMemory>
    ensures { OnOk result (out.new.items ≡ out.old.items ++ compact_text (net_data net.now)) }
{
    let helped = 0 < net.helper_count();
    push_text(out, b"{\"combine\":")?;
    write_list(alloc, out, &Combination { net })?;
    push_text(out, b",\"format\":")?;
    push_number(out, format_number(helped))?;
    push_text(out, b",\"leaves\":")?;
    write_list(alloc, out, &Leaves { net, helped })?;
    push_text(out, b",\"vars\":")?;
    let names = net.var_names().as_slice();
    write_list(alloc, out, &Names { names })?;
    push_text(out, b"}")?;
    Ok(())
}
