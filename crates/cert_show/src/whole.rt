//! The lines of a net with its predicate and its proof.

ghost use Rattle.std.specs.Prelude.{◌≡◌, ◌++◌, OnOk, length};
ghost use Rattle.cert_show.specs.Lines.{text_of, spaced};
ghost use Rattle.cert_show.specs.Shown.{item_text, shown_of};
ghost use Rattle.cert_show.specs.Showable.{IsProofOf};

use crate::leaf::push_leaf;
use crate::lines::{push_line, push_pred_line, push_text, push_word};
use crate::list::{Texts, push_all};
use base_lines::push_number;
use cert_base::StableProof;
use pop_io::{NoMemory, Text};
use pop_net::{Item, Net};
use pres_ast::Pred;
use std::alloc::{AllocError, Global};

/// The names of the variables.
#[derive(Drop)]
struct Names<'n> {
    names: &'n [Text],
}

/// The combination in postfix.
#[derive(Drop)]
struct Combination<'n> {
    net: &'n Net,
}

#[derive(Drop)]
struct Leaves<'n> {
    net: &'n Net,
    proof: &'n StableProof,
}

impl Texts for Names<'_> {
    ghost use Rattle.std.specs.Prelude.{⊤, length};
    ghost use Rattle.cert_show.specs.Lines.{spaced, name_at};

    ghost can_push = { λ _. ⊤ };

    ghost size = { λ all. length all.names.now };

    ghost text = { λ all i. spaced (name_at all.names.now i) };

    fn count(&self) -> usize {
        self.names.len()
    }

    fn push(&self, _alloc: Global, out: &mut Vec<u8>, i: usize) -> Result<(), NoMemory> {
        push_word(out, self.names[i].as_str())?;
        Ok(())
    }
}

/// Adds an item of the combination behind a blank.
fn push_item(out: &mut Vec<u8>, item: Item) -> Result<(), AllocError>
    ensures { OnOk result (out.new.items ≡ out.old.items ++ spaced (item_text item)) }
{
    push_text(out, " ")?;
    match item {
        Item::Leaf(leaf) => push_number(out, u64::from(leaf)),
        Item::Not => push_text(out, "not"),
        Item::And => push_text(out, "and"),
        Item::Or => push_text(out, "or"),
    }
}

impl Texts for Combination<'_> {
    ghost use Rattle.std.specs.Prelude.{⊤, length, slice_index_or};
    ghost use Rattle.pop_leaf.specs.declared.item.Item.TheVariants.{Not};
    ghost use Rattle.cert_show.specs.Lines.{spaced};
    ghost use Rattle.cert_show.specs.Shown.{item_text};

    ghost can_push = { λ _. ⊤ };

    ghost size = { λ all. length all.net.now.combine };

    ghost text = { λ all i. spaced (item_text (slice_index_or all.net.now.combine i Not)) };

    fn count(&self) -> usize {
        self.net.item_count() as usize
    }

    fn push(&self, _alloc: Global, out: &mut Vec<u8>, i: usize) -> Result<(), NoMemory> {
        let _formed = self.net.item_count();
        push_item(out, self.net.item(i as u32))?;
        Ok(())
    }
}

impl Texts for Leaves<'_> {
    ghost use Rattle.std.specs.Prelude.{length, slice_get};
    ghost use Rattle.cert_show.specs.Lines.{text_of};
    ghost use Rattle.cert_show.specs.LeafLines.{leaf_lines};
    ghost use Rattle.cert_show.specs.Showable.{IsProofOf};

    ghost can_push = { λ all. IsProofOf all.net.now all.proof.now };

    ghost size = { λ all. length all.net.now.leaves };

    ghost text = { λ all i. text_of
        (leaf_lines all.net.now.variables i (slice_get all.net.now.leaves i) (slice_get all.proof.now.leaves i)) };

    fn count(&self) -> usize {
        self.net.leaf_count() as usize
    }

    fn push(&self, alloc: Global, out: &mut Vec<u8>, i: usize) -> Result<(), NoMemory> {
        let _formed = self.net.leaf_count();
        let number = i as u8;
        let leaf = self.net.leaf(number);
        let part = &self.proof.leaves.as_slice()[i];
        push_leaf(alloc, out, self.net.var_names(), number, leaf, part)
    }
}

/// Adds the lines of a net, of the predicate that it is to compute, and of a proof that it does.
pub fn push_shown(
    alloc: Global,
    out: &mut Vec<u8>,
    net: &Net,
    pred: &Pred,
    proof: &StableProof,
) -> Result<(), NoMemory>
    requires variables { pred.now.variables ≡ length net.now.variables }
    requires proof { IsProofOf net.now proof.now }
    ensures { OnOk result
        (out.new.items ≡ out.old.items ++ text_of (shown_of net.now pred.now proof.now)) }
{
    let names = net.var_names();
    push_pred_line(alloc, out, "predicate ", pred, names)?;
    let names = names.as_slice();
    push_line(alloc, out, "variables", &Names { names })?;
    push_line(alloc, out, "combine", &Combination { net })?;
    push_all(alloc, out, &Leaves { net, proof })?;
    Ok(())
}
