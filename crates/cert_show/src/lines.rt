//! Words and lines.

ghost use Rattle.std.specs.Prelude.{◌≡◌, ◌<◌, ◌++◌, OnOk, decimal, length};
ghost use Rattle.std.specs.Fmt.{signed_decimal};
ghost use Rattle.base_lines.specs.Lines.{ended};
ghost use Rattle.pop_io.specs.Names.{variable_name, AreNames};
ghost use Rattle.pres_read.specs.Canonical.{tree_text};
ghost use Rattle.pop_leaf.specs.LeafModel.{IsMoveBelow};
ghost use Rattle.cert_show.specs.Lines.{each, spaced, quoted, name_at, pair_text, move_text};

use crate::list::{Texts, push_all};
use crate::name::push_quoted;
use base_lines::push_number;
use itoa::Buffer;
use pop_io::{List, NoMemory, Text};
use pop_net::{Leaf, Move};
use pres_ast::Pred;
use pres_read::print_pred;
use std::alloc::{AllocError, Global};

/// Adds a text as it is.
pub(crate) fn push_text(out: &mut Vec<u8>, text: &str) -> Result<(), AllocError>
    ensures { OnOk result (out.new.items ≡ out.old.items ++ text.now) }
{
    out.extend_from_slice(text.as_bytes())
}

/// Adds a name behind a blank.
pub(crate) fn push_word(out: &mut Vec<u8>, name: &str) -> Result<(), AllocError>
    ensures { OnOk result (out.new.items ≡ out.old.items ++ spaced (quoted name.now)) }
{
    push_text(out, " ")?;
    push_quoted(out, name)
}

/// Adds a whole number.
pub(crate) fn push_integer(out: &mut Vec<u8>, n: i64) -> Result<(), AllocError>
    ensures { OnOk result (out.new.items ≡ out.old.items ++ signed_decimal n) }
{
    push_text(out, Buffer::new().format(n))
}

/// Adds the name of a state.
pub(crate) fn push_name(out: &mut Vec<u8>, leaf: &Leaf, state: u16) -> Result<(), AllocError>
    requires { state < length leaf.now.states }
    ensures { OnOk result (out.new.items ≡ out.old.items ++ name_at leaf.now.states state) }
{
    push_quoted(out, leaf.name(state))
}

fn push_pair(out: &mut Vec<u8>, leaf: &Leaf, p: u16, q: u16) -> Result<(), AllocError>
    requires p { p < length leaf.now.states }
    requires q { q < length leaf.now.states }
    ensures { OnOk result (out.new.items ≡ out.old.items ++ pair_text leaf.now.states p q) }
{
    push_name(out, leaf, p)?;
    push_text(out, " + ")?;
    push_name(out, leaf, q)
}

/// Adds the name of a state behind a blank.
pub(crate) fn push_state(out: &mut Vec<u8>, leaf: &Leaf, state: u16) -> Result<(), AllocError>
    requires { state < length leaf.now.states }
    ensures { OnOk result (out.new.items ≡ out.old.items ++ spaced (name_at leaf.now.states state)) }
{
    push_word(out, leaf.name(state))
}

/// Adds a move by the names of its states.
fn push_move(out: &mut Vec<u8>, leaf: &Leaf, t: Move) -> Result<(), AllocError>
    requires { IsMoveBelow (length leaf.now.states) t }
    ensures { OnOk result (out.new.items ≡ out.old.items ++ move_text leaf.now.states t) }
{
    push_pair(out, leaf, t.p, t.q)?;
    push_text(out, " -> ")?;
    push_pair(out, leaf, t.r, t.s)
}

/// Adds a line that ends in a move.
pub(crate) fn push_move_line(
    out: &mut Vec<u8>,
    first: &str,
    leaf: &Leaf,
    t: Move,
) -> Result<(), AllocError>
    requires { IsMoveBelow (length leaf.now.states) t }
    ensures { OnOk result (out.new.items ≡ out.old.items ++ ended (first.now ++ move_text leaf.now.states t)) }
{
    push_text(out, first)?;
    push_move(out, leaf, t)?;
    push_text(out, "\n")
}

/// Adds a line of words.
pub(crate) fn push_line<T: Texts>(
    alloc: Global,
    out: &mut Vec<u8>,
    first: &str,
    words: &T,
) -> Result<(), NoMemory>
    requires { T.can_push words.now }
    ensures { OnOk result (out.new.items ≡ out.old.items ++ ended (first.now ++ each (T.size words.now) (T.text words.now))) }
{
    push_text(out, first)?;
    push_all(alloc, out, words)?;
    push_text(out, "\n")?;
    Ok(())
}

/// Adds a line.
pub(crate) fn push_title(out: &mut Vec<u8>, title: &str) -> Result<(), AllocError>
    ensures { OnOk result (out.new.items ≡ out.old.items ++ ended title.now) }
{
    push_text(out, title)?;
    push_text(out, "\n")
}

/// Adds a line that ends in a number.
pub(crate) fn push_number_line(
    out: &mut Vec<u8>,
    first: &str,
    number: u64,
) -> Result<(), AllocError>
    ensures { OnOk result (out.new.items ≡ out.old.items ++ ended (first.now ++ decimal number)) }
{
    push_text(out, first)?;
    push_number(out, number)?;
    push_text(out, "\n")
}

/// Adds a line that ends in a predicate.
pub(crate) fn push_pred_line(
    alloc: Global,
    out: &mut Vec<u8>,
    first: &str,
    pred: &Pred,
    names: &List<Text>,
) -> Result<(), NoMemory>
    requires count { length names.now ≡ pred.now.variables }
    requires names { AreNames variable_name names.now }
    ensures { OnOk result
        (out.new.items ≡ out.old.items ++ ended (first.now ++ tree_text names.now pred.now.tree)) }
{
    push_text(out, first)?;
    let text = print_pred(alloc, pred, names)?;
    push_text(out, text.as_str())?;
    push_text(out, "\n")?;
    Ok(())
}
