//! Printing a predicate.

ghost use Rattle.std.specs.Prelude.{◌≡◌, ◌<◌, ◌++◌, Ok, IfOk, OnOk, length, decimal, string_bytes};
ghost use Rattle.std.specs.Prelude.{codes, true};
ghost use Rattle.std.specs.List.{list_all};
ghost use Rattle.pop_io.specs.Names.{variable_name, AreNames};
ghost use Rattle.pres_ast.specs.PredTree.{LessThan, Congruent};
ghost use Rattle.pres_ast.specs.PredModel.{HasAtoms, IsPred};
ghost use Rattle.pres_ast.specs.TreeOf.{tree_of};
ghost use Rattle.pres_read.specs.Calls.{IsPrinted};
ghost use Rattle.pres_read.specs.Grammar.{Derives};
ghost use Rattle.pres_read.specs.Texts.{text_symbols};
ghost use Rattle.pres_read.specs.Reading.{pred_read};
ghost use Rattle.pres_read.specs.Canonical.{is_zero, term_text, sign_text, terms_text, zero_text};
ghost use Rattle.pres_read.specs.Canonical.{sum_text, sign_between, tree_text};

use itoa::Buffer;
use pop_io::{List, NoMemory, Text};
use pres_ast::{Pred, Tree};
use std::alloc::{AllocError, Global};

/// The canonical text of a predicate over the variables with these names, at most some 50,000 bytes.
pub fn print_pred(alloc: Global, pred: &Pred, names: &List<Text>) -> Result<Text, NoMemory>
    requires count { length names.now ≡ pred.now.variables }
    requires names { AreNames variable_name names.now }
    ensures { IsPrinted names.now pred.now result }
{
    canonical_text(alloc, pred.tree(), names)
}

fn canonical_text(alloc: Global, tree: &Tree, names: &List<Text>) -> Result<Text, NoMemory>
    requires limits { IsPred (length names.now) (tree_of tree.now) }
    requires names { AreNames variable_name names.now }
    ensures canonical { IfOk result (λ text. text ≡ tree_text names.now (tree_of tree.now)) }
    ensures derived { IfOk result (λ text. Derives names.now (text_symbols text) (tree_of tree.now)) }
    ensures again { IfOk result
        (λ text. pred_read names.now text ≡ Ok (record { variables = length names.now; tree = tree_of tree.now })) }
{
    let mut out = String::new(alloc);
    push_tree(&mut out, tree, names)?;
    Ok(Text::from_string(out))
}

fn push_tree(out: &mut String, tree: &Tree, names: &List<Text>) -> Result<(), AllocError>
    requires { HasAtoms (length names.now) (tree_of tree.now) }
    ensures { OnOk result (string_bytes out.new ≡ string_bytes out.old ++ tree_text names.now (tree_of tree.now)) }
{
    match tree {
        Tree::Less { coefs, bound } => push_comparison(out, coefs.as_slice(), *bound, names),
        Tree::Rest {
            coefs,
            modulus,
            rest,
        } => push_congruence(out, coefs.as_slice(), *modulus, *rest, names),
        Tree::Not(p) => {
            out.push_str("!")?;
            push_tree(out, p, names)
        }
        Tree::And(p, q) | Tree::Or(p, q) => {
            out.push_str("(")?;
            push_tree(out, p, names)?;
            out.push_str(sign_between(tree))?;
            push_tree(out, q, names)?;
            out.push_str(")")
        }
    }
}

/// The sign between the two parts of a tree.
fn sign_between(tree: &Tree) -> &'static str
    ensures { result.now ≡ sign_between (tree_of tree.now) }
{
    match tree {
        Tree::Or(_, _) => " || ",
        _ => " && ",
    }
}

fn push_comparison(
    out: &mut String,
    coefs: &[i64],
    bound: i64,
    names: &List<Text>,
) -> Result<(), AllocError>
    requires { length coefs.now ≡ length names.now }
    ensures { OnOk result
        (string_bytes out.new ≡ string_bytes out.old ++ tree_text names.now (LessThan coefs.now bound)) }
{
    push_sum(out, coefs, names)?;
    out.push_str(" < ")?;
    out.push_str(Buffer::new().format(bound))
}

fn push_congruence(
    out: &mut String,
    coefs: &[i64],
    modulus: u32,
    rest: u32,
    names: &List<Text>,
) -> Result<(), AllocError>
    requires { length coefs.now ≡ length names.now }
    ensures { OnOk result
        (string_bytes out.new ≡ string_bytes out.old ++ tree_text names.now (Congruent coefs.now modulus rest)) }
{
    push_sum(out, coefs, names)?;
    out.push_str(" = ")?;
    push_rest(out, rest, modulus)
}

fn push_rest(out: &mut String, rest: u32, modulus: u32) -> Result<(), AllocError>
    ensures { OnOk result
        (string_bytes out.new ≡ string_bytes out.old ++ decimal rest ++ codes " mod " ++ decimal modulus) }
{
    out.push_str(Buffer::new().format(rest))?;
    out.push_str(" mod ")?;
    out.push_str(Buffer::new().format(modulus))
}

fn push_sum(out: &mut String, coefs: &[i64], names: &List<Text>) -> Result<(), AllocError>
    requires { length coefs.now ≡ length names.now }
    ensures { OnOk result (string_bytes out.new ≡ string_bytes out.old ++ sum_text names.now coefs.now) }
{
    if has_no_term(coefs) {
        push_zero(out, names.as_slice())
    } else {
        push_terms(out, coefs, names.as_slice())
    }
}

fn has_no_term(coefs: &[i64]) -> bool
    ensures { result ≡ list_all is_zero coefs.now }
{
    coefs.iter().all(|coef| coef.unsigned_abs() == 0)
}

fn push_zero(out: &mut String, names: &[Text]) -> Result<(), AllocError>
    ensures { OnOk result (string_bytes out.new ≡ string_bytes out.old ++ zero_text names.now) }
{
    out.push_str("0*")?;
    match names {
        [] => Ok(()),
        [name, ..] => out.push_str(name.as_str()),
    }
}

fn push_terms(out: &mut String, coefs: &[i64], names: &[Text]) -> Result<(), AllocError>
    requires { length coefs.now ≡ length names.now }
    ensures { OnOk result (string_bytes out.new ≡ string_bytes out.old ++ terms_text true names.now coefs.now) }
{
    let mut first = true;
    for (i, name) in names.iter().enumerate() {
        let size = coefs[i].unsigned_abs();
        if size != 0 {
            out.push_str(sign(first, coefs[i] < 0))?;
            push_term(out, size, name)?;
            first = false;
        }
    }
    Ok(())
}

fn sign(first: bool, negative: bool) -> &'static str
    ensures { result.now ≡ sign_text first negative }
{
    match (first, negative) {
        (true, false) => "",
        (true, true) => "-",
        (false, false) => " + ",
        (false, true) => " - ",
    }
}

fn push_term(out: &mut String, size: u64, name: &Text) -> Result<(), AllocError>
    ensures { OnOk result (string_bytes out.new ≡ string_bytes out.old ++ term_text size name.now) }
{
    if size != 1 {
        out.push_str(Buffer::new().format(size))?;
        out.push_str("*")?;
    }
    out.push_str(name.as_str())
}
