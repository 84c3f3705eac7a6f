//! Predicates, their tokens and their texts.

ghost use Rattle.std.specs.Prelude.{◌≡◌, [], ◌∷◌, IfOk, codes};

use pop_io::{Failure, List, Text};
use pres_read::{ReadPred, print_pred, read_pred};
use pres_tokens::next_token;
use std::alloc::{AllocError, Global};
use std::test::Fail;

fn names(alloc: Global) -> Result<List<Text>, AllocError>
    ensures { IfOk result (λ l. l ≡ codes "x" ∷ codes "y_2" ∷ []) }
{
    let x = Text::from_string(String::from_str(alloc, "x")?);
    let y = Text::from_string(String::from_str(alloc, "y_2")?);
    let mut names = Vec::new(alloc);
    names.push(x)?;
    names.push(y)?;
    Ok(List::from_vec(names))
}

// Texts of atoms too wide to be compiled, and the canonical texts of their trees, worked out by hand.
const TREES: [(&[u8], &[u8]); 9] = [
    (b"2147483648*x < 1", b"2147483648*x < 1"),
    (b"2147483647*x + x < 1", b"2147483648*x < 1"),
    (b"-2147483648*x < 1", b"-2147483648*x < 1"),
    (b"x < 1099511627776", b"x < 1099511627776"),
    (b"x < -1099511627776", b"x < -1099511627776"),
    (b"x <= 1099511627775", b"x < 1099511627776"),
    (b"x >= -1099511627775", b"-x < 1099511627776"),
    (b"x > 1099511627775", b"-x < -1099511627775"),
    (
        b"x = -1099511627775",
        b"(x < -1099511627774 && -x < 1099511627776)",
    ),
];

/// Whether a text is read to a predicate over two variables that has this canonical text.
fn is_canonical(alloc: Global, names: &List<Text>, text: &[u8], canonical: &[u8]) -> bool
    requires { names.now ≡ codes "x" ∷ codes "y_2" ∷ [] }
{
    let Ok(pred) = read_pred(alloc, text, names) else {
        return false;
    };
    match print_pred(alloc, &pred, names) {
        Ok(printed) => pred.vars() == 2 && printed.as_str().as_bytes() == canonical,
        Err(_) => false,
    }
}

#[test]
fn trees(rt: HostRuntime) -> Result<(), Fail> {
    let names = names(rt.alloc())?;
    for (text, canonical) in TREES {
        assert!(rt;
            is_canonical(rt.alloc(), &names, text, canonical),
            "at {text:?}"
        );
    }
    Ok(())
}

#[test]
fn a_line_feed_is_no_token(rt: HostRuntime) -> Result<(), Fail> {
    let names = names(rt.alloc())?;
    let read = read_pred(rt.alloc(), b"\nx < 1", &names);
    assert!(rt; matches!(read, Err(Failure::Fault(ReadPred::Syntax(0)))));
    Ok(())
}

const TOKENS: &[u8] = b" 12<=x!=mod modx";

/// Where the token that is found from here begins and ends.
fn token_from(at: usize) -> Option<(u32, usize)> {
    if TOKENS.len() < at {
        return None;
    }
    let (token, after) = next_token(TOKENS, at)?;
    Some((token.place, after))
}

#[test]
fn the_longest_token_is_taken(rt: HostRuntime) {
    for (at, place, end) in [
        (0, 1, 3),
        (3, 3, 5),
        (5, 5, 6),
        (6, 6, 8),
        (8, 8, 11),
        (11, 12, 16),
    ] {
        assert_eq!(rt; token_from(at), Some((place, end)));
    }
    assert!(rt; token_from(16).is_none());
}
