//! What the tests of whole commands share.

ghost use Rattle.std.specs.Prelude.{◌≤◌, length, IfOk};

use pop_io::{List, Trouble};
use std::alloc::{AllocError, Global};
use std::test::Fail;

/// Majority: the strong states A and B, the weak states a and b.
pub(crate) const NET: &str =
    r#"{"format":1,"vars":["x","y"],"leaves":[{"states":["A","B","a","b"],"moves":[[0,1,2,3],[0,3,0,2],[1,2,1,3],[3,2,3,3]],"input":[0,1],"output":[true,false,true,false]}],"combine":[0]}"#;

/// What follows the net in its bundle.
pub(crate) const PROOF: &str =
    r#""pred":"y - x < 0","proof":[{"pred":"y - x < 0","layers":[{"moves":[0,1],"weights":[1,1,0,1]},{"moves":[2,3],"weights":[0,0,1,0]}],"true":[["open",5],["present",0],["lin",[[0,-1],[1,1],[7,1],[8,-1]]],["lin",[[6,1],[9,-1],[10,-1]]]],"false":[["open",5],["present",0],["present",2],["lin",[[6,1],[8,-1],[9,-1]]],["trap",[0,3]],["lin",[[12,1]]],["lin",[[2,1],[9,1],[12,-1],[13,-1]]],["lin",[[8,-1],[11,-1],[12,1]]],["lin",[[0,1],[1,-1],[7,1],[8,1],[9,-1]]]]}]"#;

pub(crate) fn bytes_of(alloc: Global, text: &str) -> Result<List<u8>, AllocError> {
    Ok(List::from_vec(Vec::from_slice(alloc, text.as_bytes())?))
}

pub(crate) fn no_troubles(alloc: Global) -> List<Trouble> {
    List::from_vec(Vec::new(alloc))
}

/// Words that stand between single spaces.
pub(crate) fn words_of(alloc: Global, text: &str) -> Result<Vec<&str>, Fail>
    ensures { IfOk result (λ words. length words.items ≤ 100) }
{
    let mut words = Vec::new(alloc);
    for word in text.split(' ') {
        words.push(word)?;
    }
    if 100 < words.len() {
        return Err(Fail::from("fewer words"));
    }
    Ok(words)
}
