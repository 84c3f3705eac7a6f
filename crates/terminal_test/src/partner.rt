//! The agents that another one can react with.

ghost use Rattle.std.specs.Prelude.{◌≡◌, ◌<◌, ◌↔◌, length, true, IfSome};
ghost use Rattle.pop_net.specs.Lanes.{tuple_of, crowd_of, IsValid, AreValid};
ghost use Rattle.pop_crowd.specs.Replay.{reacts};
ghost use Rattle.terminal_test.specs.Pairs.{IsEnabled, IsPartner};

use pop_crowd::{Crowd, differ};
use pop_net::{Net, Word};

/// The first agent after a whose meeting with a changes a word.
pub(crate) fn partner(net: &Net, crowd: &Crowd, a: u32) -> Option<u32>
    requires valid { AreValid net.now crowd.now }
    requires a_in { a < length crowd.now }
    ensures { IsPartner net.now (crowd_of net.now crowd.now) a result }
{
    let x = crowd.word(a);
    let agents = crowd.len();
    for b in a + 1..agents {
        if is_enabled(net, x, crowd.word(b)) {
            return Some(b);
        }
    }
    None
}

/// An enabled pair with the first agent of a pair: the pair itself, or this agent with the first after it that can
/// change. The numbers may be those of no agents.
pub(crate) fn pair_beside(net: &Net, crowd: &Crowd, pair: (u32, u32)) -> Option<(u32, u32)>
    requires { AreValid net.now crowd.now }
    ensures { IfSome result (λ found. IsEnabled net.now (crowd_of net.now crowd.now) found.0 found.1) }
{
    let (a, b) = pair;
    if are_enabled(net, crowd, a, b) {
        return Some(pair);
    }
    if crowd.len() <= a {
        return None;
    }
    let b = partner(net, crowd, a)?;
    Some((a, b))
}

/// Whether the first of two agents is the lower one, and their meeting changes a word.
fn are_enabled(net: &Net, crowd: &Crowd, a: u32, b: u32) -> bool
    requires { AreValid net.now crowd.now }
    ensures { (result ≡ true) ↔ IsEnabled net.now (crowd_of net.now crowd.now) a b }
{
    if a < b && b < crowd.len() {
        return is_enabled(net, crowd.word(a), crowd.word(b));
    }
    false
}

/// Whether the reaction of two words changes one of them.
fn is_enabled(net: &Net, x: Word, y: Word) -> bool
    requires x_valid { IsValid net.now x }
    requires y_valid { IsValid net.now y }
    ensures { result ≡ reacts net.now (tuple_of net.now x) (tuple_of net.now y) }
{
    let (first, second) = net.react(x, y);
    differ((x, y), (first, second))
}
