//! Which states can meet.

ghost use Rattle.std.specs.Prelude.{◌≡◌, ◌<◌, ◌||◌, ◌==◌, not, length};
ghost use Rattle.cert_base.specs.FactsAndCases.{can_meet_in};

use pop_leaf::Leaf;

/// Whether a move that isn't silent takes both states: exactly when a reaction changes them.
pub fn can_meet(leaf: &Leaf, p: u16, q: u16) -> bool
    requires first { p < length leaf.now.states }
    requires second { q < length leaf.now.states }
    ensures { result ≡ can_meet_in leaf.now p q }
{
    let (r, s) = leaf.react(p, q);
    is_changed(r, s, p, q)
}

fn is_changed(r: u16, s: u16, p: u16, q: u16) -> bool
    ensures { result ≡ (not (r == p) || not (s == q)) }
{
    r != p || s != q
}
