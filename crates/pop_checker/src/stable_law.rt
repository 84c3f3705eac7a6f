//! The law of valid proofs with goals.

ghost use Rattle.pop_checker.specs.Silent.{SilentProofs};
ghost use Rattle.pop_checker.specs.StableSound.{IsStablySound};

/// A valid proof of a well-formed net, with leaf predicates over its variables, shows that the net stably computes the
/// predicate (Angluin and others 2006). A theorem; the body is empty.
pub fn valid_is_stably_right()
    ensures { IsStablySound }
{}

/// A proof in which each leaf falls silent is that of its parts: valid, tame and with a bound as they are. A theorem; the
/// body is empty.
pub fn silent_proofs()
    ensures { SilentProofs }
{}
