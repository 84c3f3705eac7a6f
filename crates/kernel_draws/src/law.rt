//! The law of the draws.

ghost use Rattle.kernel_draws.specs.Uniform.{AreUniform};

/// Each number below a size has equally many words, and so has each ordered pair of different agents. A theorem; the
/// body is empty.
pub fn draws_are_uniform()
    ensures { AreUniform }
{}
