//! The law of picks.

ghost use Rattle.run_picks.specs.UniformPicks.{ArePicksUniform};

/// Of the 2^64 words of a draw each ordered pair of agents is picked by equally many, up to what two remainders leave
/// over. So a generator whose words are uniform picks pairs that are nearly so. It says nothing of a generator. A
/// theorem; the body is empty.
pub fn picks_are_uniform()
    ensures { ArePicksUniform }
{}
