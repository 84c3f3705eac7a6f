//! What is proved of all leaves of atoms that count their agents.

ghost use Rattle.comp_flock.specs.OffsetLaw.{OffsetLaw, PowerLaw, EveryLaw as EveryPowerLaw};
ghost use Rattle.comp_flock.specs.PrefixLaw.{PrefixLaw, TopLaw, EveryLaw};

/// The leaf of an atom that counts its agents, with a power that is enough, is well formed, and the proof that is built
/// for it is valid; the power that is found is the least that is enough; and one is found for each c up to the limit.
/// Three theorems; the body is empty.
pub fn offset_flocks_are_right()
    ensures right { OffsetLaw }
    ensures least { PowerLaw }
    ensures every { EveryPowerLaw }
{}

/// The leaf of an atom that counts its agents is well formed, with few states and no helpers, and the proof that is
/// built for it is valid; the place that is found is that of the greatest one of c; and one is found for each c up to
/// the limit. Three theorems; the body is empty.
pub fn prefixes_are_right()
    ensures right { PrefixLaw }
    ensures top { TopLaw }
    ensures every { EveryLaw }
{}
