//! Laws of the definitions.

ghost use Rattle.std.specs.Prelude.{◌≡◌, ◌∷◌, [], codes, Ok};
ghost use Rattle.pop_words.specs.declared.command.Command.TheVariants.{Check};
ghost use Rattle.pop_words.specs.Words.{meaning_of};
ghost use Rattle.pop_tool.specs.OneAnswer.{IsOneAnswer};
ghost use Rattle.pop_tool.specs.CompileCertified.{IsCompiledCertified};
ghost use Rattle.pop_tool.specs.ReplayHeld.{IsReplayHeld};
ghost use Rattle.pop_tool.specs.ShownChecked.{IsShownAsChecked};

/// The output is a function of the words and the input, except for a run with two or more workers and for `watch`. For
/// `compile` any valid proof will do. A theorem; the body is empty.
pub fn one_answer()
    ensures { IsOneAnswer }
{}

/// What `run` wrote, if its run was made, holds for `replay`, unless it is too long for an input, and so does what
/// `watch` wrote for `replay --watched`. A theorem; the body is empty.
pub fn replay_holds()
    ensures { IsReplayHeld }
{}

/// What `compile` wrote, with one of its words or none, is certified by `check`, unless it is too long for an input.
/// A theorem; the body is empty.
pub fn compiled_is_certified()
    ensures { IsCompiledCertified }
{}

/// `show` says what `check` says, and behind the lines of a valid proof it adds those of the bundle. A theorem; the body
/// is empty.
pub fn shown_is_checked()
    ensures { IsShownAsChecked }
{}

/// The word `check` alone means the command `check`. A theorem; the body is empty.
pub fn check_is_meant()
    ensures { meaning_of (codes "check" ∷ []) ≡ Ok Check }
{}
