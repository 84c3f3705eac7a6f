//! What is proved of all leaves of powers.

ghost use Rattle.comp_powers.specs.PowersLaw.{PowersLaw, RangeLaw};

/// The leaf of `a(1)*x(1) + .. < c` with a range that suffices is well formed and has few states, and the proof that is
/// built for it is valid; and the range that is found suffices, if it gives no more states than a leaf may have. Two
/// theorems; the body is empty.
pub fn powers_are_right()
    ensures right { PowersLaw }
    ensures found { RangeLaw }
{}
