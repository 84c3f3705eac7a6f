//! Laws of the definitions.

ghost use Rattle.cert_tree.specs.RefusalLaw.{RefusalLaw};

/// A tree closes the base facts exactly when none of its nodes is refused. A theorem; the body is empty.
pub fn refusal_law()
    ensures { RefusalLaw }
{}
