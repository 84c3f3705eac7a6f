//! Laws of the definitions.

ghost use Rattle.cert_base.specs.FlowLaw.{FlowLaw};

/// The sum of the states' base facts, each times the value of its state, balances the values (a weighted sum of the
/// state equation of Blondin, Esparza, Jaax, Meyer 2017). A theorem; the body is empty.
pub fn flow_law()
    ensures { FlowLaw }
{}
