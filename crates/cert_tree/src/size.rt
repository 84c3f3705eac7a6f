//! The number of facts in a case.

ghost use Rattle.std.specs.Prelude.{◌≡◌, length, nat_le};
ghost use Rattle.std.specs.List.{list_all};
ghost use Rattle.cert_base.specs.declared.fact.Fact.{Fact};
ghost use Rattle.cert_tree.specs.Refusals.{all_fit};

use cert_base::{FACT_LIMIT, Fact};
use pop_io::List;

/// Whether these facts with those of each case are few enough.
pub(crate) fn has_room(facts: &[Fact], cases: &[List<Fact>]) -> bool
    ensures { result ≡ all_fit facts.now cases.now }
{
    if facts.len() > FACT_LIMIT {
        return cases.is_empty();
    }
    are_short(cases, FACT_LIMIT - facts.len())
}

fn are_short(cases: &[List<Fact>], len: usize) -> bool
    ensures { result ≡ list_all (λ own. nat_le (length own) len) cases.now }
{
    cases.iter().all(|own| own.as_slice().len() <= len)
}
