//! A siphon: a set of states that stays unmarked once it is.

ghost use Rattle.std.specs.Prelude.{◌≡◌, ◌++◌, ◌∷◌, [], pos, ◌-ℤ◌, map, IfOk};
ghost use Rattle.pop_leaf.specs.LeafModel.{IsLeaf};
ghost use Rattle.cert_base.specs.declared.fact.Fact.TheVariants.{Ge, Eq};
ghost use Rattle.cert_base.specs.Rows.{input_row};
ghost use Rattle.cert_base.specs.FactsAndCases.{indicator, is_in, helpers_among, no_moves};
ghost use Rattle.cert_base.specs.FactsAndCases.{some_taken_fact, count_row, cases_of_siphon};
ghost use Rattle.cert_base.specs.Ends.{CoverEach, AreCasesBy};
ghost use Rattle.cert_traps.specs.Roles.{passes_role};
ghost use Rattle.cert_traps.specs.declared.role.Role.TheVariants.{Enters};

use crate::facts::coefs;
use crate::role::Role;
use crate::set::StateSet;
use crate::trap::{count_in, none_taken, some_taken};
use cert_base::{Fact, Row, only};
use pop_io::{List, NoMemory};
use pop_leaf::Leaf;
use std::alloc::Global;

/// The set is no siphon; or it was marked at the start; or it was never marked.
pub fn siphon_cases(
    alloc: Global,
    leaf: &Leaf,
    set: &List<u16>,
) -> Result<List<List<Fact>>, NoMemory>
    // Every end meets all facts of one of the cases.
    ensures { IfOk result (AreCasesBy (CoverEach leaf.now) (cases_of_siphon leaf.now set.now)) }
{
    let set = StateSet::new(alloc, set)?;
    // What the invariant says is known from here on.
    let _formed = leaf.state_count();
    let cases = cases_of(alloc, leaf, &set)?;
    Ok(cases)
}

fn cases_of(alloc: Global, leaf: &Leaf, set: &StateSet) -> Result<List<List<Fact>>, NoMemory>
    requires { IsLeaf leaf.now }
    ensures { IfOk result (λ cases. cases ≡ cases_of_siphon leaf.now set.now) }
{
    let mut cases = Vec::new(alloc);
    cases.push(some_entered(alloc, leaf, set)?)?;
    cases.push(only(alloc, some_started(alloc, leaf, set)?)?)?;
    cases.push(none_inside(alloc, leaf, set, Role::Takes)?)?;
    Ok(List::from_vec(cases))
}

/// A move enters the set.
fn some_entered(alloc: Global, leaf: &Leaf, set: &StateSet) -> Result<List<Fact>, NoMemory>
    requires { IsLeaf leaf.now }
    ensures { IfOk result (λ facts. facts ≡ some_taken_fact leaf.now (passes_role set.now Enters) ∷ []) }
{
    only(alloc, some_taken(alloc, leaf, set, Role::Enters)?)
}

/// Some input starts in the set, or a helper is in it.
pub(crate) fn some_started(alloc: Global, leaf: &Leaf, set: &StateSet) -> Result<Fact, NoMemory>
    ensures { IfOk result
        (λ fact. fact ≡ Ge (input_row (map (λ start. indicator (is_in set.now start)) leaf.now.inputs)
        (pos (helpers_among leaf.now set.now) -ℤ pos 1))) }
{
    let flags = set.starts(alloc, leaf)?;
    let coefs = coefs(alloc, flags.as_slice())?;
    Ok(Fact::Ge(Row::over_inputs(alloc, coefs.as_slice(), i64::from(set.helpers(leaf)) - 1)?))
}

/// No move with the role was taken, and nobody is in the set.
pub(crate) fn none_inside(
    alloc: Global,
    leaf: &Leaf,
    set: &StateSet,
    role: Role,
) -> Result<List<Fact>, NoMemory>
    requires { IsLeaf leaf.now }
    ensures { IfOk result
        (λ facts. facts
        ≡ no_moves leaf.now (passes_role set.now role) ++ Eq (count_row leaf.now set.now (pos 0)) ∷ []) }
{
    let mut facts = Vec::new(alloc);
    none_taken(alloc, &mut facts, leaf, set, role)?;
    facts.push(Fact::Eq(count_in(alloc, leaf, set, 0)?))?;
    Ok(List::from_vec(facts))
}
