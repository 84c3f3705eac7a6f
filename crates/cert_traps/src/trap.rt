//! A trap: a set of states that stays marked once it is.

ghost use Rattle.std.specs.Prelude.{◌≡◌, ◌++◌, ◌∷◌, [], pos, negsuc, IfOk, OnOk};
ghost use Rattle.pop_leaf.specs.LeafModel.{IsLeaf};
ghost use Rattle.cert_base.specs.declared.fact.Fact.TheVariants.{Ge, Eq};
ghost use Rattle.cert_base.specs.FactsAndCases.{no_moves, no_start_facts, no_helper_facts};
ghost use Rattle.cert_base.specs.FactsAndCases.{some_taken_fact, count_row, puts_into, cases_of_trap};
ghost use Rattle.cert_base.specs.Ends.{CoverEach, AreCasesBy};
ghost use Rattle.cert_traps.specs.Roles.{passes_role};
ghost use Rattle.cert_traps.specs.declared.role.Role.TheVariants.{Leaves};

use crate::facts::{coefs, push_zeros};
use crate::role::{Role, move_flags};
use crate::set::StateSet;
use cert_base::{Fact, Row, only, variable_of_input, variable_of_move};
use pop_io::{List, NoMemory};
use pop_leaf::Leaf;
use std::alloc::Global;

/// The set is no trap; or it was never marked; or it is marked at the end.
pub fn trap_cases(alloc: Global, leaf: &Leaf, set: &List<u16>) -> Result<List<List<Fact>>, NoMemory>
    // Every end meets all facts of one of the cases.
    ensures { IfOk result (AreCasesBy (CoverEach leaf.now) (cases_of_trap leaf.now set.now)) }
{
    let set = StateSet::new(alloc, set)?;
    // What the invariant says is known from here on.
    let _formed = leaf.state_count();
    let cases = cases_of(alloc, leaf, &set)?;
    Ok(cases)
}

fn cases_of(alloc: Global, leaf: &Leaf, set: &StateSet) -> Result<List<List<Fact>>, NoMemory>
    requires { IsLeaf leaf.now }
    ensures { IfOk result (λ cases. cases ≡ cases_of_trap leaf.now set.now) }
{
    let mut cases = Vec::new(alloc);
    cases.push(some_left(alloc, leaf, set)?)?;
    cases.push(never_marked(alloc, leaf, set)?)?;
    cases.push(marked(alloc, leaf, set)?)?;
    Ok(List::from_vec(cases))
}

/// A move leaves the set.
fn some_left(alloc: Global, leaf: &Leaf, set: &StateSet) -> Result<List<Fact>, NoMemory>
    requires { IsLeaf leaf.now }
    ensures { IfOk result (λ facts. facts ≡ some_taken_fact leaf.now (passes_role set.now Leaves) ∷ []) }
{
    only(alloc, some_taken(alloc, leaf, set, Role::Leaves)?)
}

/// The set is marked at the end.
fn marked(alloc: Global, leaf: &Leaf, set: &StateSet) -> Result<List<Fact>, NoMemory>
    ensures { IfOk result (λ facts. facts ≡ Ge (count_row leaf.now set.now (negsuc 0)) ∷ []) }
{
    only(alloc, Fact::Ge(count_in(alloc, leaf, set, -1)?))
}

fn never_marked(alloc: Global, leaf: &Leaf, set: &StateSet) -> Result<List<Fact>, NoMemory>
    requires { IsLeaf leaf.now }
    ensures { IfOk result (λ facts. facts ≡ no_moves leaf.now (puts_into set.now) ++ no_start_facts leaf.now set.now
        ++ Eq (count_row leaf.now set.now (pos 0)) ∷ no_helper_facts leaf.now set.now) }
{
    let mut facts = Vec::new(alloc);
    none_there(alloc, &mut facts, leaf, set, Role::Puts)?;
    Ok(List::from_vec(facts))
}

/// Adds that no move with the role was taken, nobody started in the set, and nobody is in it.
pub(crate) fn none_there(
    alloc: Global,
    facts: &mut Vec<Fact>,
    leaf: &Leaf,
    set: &StateSet,
    role: Role,
) -> Result<(), NoMemory>
    requires { IsLeaf leaf.now }
    ensures { OnOk result (facts.new.items ≡ facts.old.items ++ no_moves leaf.now (passes_role set.now role)
        ++ no_start_facts leaf.now set.now
        ++ Eq (count_row leaf.now set.now (pos 0)) ∷ no_helper_facts leaf.now set.now) }
{
    none_taken(alloc, facts, leaf, set, role)?;
    none_started(alloc, facts, leaf, set)?;
    facts.push(Fact::Eq(count_in(alloc, leaf, set, 0)?))?;
    none_helps(alloc, facts, leaf, set)?;
    Ok(())
}

/// A move with the role was taken.
pub(crate) fn some_taken(
    alloc: Global,
    leaf: &Leaf,
    set: &StateSet,
    role: Role,
) -> Result<Fact, NoMemory>
    requires { IsLeaf leaf.now }
    ensures { IfOk result (λ fact. fact ≡ some_taken_fact leaf.now (passes_role set.now role)) }
{
    let flags = move_flags(alloc, leaf, set, role)?;
    let coefs = coefs(alloc, flags.as_slice())?;
    Ok(Fact::Ge(Row::over_moves(alloc, leaf, coefs.as_slice(), -1)?))
}

/// Adds that no move with the role was taken.
pub(crate) fn none_taken(
    alloc: Global,
    facts: &mut Vec<Fact>,
    leaf: &Leaf,
    set: &StateSet,
    role: Role,
) -> Result<(), NoMemory>
    requires { IsLeaf leaf.now }
    ensures { OnOk result (facts.new.items ≡ facts.old.items ++ no_moves leaf.now (passes_role set.now role)) }
{
    let flags = move_flags(alloc, leaf, set, role)?;
    push_zeros(alloc, facts, variable_of_move(leaf, 0), flags.as_slice())?;
    Ok(())
}

/// Adds that no input starts in the set.
fn none_started(
    alloc: Global,
    facts: &mut Vec<Fact>,
    leaf: &Leaf,
    set: &StateSet,
) -> Result<(), NoMemory>
    ensures { OnOk result (facts.new.items ≡ facts.old.items ++ no_start_facts leaf.now set.now) }
{
    let flags = set.starts(alloc, leaf)?;
    push_zeros(alloc, facts, variable_of_input(0), flags.as_slice())?;
    Ok(())
}

/// Adds, if a helper is in the set, that none is: a fact that no counts meet.
fn none_helps(
    alloc: Global,
    facts: &mut Vec<Fact>,
    leaf: &Leaf,
    set: &StateSet,
) -> Result<(), NoMemory>
    requires { IsLeaf leaf.now }
    ensures { OnOk result (facts.new.items ≡ facts.old.items ++ no_helper_facts leaf.now set.now) }
{
    let count = set.helpers(leaf);
    if count != 0 {
        facts.push(Fact::Eq(Row::constant(alloc, i64::from(count))))?;
    }
    Ok(())
}

/// The number of agents in the set at the end, plus a constant.
pub(crate) fn count_in(
    alloc: Global,
    leaf: &Leaf,
    set: &StateSet,
    constant: i64,
) -> Result<Row, NoMemory>
    ensures row { IfOk result (λ row. row ≡ count_row leaf.now set.now constant) }
    ensures formed { IsLeaf leaf.now }
{
    let flags = set.states(alloc, leaf)?;
    let coefs = coefs(alloc, flags.as_slice())?;
    Row::over_states(alloc, leaf, coefs.as_slice(), constant)
}
