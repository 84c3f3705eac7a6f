//! Facts on one variable, and rows of those that are flagged.

ghost use Rattle.std.specs.Prelude.{◌≡◌, ◌≤◌, ◌+◌, ◌++◌, length, map, pos, IfOk, OnOk};
ghost use Rattle.cert_base.specs.declared.fact.Fact.TheVariants.{Eq};
ghost use Rattle.cert_base.specs.declared.limits.TheConstants.{INDEX_COUNT};
ghost use Rattle.cert_base.specs.FactsAndCases.{indicator, places_from};
ghost use Rattle.cert_base.specs.Rows.{single_row};
ghost use Rattle.cert_traps.specs.Facts.{zero_if};

use cert_base::{Fact, Row};
use pop_io::{List, NoMemory};
use std::alloc::Global;

/// The variable is 0.
pub(crate) fn is_zero(alloc: Global, variable: u32) -> Result<Fact, NoMemory>
    ensures { IfOk result (λ fact. fact ≡ Eq (single_row variable (pos 1) (pos 0))) }
{
    Ok(Fact::Eq(Row::single(alloc, variable, 1, 0)?))
}

/// Adds that each flagged variable is 0; they are numbered from `first` on.
pub(crate) fn push_zeros(
    alloc: Global,
    facts: &mut Vec<Fact>,
    first: u32,
    flags: &[bool],
) -> Result<(), NoMemory>
    requires { first + length flags.now ≤ INDEX_COUNT }
    ensures { OnOk result (facts.new.items ≡ facts.old.items
        ++ map (λ t. Eq (single_row (first + t) (pos 1) (pos 0))) (places_from 0 (λ flag. flag) flags.now)) }
{
    facts.reserve(flags.len())?;
    for (t, flag) in flags.iter().enumerate() {
        push_zero(alloc, facts, first + t as u32, *flag)?;
    }
    Ok(())
}

/// Adds that the variable is 0, if the flag is set.
pub(crate) fn push_zero(
    alloc: Global,
    facts: &mut Vec<Fact>,
    variable: u32,
    flag: bool,
) -> Result<(), NoMemory>
    ensures { OnOk result (facts.new.items ≡ facts.old.items ++ zero_if variable flag) }
{
    if flag {
        facts.push(is_zero(alloc, variable)?)?;
    }
    Ok(())
}

/// 1 where a flag is set, and 0 elsewhere.
pub(crate) fn coefs(alloc: Global, flags: &[bool]) -> Result<Vec<i64>, NoMemory>
    ensures { IfOk result (λ coefs. coefs.items ≡ map indicator flags.now) }
{
    let coefs = flags.iter().map(|flag| bit(*flag)).collect(alloc)?;
    Ok(coefs)
}

fn bit(flag: bool) -> i64
    ensures { result ≡ indicator flag }
{
    if flag { 1 } else { 0 }
}
