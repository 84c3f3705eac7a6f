//! What the states count, as multipliers: each list has one for each state.

ghost use Rattle.std.specs.Prelude.{◌≡◌, ◌<◌, ◌≤◌, ◌^◌, pos, length, map, IfOk};
ghost use Rattle.std.specs.List.{range_with_len};
ghost use Rattle.cert_base.specs.FactsAndCases.{states_of};
ghost use Rattle.comp_trees.specs.declared.range.TheConstants.{RANGE_LIMIT};
ghost use Rattle.comp_powers_leaf.specs.PowersLeaf.{worth, role_at, IsRole, HasRange, roles as all_roles};
ghost use Rattle.comp_powers.specs.PowersProof.{by_role, credit, amount_of, minus_ready, minus_wrong};

use crate::roled::RoledLeaf;
use comp_powers_leaf::{Role, owed_by};
use comp_trees::two_to;
use pop_io::NoMemory;
use pop_leaf::Leaf;
use std::alloc::Global;

/// What a state is worth.
fn worth_of(coefs: &[i64], k: u32, role: Role) -> i64
    requires range { HasRange coefs.now k }
    requires there { IsRole coefs.now k role }
    ensures { result ≡ worth coefs.now k role }
{
    match role {
        Role::Low => -(two_to(k) as i64),
        Role::High => 0,
        Role::Nothing(_) => 0,
        Role::Piece(i, _) => two_to(u32::from(i)) as i64,
        Role::Plus => two_to(k) as i64,
        Role::Debtor(j) => coefs[usize::from(j)],
        Role::Token(j, i) => {
            let owed = owed_by(k, coefs[usize::from(j)]);
            (owed % two_to(u32::from(i) + 1)) as i64
        }
    }
}

/// What it is worth, but 0 for hubs and debtors.
fn credit_of(coefs: &[i64], k: u32, role: Role) -> i64
    requires range { HasRange coefs.now k }
    requires there { IsRole coefs.now k role }
    ensures { result ≡ credit coefs.now k role }
{
    match role {
        Role::Low => 0,
        Role::Debtor(_) => 0,
        _ => worth_of(coefs, k, role),
    }
}

/// -1, but 0 for those that wait.
fn ready_of(role: Role) -> i64
    ensures { result ≡ minus_ready role }
{
    match role {
        Role::Nothing(_) => -1,
        Role::Piece(_, _) => -1,
        Role::Plus => -1,
        _ => 0,
    }
}

/// The role of a state.
fn role_in(coefs: &[i64], k: u32, roles: &[Role], q: u16) -> Role
    requires roles { roles.now ≡ all_roles coefs.now k }
    requires state { q < length roles.now }
    ensures role { result ≡ role_at coefs.now k q }
    ensures there { IsRole coefs.now k result }
{
    roles[usize::from(q)]
}

/// What a node counts a state for.
#[derive(Clone, Copy)]
pub(crate) enum Amount {
    /// What it is worth.
    Worth,
    /// Minus that.
    Owed,
    /// Minus that, but 0 for hubs and debtors.
    Lost,
    /// -1, but 0 for those that wait.
    Ready,
}

fn amount_of(coefs: &[i64], k: u32, amount: Amount, role: Role) -> i64
    requires range { HasRange coefs.now k }
    requires there { IsRole coefs.now k role }
    ensures { result ≡ amount_of coefs.now k amount role }
{
    match amount {
        Amount::Worth => worth_of(coefs, k, role),
        Amount::Owed => -worth_of(coefs, k, role),
        Amount::Lost => -credit_of(coefs, k, role),
        Amount::Ready => ready_of(role),
    }
}

fn amount_at(powers: &RoledLeaf<'_>, amount: Amount, q: u16) -> i64
    requires { q < length powers.now.leaf.now.states }
    ensures { result ≡ by_role powers.now.coefs.now powers.now.k (amount_of powers.now.coefs.now powers.now.k amount) q }
{
    let role = role_in(powers.coefs, powers.k, powers.roles, q);
    amount_of(powers.coefs, powers.k, amount, role)
}

fn wrong_at(leaf: &Leaf, b: bool, q: u16) -> i64
    requires { q < length leaf.now.states }
    ensures { result ≡ minus_wrong leaf.now b q }
{
    if leaf.output(q) == b { 0 } else { -1 }
}

/// The same for all states.
pub(crate) fn same(alloc: Global, leaf: &Leaf, value: i64) -> Result<Vec<i64>, NoMemory>
    ensures { IfOk result (λ flows. flows.items ≡ map (λ q. value) (states_of leaf.now)) }
{
    let flows = vec![in alloc; value; usize::from(leaf.state_count())]?;
    Ok(flows)
}

/// What the states are counted for.
pub(crate) fn amounts(
    alloc: Global,
    powers: &RoledLeaf<'_>,
    amount: Amount,
) -> Result<Vec<i64>, NoMemory>
    ensures { IfOk result (λ flows.
        flows.items ≡ map (by_role powers.now.coefs.now powers.now.k (amount_of powers.now.coefs.now powers.now.k amount))
        (states_of powers.now.leaf.now)) }
{
    let flows = (0..powers.leaf.state_count())
        .map(|q| amount_at(powers, amount, q))
        .collect(alloc)?;
    Ok(flows)
}

/// -1 for those with another output than the predicate's value.
pub(crate) fn wrong(alloc: Global, leaf: &Leaf, b: bool) -> Result<Vec<i64>, NoMemory>
    ensures { IfOk result (λ flows. flows.items ≡ map (minus_wrong leaf.now b) (states_of leaf.now)) }
{
    let flows = (0..leaf.state_count())
        .map(|q| wrong_at(leaf, b, q))
        .collect(alloc)?;
    Ok(flows)
}

/// 2^i.
pub(crate) fn size(i: u32) -> i64
    requires { i ≤ RANGE_LIMIT }
    ensures { result ≡ pos (2 ^ i) }
{
    two_to(i) as i64
}

/// The powers below 2^k.
pub(crate) fn sizes(alloc: Global, k: u32) -> Result<Vec<i64>, NoMemory>
    requires { k ≤ RANGE_LIMIT }
    ensures { IfOk result (λ sizes. sizes.items ≡ map (λ i. pos (2 ^ i)) (range_with_len 0 k)) }
{
    let sizes = (0..k).map(|i| size(i)).collect(alloc)?;
    Ok(sizes)
}
