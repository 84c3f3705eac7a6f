//! The states in order, and their places.

ghost use Rattle.std.specs.Prelude.{◌≡◌, ◌≤◌, ◌++◌, ◌+◌, ◌*◌, length, map, flat_map, IfOk, OnOk};
ghost use Rattle.std.specs.List.{range_with_len};
ghost use Rattle.pop_io.specs.declared.names.TheConstants.{VARIABLE_LIMIT};
ghost use Rattle.comp_trees.specs.declared.range.TheConstants.{RANGE_LIMIT};
ghost use Rattle.comp_powers_leaf.specs.declared.role.Role.TheVariants.{Token as token_of};
ghost use Rattle.comp_powers_leaf.specs.PowersLeaf.{chain_of, debtors_of, block_of, fixed_roles, pieces_of};
ghost use Rattle.comp_powers_leaf.specs.PowersLeaf.{roles as all_roles, block_size, states_before};
ghost use Rattle.comp_powers_leaf.specs.PowersLeaf.{place as place_of, HasRange, IsRole};

use crate::role::{Role, behind};
use comp_trees::power_of;
use pop_io::NoMemory;
use std::alloc::Global;

/// How many tokens a variable with this coefficient has.
pub(crate) fn chain(k: u32, coef: i64) -> u16
    requires { k ≤ RANGE_LIMIT }
    ensures value { result ≡ chain_of k coef }
    ensures most { result ≤ k }
{
    if coef < 0 {
        k as u16
    } else if coef == 0 {
        0
    } else {
        match power_of(k, coef as u64) {
            Some(_) => 0,
            None => k as u16,
        }
    }
}

/// How many states a variable has.
fn size(k: u32, coef: i64) -> u64
    requires { k ≤ RANGE_LIMIT }
    ensures value { result ≡ block_size k coef }
    ensures small { result ≤ RANGE_LIMIT + 1 }
{
    if coef < 0 {
        u64::from(k) + 1
    } else {
        u64::from(chain(k, coef))
    }
}

/// How many states the first j variables have.
fn before(coefs: &[i64], k: u32, j: u16) -> u64
    requires few { length coefs.now ≤ VARIABLE_LIMIT }
    requires range { k ≤ RANGE_LIMIT }
    requires variable { j ≤ length coefs.now }
    ensures value { result ≡ states_before k coefs.now j }
    ensures small { result ≤ VARIABLE_LIMIT * (RANGE_LIMIT + 1) }
{
    let mut sum = 0;
    for i in 0..j {
        sum += size(k, coefs[usize::from(i)]);
    }
    sum
}

/// How many states the leaf has for the range 2^k.
#[tactic(auto, using(crate::proofs::Building::states_counted))]
pub fn powers_states(coefs: &[i64], k: u32) -> u32
    requires few { length coefs.now ≤ VARIABLE_LIMIT }
    requires range { k ≤ RANGE_LIMIT }
    ensures { result ≡ length (all_roles coefs.now k) }
{
    2 * k + 5 + before(coefs, k, coefs.len() as u16) as u32
}

/// The place of a state.
pub(crate) fn place(coefs: &[i64], k: u32, role: Role) -> u64
    requires range { HasRange coefs.now k }
    requires there { IsRole coefs.now k role }
    ensures value { result ≡ place_of coefs.now k role }
{
    match role {
        Role::Low => 0,
        Role::High => 1,
        Role::Nothing(b) => 2 + behind(b),
        Role::Piece(i, b) => 4 + 2 * u64::from(i) + behind(b),
        Role::Plus => 4 + 2 * u64::from(k),
        Role::Debtor(j) => 2 * u64::from(k) + 5 + before(coefs, k, j) + u64::from(k),
        Role::Token(j, i) => 2 * u64::from(k) + 5 + before(coefs, k, j) + u64::from(i),
    }
}

fn tokens(alloc: Global, k: u32, j: u16, coef: i64) -> Result<Vec<Role>, NoMemory>
    requires { k ≤ RANGE_LIMIT }
    ensures { IfOk result (λ roles. roles.items ≡ map (token_of j) (range_with_len 0 (chain_of k coef))) }
{
    let mut roles = Vec::new(alloc);
    for i in 0..chain(k, coef) {
        roles.push(Role::Token(j, i))?;
    }
    Ok(roles)
}

fn push_debtor(roles: &mut Vec<Role>, j: u16, coef: i64) -> Result<(), NoMemory>
    ensures { OnOk result (roles.new.items ≡ roles.old.items ++ debtors_of j coef) }
{
    if coef < 0 {
        roles.push(Role::Debtor(j))?;
    }
    Ok(())
}

/// The states of one variable.
fn block(alloc: Global, k: u32, j: u16, coef: i64) -> Result<Vec<Role>, NoMemory>
    requires { k ≤ RANGE_LIMIT }
    ensures { IfOk result (λ roles. roles.items ≡ block_of k j coef) }
{
    let mut roles = tokens(alloc, k, j, coef)?;
    push_debtor(&mut roles, j, coef)?;
    Ok(roles)
}

fn pieces(alloc: Global, k: u32) -> Result<Vec<Role>, NoMemory>
    requires { k ≤ RANGE_LIMIT }
    ensures { IfOk result (λ roles. roles.items ≡ flat_map pieces_of (range_with_len 0 k)) }
{
    let mut roles = Vec::new(alloc);
    for i in 0..k as u16 {
        roles.extend_from_slice(&[Role::Piece(i, false), Role::Piece(i, true)])?;
    }
    Ok(roles)
}

fn fixed(alloc: Global, k: u32) -> Result<Vec<Role>, NoMemory>
    requires { k ≤ RANGE_LIMIT }
    ensures { IfOk result (λ roles. roles.items ≡ fixed_roles k) }
{
    let first = [
        Role::Low,
        Role::High,
        Role::Nothing(false),
        Role::Nothing(true),
    ];
    let mut roles = Vec::from_slice(alloc, &first)?;
    let mut rest = pieces(alloc, k)?;
    rest.push(Role::Plus)?;
    roles.extend_from_slice(rest.as_slice())?;
    Ok(roles)
}

/// All states, by place.
pub fn roles(alloc: Global, coefs: &[i64], k: u32) -> Result<Vec<Role>, NoMemory>
    requires { HasRange coefs.now k }
    ensures { IfOk result (λ roles. roles.items ≡ all_roles coefs.now k) }
{
    let mut roles = fixed(alloc, k)?;
    for j in 0..coefs.len() as u16 {
        let block = block(alloc, k, j, coefs[usize::from(j)])?;
        roles.extend_from_slice(block.as_slice())?;
    }
    Ok(roles)
}
