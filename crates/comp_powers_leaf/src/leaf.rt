//! The whole leaf.

ghost use Rattle.std.specs.Prelude.{◌≡◌, ◌≤◌, ◌≤ℤ◌, ◌^◌, pos, length, map, IfOk};
ghost use Rattle.std.specs.List.{range_with_len};
ghost use Rattle.pop_leaf.specs.declared.limits.TheConstants.{STATE_LIMIT};
ghost use Rattle.comp_trees.specs.declared.range.TheConstants.{RANGE_LIMIT};
ghost use Rattle.comp_powers_leaf.specs.PowersLeaf.{says, start_of, powers_inputs, HasRange};
ghost use Rattle.comp_powers_leaf.specs.PowersLeaf.{roles as all_roles, state_name_at, start_by};
ghost use Rattle.comp_powers_leaf.specs.PowersLeaf.{hub_of, lacking, bit_role, helper_roles, all_helper_roles};
ghost use Rattle.comp_powers_leaf.specs.PowersLeaf.{place as place_of, IsPowers, HasRoom, powers_leaf_of};
ghost use Rattle.comp_trees.specs.DefinedLeaf.{IsDefined};

use crate::listing::{moves, place_in};
use crate::meeting::{power_role, rest};
use crate::placing::roles;
use crate::role::{Role, answer};
use comp_trees::{is_set, power_of, two_to};
use pop_io::{List, NoMemory, Text};
use pop_leaf::Leaf;
use std::alloc::Global;

fn outputs(alloc: Global, roles: &[Role]) -> Result<Vec<bool>, NoMemory>
    ensures { IfOk result (λ outputs. outputs.items ≡ map says roles.now) }
{
    let mut outputs = Vec::new(alloc);
    for role in roles {
        outputs.push(answer(*role))?;
    }
    Ok(outputs)
}

fn name_of(alloc: Global, q: u16) -> Result<Text, NoMemory>
    ensures { IfOk result (λ name. name ≡ state_name_at q) }
{
    Ok(Text::from_string(format!(in alloc; "{q}")?))
}

fn names(alloc: Global, count: u16) -> Result<List<Text>, NoMemory>
    ensures { IfOk result (λ names. names ≡ map state_name_at (range_with_len 0 count)) }
{
    let mut names = Vec::new(alloc);
    for q in 0..count {
        names.push(name_of(alloc, q)?)?;
    }
    Ok(List::from_vec(names))
}

fn start_with(k: u32, j: u16, power: Option<u16>) -> Role
    requires { k ≤ RANGE_LIMIT }
    ensures { result ≡ start_by k j power }
{
    match power {
        Some(i) => power_role(k, i, false),
        None => rest(j, k as u16),
    }
}

/// The state of an agent of variable j at the start.
fn start(k: u32, j: u16, coef: i64) -> Role
    requires { k ≤ RANGE_LIMIT }
    ensures { result ≡ start_of k j coef }
{
    if coef < 0 {
        Role::Debtor(j)
    } else if coef == 0 {
        Role::Nothing(false)
    } else {
        start_with(k, j, power_of(k, coef as u64))
    }
}

/// The start states of the variables.
fn inputs(alloc: Global, coefs: &[i64], k: u32) -> Result<Vec<u16>, NoMemory>
    requires range { HasRange coefs.now k }
    requires few { length (all_roles coefs.now k) ≤ STATE_LIMIT }
    ensures { IfOk result (λ inputs. inputs.items ≡ powers_inputs coefs.now k) }
{
    let mut inputs = Vec::new(alloc);
    for j in 0..coefs.len() as u16 {
        inputs.push(place_in(coefs, k, start(k, j, coefs[usize::from(j)])))?;
    }
    Ok(inputs)
}

/// The hub that there is at the start.
fn hub(bound: i64) -> Role
    ensures { result ≡ hub_of bound }
{
    if bound > 0 { Role::Low } else { Role::High }
}

/// What the hub lacks to be worth minus the bound.
fn lack(k: u32, bound: i64) -> u64
    requires range { k ≤ RANGE_LIMIT }
    requires below { bound ≤ℤ pos (2 ^ k) }
    ensures { result ≡ lacking k bound }
{
    if bound > 0 {
        two_to(k) - bound as u64
    } else {
        bound.unsigned_abs()
    }
}

fn bit(n: u64, i: u16) -> Role
    requires { i ≤ RANGE_LIMIT }
    ensures { result ≡ bit_role n i }
{
    if is_set(n, u32::from(i)) {
        Role::Piece(i, false)
    } else {
        Role::Nothing(false)
    }
}

/// The places of the bits of what the hub lacks.
fn bits(alloc: Global, coefs: &[i64], k: u32, n: u64) -> Result<Vec<u16>, NoMemory>
    requires range { HasRange coefs.now k }
    requires few { length (all_roles coefs.now k) ≤ STATE_LIMIT }
    ensures { IfOk result (λ places.
        places.items ≡ map (λ i. place_of coefs.now k (bit_role n i)) (range_with_len 0 k)) }
{
    let mut places = Vec::new(alloc);
    for i in 0..k as u16 {
        places.push(place_in(coefs, k, bit(n, i)))?;
    }
    Ok(places)
}

/// The places of the helpers without the spare ones.
fn own_helpers(alloc: Global, coefs: &[i64], bound: i64, k: u32) -> Result<Vec<u16>, NoMemory>
    requires range { HasRange coefs.now k }
    requires few { length (all_roles coefs.now k) ≤ STATE_LIMIT }
    requires below { bound ≤ℤ pos (2 ^ k) }
    ensures { IfOk result (λ places. places.items ≡ map (place_of coefs.now k) (helper_roles bound k)) }
{
    let hub = place_in(coefs, k, hub(bound));
    let nothing = place_in(coefs, k, Role::Nothing(false));
    let mut places = Vec::from_slice(alloc, &[hub, nothing])?;
    let bits = bits(alloc, coefs, k, lack(k, bound))?;
    places.extend_from_slice(bits.as_slice())?;
    Ok(places)
}

/// The places of all helpers.
fn helpers(
    alloc: Global,
    coefs: &[i64],
    bound: i64,
    k: u32,
    spare: u32,
) -> Result<Vec<u16>, NoMemory>
    requires range { HasRange coefs.now k }
    requires few { length (all_roles coefs.now k) ≤ STATE_LIMIT }
    requires below { bound ≤ℤ pos (2 ^ k) }
    ensures { IfOk result (λ places. places.items ≡ map (place_of coefs.now k) (all_helper_roles bound k spare)) }
{
    let nothing = place_in(coefs, k, Role::Nothing(false));
    let mut places = own_helpers(alloc, coefs, bound, k)?;
    let more = vec![in alloc; nothing; spare as usize]?;
    places.extend_from_slice(more.as_slice())?;
    Ok(places)
}

/// The leaf of `Less` with these coefficients and this bound, for the range 2^k, with this many spare helpers.
pub fn powers_leaf(
    alloc: Global,
    coefs: &[i64],
    bound: i64,
    k: u32,
    spare: u32,
) -> Result<Leaf, NoMemory>
    requires range { IsPowers coefs.now bound k }
    requires room { HasRoom k spare }
    ensures { IfOk result (IsDefined (powers_leaf_of coefs.now bound k spare)) }
{
    let roles = roles(alloc, coefs, k)?;
    let list = roles.as_slice();
    let names = names(alloc, list.len() as u16)?;
    let moves = List::from_vec(moves(alloc, coefs, k, list)?);
    let inputs = List::from_vec(inputs(alloc, coefs, k)?);
    let outputs = List::from_vec(outputs(alloc, list)?);
    let helpers = List::from_vec(helpers(alloc, coefs, bound, k, spare)?);
    Leaf::of_valid(alloc, names, moves, inputs, outputs, helpers)
}
