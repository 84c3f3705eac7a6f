//! The parts of a JSON value, each with the path that a fault names.

ghost use Rattle.std.specs.Prelude.{◌≡◌, ◌≤◌, length, map, nat_abs, IfOk};
ghost use Rattle.serde_json.specs.View.{view};
ghost use Rattle.base_json.specs.Faults.{GivesRead};
ghost use Rattle.base_json.specs.Paths.{path_text};
ghost use Rattle.base_json.specs.Shapes.{object_at, member_at, list_at, number_at, integer_at, ascending_at};
ghost use Rattle.base_json.specs.Shapes.{comes_after, text_at, truth_at};

use crate::fault::{FormatFault, Why, broken};
use crate::path::Path;
use serde_json::Value;
use std::alloc::Global;

/// Checks that the value is an object.
#[tactic(auto, unfolding(crate::specs::Shapes::object_at))]
pub fn object_of(alloc: Global, path: &Path<'_>, value: &Value) -> Result<(), FormatFault>
    ensures { GivesRead (λ u. u) result (object_at (path_text path.now) (view value.now)) }
{
    if !value.is_object() {
        return Err(broken(alloc, path, Why::Kind));
    }
    Ok(())
}

/// A member by its name. The path is that of the object.
pub fn member_of<'v>(
    alloc: Global,
    path: &Path<'_>,
    name: &str,
    value: &'v Value,
) -> Result<&'v Value, FormatFault>
    ensures { GivesRead (λ v. view v.now) result (member_at (path_text path.now) name.now (view value.now)) }
{
    match value.get(name) {
        Some(member) => Ok(member),
        None => Err(broken(alloc, &Path::Member(path, name), Why::Kind)),
    }
}

/// A list with `least` to `most` items.
#[tactic(auto, using(crate::proofs::Lists::listed_is), unfolding(crate::specs::Shapes::list_at))]
pub fn list_of<'v>(
    alloc: Global,
    path: &Path<'_>,
    least: usize,
    most: usize,
    value: &'v Value,
) -> Result<&'v Vec<Value>, FormatFault>
    ensures list { GivesRead (λ v. map view v.now.items) result
        (list_at (path_text path.now) least most (view value.now)) }
    ensures count { IfOk result (λ v. (least ≤ length v.now.items) × (length v.now.items ≤ most)) }
{
    let Some(list) = value.as_array() else {
        return Err(broken(alloc, path, Why::Kind));
    };
    if list.len() < least || most < list.len() {
        return Err(broken(alloc, path, Why::Range));
    }
    Ok(list)
}

/// A whole number from `least` to `most`.
#[tactic(auto, unfolding(crate::specs::Shapes::number_at))]
pub fn number_of(
    alloc: Global,
    path: &Path<'_>,
    least: u32,
    most: u32,
    value: &Value,
) -> Result<u32, FormatFault>
    ensures number { GivesRead (λ n. n) result (number_at (path_text path.now) least most (view value.now)) }
    ensures within { IfOk result (λ n. (least ≤ n) × (n ≤ most)) }
{
    let Some(number) = value.as_i64() else {
        return Err(broken(alloc, path, Why::Kind));
    };
    if number < i64::from(least) || i64::from(most) < number {
        return Err(broken(alloc, path, Why::Range));
    }
    Ok(number as u32)
}

/// A whole number of at most this size, whatever its sign.
#[tactic(auto, unfolding(crate::specs::Shapes::integer_at))]
pub fn integer_of(
    alloc: Global,
    path: &Path<'_>,
    most: u64,
    value: &Value,
) -> Result<i64, FormatFault>
    ensures number { GivesRead (λ z. z) result (integer_at (path_text path.now) most (view value.now)) }
    ensures size { IfOk result (λ z. nat_abs z ≤ most) }
{
    let Some(number) = value.as_i64() else {
        return Err(broken(alloc, path, Why::Kind));
    };
    if most < number.unsigned_abs() {
        return Err(broken(alloc, path, Why::Range));
    }
    Ok(number)
}

fn follows(before: Option<u32>, number: u32) -> bool
    ensures { result ≡ comes_after before number }
{
    match before {
        Some(before) => before < number,
        None => true,
    }
}

/// A whole number up to `most` that is greater than the one before it, if there is one.
#[tactic(auto, unfolding(crate::specs::Shapes::ascending_at))]
pub fn ascending_of(
    alloc: Global,
    path: &Path<'_>,
    most: u32,
    before: Option<u32>,
    value: &Value,
) -> Result<u32, FormatFault>
    ensures number { GivesRead (λ n. n) result (ascending_at (path_text path.now) most before (view value.now)) }
    ensures within { IfOk result (λ n. n ≤ most) }
{
    let number = number_of(alloc, path, 0, most, value)?;
    if !follows(before, number) {
        return Err(broken(alloc, path, Why::Range));
    }
    Ok(number)
}

/// A text.
#[tactic(auto, unfolding(crate::specs::Shapes::text_at))]
pub fn text_of<'v>(alloc: Global, path: &Path<'_>, value: &'v Value) -> Result<&'v str, FormatFault>
    ensures { GivesRead (λ s. s.now) result (text_at (path_text path.now) (view value.now)) }
{
    match value.as_str() {
        Some(text) => Ok(text),
        None => Err(broken(alloc, path, Why::Kind)),
    }
}

/// `true` or `false`.
#[tactic(auto, unfolding(crate::specs::Shapes::truth_at))]
pub fn truth_of(alloc: Global, path: &Path<'_>, value: &Value) -> Result<bool, FormatFault>
    ensures { GivesRead (λ b. b) result (truth_at (path_text path.now) (view value.now)) }
{
    match value.as_bool() {
        Some(truth) => Ok(truth),
        None => Err(broken(alloc, path, Why::Kind)),
    }
}
