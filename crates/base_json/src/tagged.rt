//! Lists of a fixed length, and lists that begin with a word.

ghost use Rattle.std.specs.Prelude.{map};
ghost use Rattle.serde_json.specs.View.{view};
ghost use Rattle.base_json.specs.Faults.{GivesRead};
ghost use Rattle.base_json.specs.Paths.{path_text};
ghost use Rattle.base_json.specs.Shapes.{items_at, pair_at, word_at, one_after, two_after};

use crate::fault::{FormatFault, Why, broken};
use crate::path::Path;
use crate::shape::text_of;
use serde_json::Value;
use std::alloc::Global;

/// A list of any length.
#[tactic(auto, using(crate::proofs::Lists::listed_is), unfolding(crate::specs::Shapes::items_at))]
pub fn items_of<'v>(
    alloc: Global,
    path: &Path<'_>,
    value: &'v Value,
) -> Result<&'v [Value], FormatFault>
    ensures { GivesRead (λ vs. map view vs.now) result (items_at (path_text path.now) (view value.now)) }
{
    match value.as_array() {
        Some(list) => Ok(list.as_slice()),
        None => Err(broken(alloc, path, Why::Kind)),
    }
}

/// The two items of a list.
#[tactic(auto, unfolding(crate::specs::Shapes::pair_at))]
pub fn pair_of<'v>(
    alloc: Global,
    path: &Path<'_>,
    value: &'v Value,
) -> Result<(&'v Value, &'v Value), FormatFault>
    ensures { GivesRead (λ p. (view p.0.now, view p.1.now)) result (pair_at (path_text path.now) (view value.now)) }
{
    let items = items_of(alloc, path, value)?;
    let [first, second] = items else {
        return Err(broken(alloc, path, Why::Kind));
    };
    Ok((first, second))
}

/// The word that a list begins with. An empty list is of another kind.
#[tactic(auto, unfolding(crate::specs::Shapes::word_at))]
pub fn word_of<'v>(
    alloc: Global,
    path: &Path<'_>,
    items: &'v [Value],
) -> Result<&'v str, FormatFault>
    ensures { GivesRead (λ s. s.now) result (word_at (path_text path.now) (map view items.now)) }
{
    match items {
        [] => Err(broken(alloc, path, Why::Kind)),
        [word, ..] => text_of(alloc, &Path::Item(path, 0), word),
    }
}

/// The item after the word, if it is the only one.
#[tactic(auto, unfolding(crate::specs::Shapes::one_after))]
pub fn only_item<'v>(
    alloc: Global,
    path: &Path<'_>,
    items: &'v [Value],
) -> Result<&'v Value, FormatFault>
    ensures { GivesRead (λ v. view v.now) result (one_after (path_text path.now) (map view items.now)) }
{
    let [_, item] = items else {
        return Err(broken(alloc, path, Why::Kind));
    };
    Ok(item)
}

/// The two items after the word, if there are no others.
#[tactic(auto, unfolding(crate::specs::Shapes::two_after))]
pub fn both_items<'v>(
    alloc: Global,
    path: &Path<'_>,
    items: &'v [Value],
) -> Result<(&'v Value, &'v Value), FormatFault>
    ensures { GivesRead
        (λ p. (view p.0.now, view p.1.now)) result (two_after (path_text path.now) (map view items.now)) }
{
    let [_, first, second] = items else {
        return Err(broken(alloc, path, Why::Kind));
    };
    Ok((first, second))
}
