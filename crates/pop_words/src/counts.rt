//! The crowd line.

ghost use Rattle.std.specs.Prelude.{◌≡◌, ◌≤◌, ◌+◌, true, None, Some, length, map};
ghost use Rattle.std.specs.Prelude.{unwrap_or, IfOk, MatchBool, false};
ghost use Rattle.std.specs.Option.{option_copied};
ghost use Rattle.pop_words.specs.Vars.{AreVariables};
ghost use Rattle.pop_words.specs.Counts.{with_word, with_words, counts_of, Counted};
ghost use Rattle.pop_words.specs.WordsBehind.{words_behind, without_count};

use base_lines::{cut, small_number};
use pop_io::{Failure, List, Text, VARIABLE_LIMIT, place_of};
use std::alloc::{AllocError, Global};

/// The first word of a crowd line that breaks its form, counted from 0.
#[derive(Clone, Copy, PartialEq, Eq)]
pub struct BadWord(pub u32);

/// The counts of a crowd line, one per variable in the order of `names`.
#[tactic(auto, unfolding(crate::specs::Counts::counts_of))]
pub fn read_counts(
    alloc: Global,
    line: &[u8],
    names: &List<Text>,
) -> Result<List<u64>, Failure<BadWord>>
    requires names { AreVariables names.now }
    ensures counts { Counted result (counts_of names.now line.now) }
    ensures len { IfOk result (λ counts. length counts ≡ length names.now) }
{
    let (first, rest) = cut(line, b' ');
    if first != b"crowd".as_slice() {
        return Err(Failure::Fault(BadWord(0)));
    }
    let found = counts_behind(alloc, names.as_slice(), rest)?;
    let counts = totals_of(alloc, found.as_slice())?;
    Ok(counts)
}

/// The counts that the words after the first give.
fn counts_behind(
    alloc: Global,
    names: &[Text],
    words: Option<&[u8]>,
) -> Result<List<Option<u64>>, Failure<BadWord>>
    requires few { length names.now ≤ VARIABLE_LIMIT }
    ensures counts { Counted result
        (with_words names.now (map (λ _. None) names.now) 1 (words_behind (option_copied words.entry))) }
    ensures len { IfOk result (λ found. length found ≡ length names.now) }
{
    let mut found = none_of(alloc, names)?;
    let mut rest = words;
    let mut at = 1u32;
    'words: while let Some(bytes) = rest {
        let (word, after) = cut(bytes, b' ');
        if !enter(names, &mut found, word) {
            return Err(Failure::Fault(BadWord(at)));
        }
        at += 1;
        rest = after;
    }
    Ok(List::from_vec(found))
}

/// Enters a word's count. A bad word changes nothing.
#[tactic(auto, unfolding(crate::specs::Counts::with_word), using(crate::proofs::Once::one_fewer, crate::proofs::Once::split_once_cut, crate::proofs::Once::split_once_whole))]
fn enter(names: &[Text], found: &mut Vec<Option<u64>>, word: &[u8]) -> bool
    requires { length found.old.items ≡ length names.now }
    ensures word { MatchBool result (with_word names.now found.old.items word.now ≡ Some found.new.items)
        (with_word names.now found.old.items word.now ≡ None) }
    ensures unchanged { result ≡ false → found.new.items ≡ found.old.items }
    ensures fewer { result ≡ true → without_count found.new.items + 1 ≡ without_count found.old.items }
    ensures len { length found.new.items ≡ length found.old.items }
{
    let (name, Some(count)) = cut(word, b'=') else {
        return false;
    };
    let Some(variable) = place_of(names, name) else {
        return false;
    };
    let Some(count) = small_number(count) else {
        return false;
    };
    if found[variable].is_some() {
        return false;
    }
    found[variable] = Some(count);
    true
}

fn none_of(alloc: Global, names: &[Text]) -> Result<Vec<Option<u64>>, AllocError>
    ensures { IfOk result (λ v. v.items ≡ map (λ _. None) names.now) }
{
    let mut found = Vec::new(alloc);
    for _name in names {
        found.push(None)?;
    }
    Ok(found)
}

fn totals_of(alloc: Global, found: &[Option<u64>]) -> Result<List<u64>, AllocError>
    ensures { IfOk result (λ v. v ≡ map (λ o. unwrap_or o 0) found.now) }
{
    let mut counts = Vec::new(alloc);
    for count in found {
        counts.push(count.unwrap_or(0))?;
    }
    Ok(List::from_vec(counts))
}
