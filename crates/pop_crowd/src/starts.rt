//! The crowd that counts start with.

ghost use Rattle.std.specs.Prelude.{◌≡◌, ◌*◌, ◌^◌, ◌≤◌, ◌++◌, length, map, IfOk, OnOk, sum, replicate};
ghost use Rattle.std.specs.List.{range_with_len};
ghost use Rattle.pop_leaf.specs.NetModel.{number_of_helpers};
ghost use Rattle.pop_leaf.specs.InputCrowd.{starts_from, start_of, helper_of, input_crowd};
ghost use Rattle.pop_net.specs.Lanes.{crowd_of, AreValid};
ghost use Rattle.pop_crowd.specs.Crowds.{input_size};

use pop_io::{NoMemory, VARIABLE_LIMIT};
use pop_net::{Net, Word};
use std::alloc::Global;

/// How many agents the counts and the helpers make.
pub(crate) fn size(net: &Net, counts: &[u64]) -> u128
    requires { length counts.now ≤ VARIABLE_LIMIT }
    ensures { result ≡ input_size net.now counts.now }
{
    total(counts) + u128::from(net.helper_count())
}

/// The sum of the counts, which are few enough for it to fit.
fn total(counts: &[u64]) -> u128
    requires { length counts.now ≤ VARIABLE_LIMIT }
    ensures sum { result ≡ sum counts.now }
    ensures small { result ≤ VARIABLE_LIMIT * 2 ^ 64 }
{
    let mut sum = 0u128;
    for count in counts {
        sum += u128::from(*count);
    }
    sum
}

/// The words of an input crowd: those of the variables in their order, then the helpers'.
pub(crate) fn input_words(alloc: Global, net: &Net, counts: &[u64]) -> Result<Vec<Word>, NoMemory>
    requires { length counts.now ≡ length net.now.variables }
    ensures start { IfOk result (λ words. crowd_of net.now words.items ≡ input_crowd net.now counts.now) }
    ensures valid { IfOk result (λ words. AreValid net.now words.items) }
    ensures agents { IfOk result (λ words. length words.items ≡ input_size net.now counts.now) }
{
    let mut words = start_words(alloc, net, counts)?;
    push_helpers(&mut words, net)?;
    Ok(words)
}

/// As many words of each variable as its count says.
fn start_words(alloc: Global, net: &Net, counts: &[u64]) -> Result<Vec<Word>, NoMemory>
    requires { length counts.now ≡ length net.now.variables }
    ensures start { IfOk result (λ words. crowd_of net.now words.items ≡ starts_from (start_of net.now) 0 counts.now) }
    ensures valid { IfOk result (λ words. AreValid net.now words.items) }
{
    let mut words = Vec::new(alloc);
    for variable in 0..net.var_count() {
        push_words(&mut words, net.start(variable), counts[variable as usize])?;
    }
    Ok(words)
}

/// The same word, so many times.
fn push_words(words: &mut Vec<Word>, word: Word, count: u64) -> Result<(), NoMemory>
    ensures { OnOk result (words.new.items ≡ words.old.items ++ replicate count word) }
{
    for _turn in 0..count {
        words.push(word)?;
    }
    Ok(())
}

/// Adds the words of the helpers after the others.
fn push_helpers(words: &mut Vec<Word>, net: &Net) -> Result<(), NoMemory>
    requires { AreValid net.now words.old.items }
    ensures helpers { OnOk result (crowd_of net.now words.new.items
        ≡ crowd_of net.now words.old.items ++ map (helper_of net.now) (range_with_len 0 (number_of_helpers net.now))) }
    ensures valid { OnOk result (AreValid net.now words.new.items) }
{
    for helper in 0..net.helper_count() {
        words.push(net.helper(helper))?;
    }
    Ok(())
}
