//! The crowd lines.

ghost use Rattle.std.specs.Prelude.{◌≡◌, [], ◌∷◌, ◌++◌, nat_lt, if◌then◌else◌, IfOk, OnOk};
ghost use Rattle.std.specs.List.{join_with_byte};
ghost use Rattle.pop_leaf.specs.NetModel.{IsTuple, HasStates};
ghost use Rattle.pop_net.specs.Lanes.{tuple_of, crowd_of, IsValid, AreValid};
ghost use Rattle.pop_crowd.specs.Tally.{tuple_counts, names_of, slash, crowd_line, crowd_lines};
ghost use Rattle.pop_crowd.specs.Shown.{shown};

use itoa::Buffer;
use pop_io::NoMemory;
use pop_net::{Net, Word};
use std::alloc::Global;
use std::collections::BTreeMap;

pub(crate) fn lines_of(alloc: Global, net: &Net, words: &[Word]) -> Result<Vec<u8>, NoMemory>
    requires { AreValid net.now words.now }
    ensures { IfOk result (λ text. text.items ≡ crowd_lines net.now (crowd_of net.now words.now)) }
{
    let mut text = Vec::new(alloc);
    let mut left = counts(alloc, net, words)?;
    while let Some((tuple, count)) = left.pop_first() {
        push_line(&mut text, net, tuple.as_slice(), count)?;
    }
    Ok(text)
}

/// How many agents have each tuple.
fn counts(alloc: Global, net: &Net, words: &[Word]) -> Result<BTreeMap<Vec<u16>, u64>, NoMemory>
    requires { AreValid net.now words.now }
    ensures { IfOk result (λ map. shown map.entries ≡ tuple_counts (crowd_of net.now words.now)) }
{
    let mut counts = BTreeMap::new(alloc);
    for word in words {
        let tuple = states(alloc, net, *word)?;
        let had = counts.get(&tuple).copied().unwrap_or(0);
        counts.insert(tuple, had + 1)?;
    }
    Ok(counts)
}

/// The states of a word, leaf 0 first.
fn states(alloc: Global, net: &Net, word: Word) -> Result<Vec<u16>, NoMemory>
    requires { IsValid net.now word }
    ensures { IfOk result (λ tuple. tuple.items ≡ tuple_of net.now word) }
{
    let mut tuple = Vec::new(alloc);
    for leaf in 0..net.leaf_count() {
        tuple.push(net.lane(word, leaf))?;
    }
    Ok(tuple)
}

fn push_line(text: &mut Vec<u8>, net: &Net, tuple: &[u16], count: u64) -> Result<(), NoMemory>
    requires whole { IsTuple net.now tuple.now }
    requires states { HasStates net.now tuple.now }
    ensures { OnOk result (text.new.items ≡ text.old.items ++ crowd_line net.now tuple.now count) }
{
    push_names(text, net, tuple)?;
    text.push(b' ')?;
    text.extend_from_slice(Buffer::new().format(count).as_bytes())?;
    text.push(b'\n')?;
    Ok(())
}

/// Adds the names of a tuple's states, joined by `/`.
fn push_names(text: &mut Vec<u8>, net: &Net, tuple: &[u16]) -> Result<(), NoMemory>
    requires whole { IsTuple net.now tuple.now }
    requires states { HasStates net.now tuple.now }
    ensures { OnOk result
        (text.new.items ≡ text.old.items ++ join_with_byte slash (names_of net.now.leaves tuple.now)) }
{
    for i in 0..net.leaf_count() {
        push_separator(text, i)?;
        let name = net.leaf(i).name(tuple[i as usize]);
        text.extend_from_slice(name.as_bytes())?;
    }
    Ok(())
}

/// Adds `/` before every name but the first.
fn push_separator(text: &mut Vec<u8>, i: u8) -> Result<(), NoMemory>
    ensures { OnOk result (text.new.items ≡ text.old.items ++ (if nat_lt 0 i then slash ∷ [] else [])) }
{
    if 0 < i {
        text.push(b'/')?;
    }
    Ok(())
}
