//! Writing a net as a JSON value.

ghost use Rattle.std.specs.Prelude.{◌≡◌, [], codes, map, if◌then◌else◌, IfOk, Ok};
ghost use Rattle.serde_json.specs.Data.{member, no_members};
ghost use Rattle.serde_json.specs.View.{view, members_view};
ghost use Rattle.pop_leaf.specs.NetModel.{IsNet};
ghost use Rattle.net_json.specs.Examined.{net_at};
ghost use Rattle.net_json.specs.NetFile.{IsNetFile};
ghost use Rattle.net_json.specs.Written.{number_data, list_data, texts_data, numbers_data, truths_data, move_data};
ghost use Rattle.net_json.specs.Written.{item_data};
ghost use Rattle.net_json.specs.Written.{leaf_data, format_of, is_helped, net_data};

use crate::format::{HELPER_FORMAT, PLAIN_FORMAT};
use base_json::put_made;
use pop_io::{NoMemory, Text};
use pop_net::{Item, Leaf, Move, Net};
use serde_json::{Map, Value, put};
use std::alloc::{AllocError, Global};

fn texts_value(alloc: Global, texts: &[Text]) -> Result<Value, AllocError>
    ensures { IfOk result (λ v. view v ≡ texts_data texts.now) }
{
    let mut list = Vec::new(alloc);
    for text in texts {
        list.push(Value::try_from_str(alloc, text.as_str())?)?;
    }
    Ok(Value::Array(list))
}

fn states_value(alloc: Global, leaf: &Leaf) -> Result<Value, AllocError>
    ensures { IfOk result (λ v. view v ≡ texts_data leaf.now.states) }
{
    let mut list = Vec::new(alloc);
    for state in 0..leaf.state_count() {
        list.push(Value::try_from_str(alloc, leaf.name(state))?)?;
    }
    Ok(Value::Array(list))
}

fn numbers_value(alloc: Global, numbers: &[u16]) -> Result<Value, AllocError>
    ensures { IfOk result (λ v. view v ≡ numbers_data numbers.now) }
{
    let mut list = Vec::new(alloc);
    for number in numbers {
        list.push(Value::from(*number))?;
    }
    Ok(Value::Array(list))
}

fn move_value(alloc: Global, t: Move) -> Result<Value, AllocError>
    ensures { IfOk result (λ v. view v ≡ move_data t) }
{
    numbers_value(alloc, &[t.p, t.q, t.r, t.s])
}

fn moves_value(alloc: Global, leaf: &Leaf) -> Result<Value, AllocError>
    ensures { IfOk result (λ v. view v ≡ list_data (map move_data leaf.now.moves)) }
{
    let mut list = Vec::new(alloc);
    for t in 0..leaf.move_count() {
        list.push(move_value(alloc, leaf.move_at(t))?)?;
    }
    Ok(Value::Array(list))
}

fn inputs_value(alloc: Global, leaf: &Leaf) -> Result<Value, AllocError>
    ensures { IfOk result (λ v. view v ≡ numbers_data leaf.now.inputs) }
{
    let mut list = Vec::new(alloc);
    for variable in 0..leaf.input_count() {
        list.push(Value::from(leaf.input(variable)))?;
    }
    Ok(Value::Array(list))
}

fn helpers_value(alloc: Global, leaf: &Leaf) -> Result<Value, AllocError>
    ensures { IfOk result (λ v. view v ≡ numbers_data leaf.now.helpers) }
{
    let mut list = Vec::new(alloc);
    for helper in 0..leaf.helper_count() {
        list.push(Value::from(leaf.helper(helper)))?;
    }
    Ok(Value::Array(list))
}

fn outputs_value(alloc: Global, leaf: &Leaf) -> Result<Value, AllocError>
    ensures { IfOk result (λ v. view v ≡ truths_data leaf.now.outputs) }
{
    let mut list = Vec::new(alloc);
    for state in 0..leaf.state_count() {
        list.push(Value::from(leaf.output(state)))?;
    }
    Ok(Value::Array(list))
}

/// The helpers of a leaf as a member, if the file has some.
fn helper_members(
    alloc: Global,
    leaf: &Leaf,
    helped: bool,
) -> Result<Map<String, Value>, AllocError>
    ensures { IfOk result (λ ms. members_view ms.entries
        ≡ (if helped then member (codes "helpers") (numbers_data leaf.now.helpers) no_members else no_members)) }
{
    let mut members = Map::new(alloc);
    if helped {
        put_made(&mut members, alloc, "helpers", helpers_value(alloc, leaf))?;
    }
    Ok(members)
}

/// A leaf, with its helpers if the file has some.
fn leaf_value(alloc: Global, leaf: &Leaf, helped: bool) -> Result<Value, AllocError>
    ensures { IfOk result (λ v. view v ≡ leaf_data helped leaf.now) }
{
    let mut members = helper_members(alloc, leaf, helped)?;
    put_made(&mut members, alloc, "input", inputs_value(alloc, leaf))?;
    put_made(&mut members, alloc, "moves", moves_value(alloc, leaf))?;
    put_made(&mut members, alloc, "output", outputs_value(alloc, leaf))?;
    put_made(&mut members, alloc, "states", states_value(alloc, leaf))?;
    Ok(Value::Object(members))
}

fn leaves_value(alloc: Global, net: &Net, helped: bool) -> Result<Value, AllocError>
    ensures { IfOk result (λ v. view v ≡ list_data (map (leaf_data helped) net.now.leaves)) }
{
    let mut list = Vec::new(alloc);
    for i in 0..net.leaf_count() {
        list.push(leaf_value(alloc, net.leaf(i), helped)?)?;
    }
    Ok(Value::Array(list))
}

fn item_value(alloc: Global, item: Item) -> Result<Value, AllocError>
    ensures { IfOk result (λ v. view v ≡ item_data item) }
{
    match item {
        Item::Leaf(leaf) => Ok(Value::from(leaf)),
        Item::Not => Value::try_from_str(alloc, "not"),
        Item::And => Value::try_from_str(alloc, "and"),
        Item::Or => Value::try_from_str(alloc, "or"),
    }
}

fn combine_value(alloc: Global, net: &Net) -> Result<Value, AllocError>
    ensures { IfOk result (λ v. view v ≡ list_data (map item_data net.now.combine)) }
{
    let mut list = Vec::new(alloc);
    for i in 0..net.item_count() {
        list.push(item_value(alloc, net.item(i))?)?;
    }
    Ok(Value::Array(list))
}

/// The number of the format of nets with or without helpers.
fn format_value(helped: bool) -> Value
    ensures { view result ≡ number_data (format_of helped) }
{
    Value::from(if helped { HELPER_FORMAT } else { PLAIN_FORMAT })
}

/// The net's members, in the format with or without helpers.
fn net_value(alloc: Global, net: &Net, helped: bool) -> Result<Value, AllocError>
    requires { helped ≡ is_helped net.now }
    ensures value { IfOk result (λ v. view v ≡ net_data net.now) }
    ensures formed { IfOk result (λ _. IsNet net.now) }
{
    let mut members = Map::new(alloc);
    let vars = net.var_names().as_slice();
    put_made(&mut members, alloc, "combine", combine_value(alloc, net))?;
    put(&mut members, alloc, "format", format_value(helped))?;
    put_made(
        &mut members,
        alloc,
        "leaves",
        leaves_value(alloc, net, helped),
    )?;
    put_made(&mut members, alloc, "vars", texts_value(alloc, vars))?;
    Ok(Value::Object(members))
}

/// The net as a JSON value with only the named members, in the byte order of their names: in format 1 without
/// helpers, and in format 2 with some.
pub fn write_net(alloc: Global, net: &Net) -> Result<Value, NoMemory>
    ensures value { IfOk result (λ v. view v ≡ net_data net.now) }
    ensures file { IfOk result (λ v. IsNetFile net.now (view v)) }
    // Reading it gives an equal net.
    ensures again { IfOk result (λ v. net_at [] (view v) ≡ Ok net.now) }
{
    let helped = 0 < net.helper_count();
    let value = net_value(alloc, net, helped)?;
    Ok(value)
}
