//! The flow facts of a leaf, in one walk over its moves.

ghost use Rattle.std.specs.Prelude.{◌≡◌, ◌<◌, ◌+◌, length, map, IfOk, OnOk, pos, []};
ghost use Rattle.std.specs.List.{zip};
ghost use Rattle.pop_leaf.specs.LeafModel.{IsLeaf, times_in_pair};
ghost use Rattle.cert_base.specs.FactsAndCases.{flow, states_of, helpers_starting};
ghost use Rattle.cert_base.specs.Parts.{change_at, input_terms_from, flow_terms};
ghost use Rattle.cert_base.specs.Parts.{flow_rows_after, entered_rows};
ghost use Rattle.cert_base.specs.declared.fact.Fact.TheVariants.{Eq};

use crate::fact::Fact;
use crate::helpers::helpers_in;
use crate::terms::Terms;
use crate::variables::{variable_of_input, variable_of_move, variable_of_state};
use pop_io::NoMemory;
use pop_leaf::{Leaf, Move};
use std::alloc::Global;

/// The flow fact of each state, in their order.
pub fn flow_facts(alloc: Global, leaf: &Leaf) -> Result<Vec<Fact>, NoMemory>
    ensures facts { IfOk result (λ facts. facts.items ≡ map (flow leaf.now) (states_of leaf.now)) }
    ensures formed { IsLeaf leaf.now }
{
    facts_of(alloc, leaf, flow_rows(alloc, leaf)?)
}

/// The facts of the states' rows, with the helpers that are in each state.
fn facts_of(alloc: Global, leaf: &Leaf, rows: Vec<Terms>) -> Result<Vec<Fact>, NoMemory>
    ensures { IfOk result (λ facts. facts.items
        ≡ map (λ row. Eq (record { terms = row.0; constant = pos (helpers_starting leaf.now row.1) }))
        (zip rows.items (states_of leaf.now))) }
{
    let facts = rows
        .into_iter()
        .zip(0..leaf.state_count())
        .map(|(terms, q)| Fact::Eq(terms.into_row(i64::from(helpers_in(leaf, q)))))
        .collect(alloc)?;
    Ok(facts)
}

/// The terms of each state's flow fact.
fn flow_rows(alloc: Global, leaf: &Leaf) -> Result<Vec<Terms>, NoMemory>
    ensures rows { IfOk result (λ rows. rows.items ≡ flow_rows_after leaf.now (length leaf.now.moves)) }
    ensures formed { IsLeaf leaf.now }
{
    let mut rows = start_rows(alloc, leaf)?;
    for t in 0..leaf.move_count() {
        enter_move(&mut rows, leaf, t)?;
    }
    Ok(rows)
}

/// The same without the moves.
fn start_rows(alloc: Global, leaf: &Leaf) -> Result<Vec<Terms>, NoMemory>
    ensures rows { IfOk result (λ rows. rows.items ≡ flow_rows_after leaf.now 0) }
    ensures formed { IsLeaf leaf.now }
{
    let mut rows = Vec::new(alloc);
    for q in 0..leaf.state_count() {
        rows.push(start_row(alloc, leaf, q)?)?;
    }
    Ok(rows)
}

fn start_row(alloc: Global, leaf: &Leaf, q: u16) -> Result<Terms, NoMemory>
    requires { q < length leaf.now.states }
    ensures { IfOk result (λ terms. terms ≡ flow_terms leaf.now 0 q) }
{
    let mut terms = input_terms(alloc, leaf, q)?;
    terms.push(variable_of_state(leaf, q), -1)?;
    Ok(terms)
}

fn input_terms(alloc: Global, leaf: &Leaf, q: u16) -> Result<Terms, NoMemory>
    ensures { IfOk result (λ terms. terms ≡ input_terms_from leaf.now q 0 leaf.now.inputs) }
{
    let mut terms = Terms::new(alloc);
    for i in 0..leaf.input_count() {
        terms.push(variable_of_input(i), i64::from(leaf.input(i) == q))?;
    }
    Ok(terms)
}

/// Enters what a move changes into the rows of its states, each of them once.
fn enter_move(rows: &mut Vec<Terms>, leaf: &Leaf, t: u32) -> Result<(), NoMemory>
    requires in_range { t < length leaf.now.moves }
    requires rows { rows.old.items ≡ flow_rows_after leaf.now t }
    ensures { OnOk result (rows.new.items ≡ flow_rows_after leaf.now (t + 1)) }
{
    let taken = leaf.move_at(t);
    let Move { p, q, r, s } = taken;
    let variable = variable_of_move(leaf, t);
    enter(rows, p, &[], taken, variable)?;
    enter(rows, q, &[p], taken, variable)?;
    enter(rows, r, &[q, p], taken, variable)?;
    enter(rows, s, &[r, q, p], taken, variable)?;
    Ok(())
}

/// Enters what a move changes into the row of a state, unless it was entered before.
fn enter(
    rows: &mut Vec<Terms>,
    state: u16,
    before: &[u16],
    taken: Move,
    variable: u32,
) -> Result<(), NoMemory>
    requires { state < length rows.old.items }
    ensures entered { OnOk result (rows.new.items ≡ entered_rows rows.old.items state before.now taken variable) }
    ensures len { OnOk result (length rows.new.items ≡ length rows.old.items) }
{
    if before.contains(&state) {
        return Ok(());
    }
    rows[usize::from(state)].push(variable, change(taken, state))
}

/// What a move brings to a state, less what it takes from it.
fn change(taken: Move, state: u16) -> i64
    ensures { result ≡ change_at state taken }
{
    times_in(taken.r, taken.s, state) - times_in(taken.p, taken.q, state)
}

fn times_in(x: u16, y: u16, z: u16) -> i64
    ensures { result ≡ pos (times_in_pair x y z) }
{
    i64::from(x == z) + i64::from(y == z)
}
