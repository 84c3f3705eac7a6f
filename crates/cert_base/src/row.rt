//! Rows over some of a leaf's variables.

use crate::fact::{Row, Term};
use crate::terms::Terms;
use crate::variables::{variable_of_input, variable_of_move, variable_of_state};
use pop_io::{List, NoMemory};
use pop_leaf::Leaf;
use std::alloc::Global;

impl Row {
    ghost use Rattle.std.specs.Prelude.{◌≡◌, ◌+◌, ◌≤◌, length, IfOk};
    ghost use Rattle.cert_base.specs.declared.limits.TheConstants.{INDEX_COUNT};
    ghost use Rattle.cert_base.specs.Rows.{terms_from, single_row, constant_row, input_row, state_row, move_row};

    /// One variable, times its coefficient, plus a constant.
    pub fn single(alloc: Global, variable: u32, by: i64, constant: i64) -> Result<Row, NoMemory>
        ensures { IfOk result (λ row. row ≡ single_row variable by constant) }
    {
        let mut terms = Vec::with_capacity(alloc, 1)?;
        terms.push_reserved(Term { at: variable, by });
        Ok(Row {
            terms: List::from_vec(terms),
            constant,
        })
    }

    /// A constant alone. Allocates nothing.
    pub fn constant(alloc: Global, constant: i64) -> Row
        ensures { result ≡ constant_row constant }
    {
        Row {
            terms: List::from_vec(Vec::new(alloc)),
            constant,
        }
    }

    /// The variables from `first` on, each times its coefficient, plus a constant.
    pub fn dense(alloc: Global, first: u32, coefs: &[i64], constant: i64) -> Result<Row, NoMemory>
        requires { first + length coefs.now ≤ INDEX_COUNT }
        ensures { IfOk result (λ row. row ≡ record { terms = terms_from first coefs.now; constant = constant }) }
    {
        let mut terms = Terms::new(alloc);
        for (i, coef) in coefs.iter().enumerate() {
            terms.push(first + i as u32, *coef)?;
        }
        Ok(terms.into_row(constant))
    }

    /// How often each input was given, each times its coefficient, plus a constant.
    pub fn over_inputs(alloc: Global, coefs: &[i64], constant: i64) -> Result<Row, NoMemory>
        requires { length coefs.now ≤ INDEX_COUNT }
        ensures { IfOk result (λ row. row ≡ input_row coefs.now constant) }
    {
        Row::dense(alloc, variable_of_input(0), coefs, constant)
    }

    /// The counts of the states at the end, each times its coefficient, plus a constant.
    pub fn over_states(
        alloc: Global,
        leaf: &Leaf,
        coefs: &[i64],
        constant: i64,
    ) -> Result<Row, NoMemory>
        requires { length coefs.now ≡ length leaf.now.states }
        ensures { IfOk result (λ row. row ≡ state_row leaf.now coefs.now constant) }
    {
        Row::dense(alloc, variable_of_state(leaf, 0), coefs, constant)
    }

    /// How often each move was taken, each times its coefficient, plus a constant.
    pub fn over_moves(
        alloc: Global,
        leaf: &Leaf,
        coefs: &[i64],
        constant: i64,
    ) -> Result<Row, NoMemory>
        requires { length coefs.now ≡ length leaf.now.moves }
        ensures { IfOk result (λ row. row ≡ move_row leaf.now coefs.now constant) }
    {
        Row::dense(alloc, variable_of_move(leaf, 0), coefs, constant)
    }

    /// An equal row.
    pub fn copy(&self, alloc: Global) -> Result<Row, NoMemory>
        ensures { IfOk result (λ row. row ≡ self.now) }
    {
        Ok(Row {
            terms: self.terms.copy(alloc)?,
            constant: self.constant,
        })
    }
}
