//! The terms of a row that is being written.

ghost use Rattle.std.specs.Prelude.{◌≡◌, ◌++◌, OnOk};
ghost use Rattle.cert_base.specs.Parts.{term_of};

use crate::fact::{Row, Term};
use pop_io::{List, NoMemory};
use std::alloc::Global;
use std::marker::Model;

/// Terms in the order of their variables. Those that are 0 are left out.
#[derive(Drop)]
pub(crate) struct Terms {
    items: Vec<Term>,
}

impl Model for Terms {
    ghost use Rattle.std.specs.Prelude.{List as Items};
    ghost use Rattle.cert_base.specs.declared.fact.Term.{Term};

    ghost Value = { Items Term };

    ghost view = { λ t. t.items.items };
}

impl Terms {
    ghost use Rattle.std.specs.Prelude.{[]};

    pub(crate) fn new(alloc: Global) -> Terms
        ensures { result ≡ [] }
    {
        Terms {
            items: Vec::new(alloc),
        }
    }

    /// Adds a variable with its coefficient.
    pub(crate) fn push(&mut self, at: u32, by: i64) -> Result<(), NoMemory>
        ensures { OnOk result (self.new ≡ self.old ++ term_of at by) }
    {
        if by != 0 {
            self.items.push(Term { at, by })?;
        }
        Ok(())
    }

    pub(crate) fn into_row(self, constant: i64) -> Row
        ensures { result ≡ record { terms = self; constant = constant } }
    {
        let Terms { items } = self;
        Row {
            terms: List::from_vec(items),
            constant,
        }
    }
}
