//! The operands of a combination in postfix, without allocation.

ghost use Rattle.std.specs.Prelude.{◌≡◌, ◌<◌, ◌∷◌, [], length, Some, None, MatchOption};

use pop_leaf::ITEM_LIMIT;
use std::marker::Model;

/// A stack of operands. Contracts see the list of them, the newest first.
#[derive(Drop)]
pub(crate) struct Operands<T> {
    items: [T; ITEM_LIMIT],
    count: usize,
}

impl<T> Model for Operands<T> {
    ghost use Rattle.std.specs.Prelude.{◌≡◌, List, ◌≤◌, length, take, reverse};
    ghost use Rattle.std.specs.Coded.{coded_list};
    ghost use Rattle.pop_leaf.specs.declared.limits.TheConstants.{ITEM_LIMIT};

    ghost Value = { List T };

    ghost coded = { coded_list T.code };

    ghost view = { λ o. reverse (take o.count o.items) };

    ghost invariant = { λ o. (o.count ≤ ITEM_LIMIT) × (length o.items ≡ ITEM_LIMIT) };
}

impl<T: Copy> Operands<T> {
    /// No operands. The blank is never seen.
    pub(crate) fn new(blank: T) -> Operands<T>
        ensures { result ≡ [] }
    {
        Operands {
            items: [blank; ITEM_LIMIT],
            count: 0,
        }
    }

    pub(crate) fn len(&self) -> usize
        ensures { result ≡ length self.now }
    {
        self.count
    }

    pub(crate) fn push(&mut self, operand: T)
        requires { length self.old < ITEM_LIMIT }
        ensures { self.new ≡ operand ∷ self.old }
    {
        self.items[self.count] = operand;
        self.count += 1;
    }

    pub(crate) fn pop(&mut self) -> Option<T>
        ensures { MatchOption result ((self.old ≡ []) × (self.new ≡ [])) (λ operand. self.old ≡ operand ∷ self.new) }
    {
        if self.count == 0 {
            return None;
        }
        self.count -= 1;
        Some(self.items[self.count])
    }
}
