//! A combination, read item by item.

ghost use Rattle.std.specs.Prelude.{◌≡◌, ◌<◌, ◌&&◌, [], length, Some};
ghost use Rattle.std.specs.Bool.{OnTrue};
ghost use Rattle.pop_leaf.specs.NetModel.{after_item, depth_operators};
ghost use Rattle.pop_net.specs.NetFaults.{names_below, are_low};

use crate::combination::put_depth;
use crate::operands::Operands;
use pop_leaf::{DEPTH_LIMIT, ITEM_LIMIT, Item};
use std::marker::Model;

/// The trees left open by the items so far. Contracts see their depths, the newest first.
#[derive(Drop)]
pub struct OpenTrees {
    depths: Operands<u8>,
}

impl Model for OpenTrees {
    ghost use Rattle.std.specs.Prelude.{List, ℕ, ◌≤◌, All};
    ghost use Rattle.pop_leaf.specs.declared.limits.TheConstants.{DEPTH_LIMIT};

    ghost Value = { List ℕ };

    ghost view = { λ t. t.depths };

    ghost invariant = { λ t. All (λ d. d ≤ DEPTH_LIMIT) t.depths };
}

impl OpenTrees {
    /// No items read so far. It allocates nothing.
    pub fn new() -> OpenTrees
        ensures { result ≡ [] }
    {
        OpenTrees {
            depths: Operands::new(0),
        }
    }

    /// Takes an item in, unless it names no leaf, finds too few trees, or makes one deeper than `DEPTH_LIMIT`.
    pub fn put(&mut self, leaves: u8, item: Item) -> bool
        requires { length self.old < ITEM_LIMIT }
        ensures good { result ≡ (names_below leaves item && are_low (after_item depth_operators item self.old)) }
        ensures put { OnTrue result (after_item depth_operators item self.old ≡ Some self.new) }
    {
        put_depth(&mut self.depths, leaves, item)
    }

    /// How many trees are open.
    pub fn count(&self) -> usize
        ensures { result ≡ length self.now }
    {
        self.depths.len()
    }
}
