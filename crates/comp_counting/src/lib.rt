//! What the leaves of flocks share: which atoms they are for, and the nodes that rest on the full state. It stands on
//! `comp_trees`. The layers above use: `flock_power`, `offset_power` and
//! `are_counted` recognize the atoms; `counting_layers`, `full_tree` and `converted_node` give exactly the layer and
//! the nodes.
//!
//! An atom counts its agents if it says `a*x + .. >= c` or denies it, and each coefficient is 0, a power of two or at
//! least c. Its leaf has k + 2 states. The last one is full: it alone says that there are enough, an agent that is
//! enough starts there, and a full agent converts all others. So three nodes rest on it alone: it is present and all
//! were turned to it, or an agent started there, or it never occurred. They close for any other states and moves.
#![tactic(auto)]

mod agents;
mod full;
mod limits;
mod meaning;
mod power;
mod weights;

pub use agents::{inputs, outputs};
pub use full::{converted_node, full_tree, node, opened_number};
pub use limits::{PLACE_LIMIT, POWER_LIMIT};
pub use meaning::{enough_for, offset_pred, says_enough};
pub use power::{are_counted, bound_of_power, flock_power, offset_power};
pub use weights::counting_layers;
