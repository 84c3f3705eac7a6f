//! Why goals are not valid.

use cert_layers::LayerWhy;
use cert_sets::SetFault;
use cert_tree::TreeFault;

/// The first part of a goal that isn't valid: first the layers, then the sets in order, then the nodes.
#[derive(Clone, Copy, PartialEq, Eq)]
pub enum GoalWhy {
    Layers(LayerWhy),
    Set(SetFault),
    Node(TreeFault),
}
