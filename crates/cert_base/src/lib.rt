//! Proofs that a net computes a predicate: ranking layers, and trees of cases over facts.
//! It stands on `pop_leaf` and `pres_ast`.
//! The layer above uses: the definitions of valid layers and proofs, of facts, cases and closing tests.
#![tactic(auto)]

mod base;
mod fact;
mod flow;
mod helpers;
mod law;
mod layer;
mod limits;
mod meet;
mod node;
mod open;
mod outside;
mod proof;
mod row;
mod split;
mod stable;
mod terms;
mod variables;

pub use base::base_facts;
pub use fact::{Fact, Row, Term, only};
pub use flow::flow_facts;
pub use law::flow_law;
pub use layer::Layer;
pub use limits::{
    FACT_LIMIT, INDEX_COUNT, LAYER_LIMIT, NODE_LIMIT, PATH_LIMIT, SET_LIMIT, SIZE_LIMIT,
    STATE_INDEX_COUNT, TERM_LIMIT,
};
pub use meet::can_meet;
pub use node::Node;
pub use open::open_cases;
pub use outside::goal_facts;
pub use proof::{Goal, LeafProof, Proof};
pub use split::split_cases;
pub use stable::{LeafGoals, StablePart, StableProof};
pub use variables::{count_variables, variable_of_input, variable_of_move, variable_of_state};
