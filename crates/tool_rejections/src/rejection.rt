//! Why a proof is not valid, and the line that says so.

ghost use Rattle.std.specs.Prelude.{◌≡◌, Some, IfOk};
ghost use Rattle.tool_rejections.specs.Rejections.{layer_words, tree_words, set_words, goal_words};
ghost use Rattle.tool_rejections.specs.Rejections.{silent_text, rejected_text, rejection_output};

use cert_goals::{GoalWhy, SetFault};
use cert_layers::LayerWhy;
use cert_tree::{TreeFault, TreeWhy};
use pop_checker::{Rejected, StableRejected};
use std::alloc::{AllocError, Global};
use std::fmt;
use tool_texts::{Ending, Output};

/// What is wrong with the layers of a leaf.
#[derive(Clone, Copy)]
struct LayerWords(LayerWhy);

/// What is wrong with a node.
#[derive(Clone, Copy)]
struct TreeWords(TreeWhy);

/// What is wrong with a set.
#[derive(Clone, Copy)]
struct SetWords(SetFault);

/// What is wrong with a goal.
#[derive(Clone, Copy)]
struct GoalWords(GoalWhy);

/// What is wrong with a leaf that falls silent, or with the predicate.
#[derive(Clone, Copy)]
struct SilentRejection(Rejected);

/// The line without its line feed.
#[derive(Clone, Copy)]
struct Rejection(StableRejected);

impl fmt::Display for LayerWords {
    ghost output = { λ words. Some (layer_words words.0) };

    fn fmt<W: fmt::Write>(&self, f: &mut fmt::Formatter<W>) -> fmt::Result {
        match self.0 {
            LayerWhy::Shape(number) => write!(f, "shape {number}"),
            LayerWhy::NoLayer(number) => write!(f, "no-layer {number}"),
            LayerWhy::NotLower(number) => write!(f, "not-lower {number}"),
            LayerWhy::Wakes(number, woken) => write!(f, "wakes {number} {woken}"),
        }
    }
}

impl fmt::Display for TreeWords {
    ghost output = { λ words. Some (tree_words words.0) };

    fn fmt<W: fmt::Write>(&self, f: &mut fmt::Formatter<W>) -> fmt::Result {
        match self.0 {
            TreeWhy::Missing => write!(f, "missing"),
            TreeWhy::TooDeep => write!(f, "too-deep"),
            TreeWhy::BadIndex => write!(f, "bad-index"),
            TreeWhy::NoTwin => write!(f, "no-twin"),
            TreeWhy::NotOpen => write!(f, "not-open"),
            TreeWhy::NotClosed => write!(f, "not-closed"),
            TreeWhy::TooManyFacts => write!(f, "too-many-facts"),
            TreeWhy::Rest => write!(f, "rest"),
        }
    }
}

impl fmt::Display for SilentRejection {
    ghost output = { λ words. Some (silent_text words.0) };

    fn fmt<W: fmt::Write>(&self, f: &mut fmt::Formatter<W>) -> fmt::Result {
        match self.0 {
            Rejected::Layers { leaf, why } => {
                let why = LayerWords(why);
                write!(f, "rejected leaf {leaf} layers {why}")
            }
            Rejected::Tree {
                leaf,
                value,
                node,
                why,
            } => {
                let why = TreeWords(why);
                write!(f, "rejected leaf {leaf} {value} {node} {why}")
            }
            Rejected::Predicate => write!(f, "rejected predicate"),
        }
    }
}

impl fmt::Display for SetWords {
    ghost output = { λ words. Some (set_words words.0) };

    fn fmt<W: fmt::Write>(&self, f: &mut fmt::Formatter<W>) -> fmt::Result {
        match self.0 {
            SetFault::Output { set, state } => write!(f, "set {set} output {state}"),
            SetFault::Leaves { set, move_number } => write!(f, "set {set} leaves {move_number}"),
            SetFault::Wakes {
                set,
                move_number,
                woken,
            } => write!(f, "set {set} wakes {move_number} {woken}"),
        }
    }
}

impl fmt::Display for GoalWords {
    ghost output = { λ words. Some (goal_words words.0) };

    fn fmt<W: fmt::Write>(&self, f: &mut fmt::Formatter<W>) -> fmt::Result {
        match self.0 {
            GoalWhy::Layers(why) => {
                let why = LayerWords(why);
                write!(f, "layers {why}")
            }
            GoalWhy::Set(fault) => SetWords(fault).fmt(f),
            GoalWhy::Node(TreeFault { node, why }) => {
                let why = TreeWords(why);
                write!(f, "{node} {why}")
            }
        }
    }
}

impl fmt::Display for Rejection {
    ghost output = { λ words. Some (rejected_text words.0) };

    fn fmt<W: fmt::Write>(&self, f: &mut fmt::Formatter<W>) -> fmt::Result {
        match self.0 {
            StableRejected::Plain(rejected) => SilentRejection(rejected).fmt(f),
            StableRejected::Goal { leaf, value, why } => {
                let why = GoalWords(why);
                write!(f, "rejected leaf {leaf} {value} {why}")
            }
        }
    }
}

/// What is written for a proof that is not valid: the line that names the first part that fails.
pub fn rejection_output(alloc: Global, rejected: StableRejected) -> Result<Output, AllocError>
    ensures { IfOk result (λ output. output ≡ rejection_output rejected) }
{
    let rejected = Rejection(rejected);
    let text = format!(in alloc; "{rejected}\n")?;
    Ok(Output::new(text.into_bytes(), Ending::Rejected))
}
