//! A net that was checked.

ghost use Rattle.std.specs.Prelude.{◌≡◌, length, All};

use pop_crowd::Crowd;
use pop_net::Net;
use pres_ast::Pred;
use std::marker::Model;

/// A net and a predicate that it computes.
#[derive(Drop)]
pub struct Checked {
    net: Net,
    pred: Pred,
    bound: u64,
}

impl Model for Checked {
    ghost use Rattle.std.specs.Coded.{codes};
    ghost use Rattle.pres_ast.specs.PredCode.{pred_code};
    ghost use Rattle.pop_checker.specs.CheckedModel.{CheckedModel, IsChecked};

    ghost Value = { CheckedModel };

    ghost coded = { Prim.hlevel (codes, pred_code) };

    ghost view = { λ c. record { net = c.net; pred = c.pred; bound = c.bound } };

    ghost invariant = { λ c. IsChecked (record { net = c.net; pred = c.pred; bound = c.bound }) };
}

impl Checked {
    ghost use Rattle.pres_ast.specs.PredicateValue.{predicate_value};
    ghost use Rattle.pop_leaf.specs.NetModel.{number_of_helpers, output_of};
    ghost use Rattle.pop_leaf.specs.InputCrowd.{IsInput, input_crowd};
    ghost use Rattle.pop_net.specs.Lanes.{crowd_of, AreValid};
    ghost use Rattle.pop_leaf.specs.Step.{Step};
    ghost use Rattle.pop_leaf.specs.Reachable.{Reachable};
    ghost use Rattle.pop_leaf.specs.Terminal.{IsTerminal};
    ghost use Rattle.pop_checker.specs.CheckedModel.{IsChecked};

    /// A net that was checked. Allocates nothing.
    pub(crate) fn new(net: Net, pred: Pred, bound: u64) -> Checked
        requires { IsChecked (record { net = net; pred = pred; bound = bound }) }
        ensures { result ≡ record { net = net; pred = pred; bound = bound } }
    {
        Checked { net, pred, bound }
    }

    /// The net.
    pub fn net(&self) -> &Net
        ensures { result.now ≡ self.now.net }
    {
        &self.net
    }

    /// The predicate that it computes.
    pub fn pred(&self) -> &Pred
        ensures value { result.now ≡ self.now.pred }
        ensures variables { self.now.pred.variables ≡ length self.now.net.variables }
    {
        &self.pred
    }

    /// The number of steps per agent within which every crowd on the way can reach a terminal one.
    pub fn bound(&self) -> u64
        ensures value { result ≡ self.now.bound }
        // The net computes the predicate with this bound, and a single net settles by meetings within it.
        ensures kept { IsChecked self.now }
    {
        self.bound
    }

    /// The answer of the agents in a terminal crowd that the counts, helpers included, led to. Allocates nothing.
    pub fn verdict(&self, counts: &[u64], crowd: &Crowd) -> bool
        requires input { IsInput (length self.now.net.variables) (number_of_helpers self.now.net) counts.now }
        requires valid { AreValid self.now.net crowd.now }
        requires reached { Reachable (Step self.now.net)
            (input_crowd self.now.net counts.now) (crowd_of self.now.net crowd.now) }
        requires terminal { IsTerminal (Step self.now.net) (crowd_of self.now.net crowd.now) }
        ensures value { result ≡ predicate_value self.now.pred.tree counts.now }
        ensures outputs { All (λ tuple. output_of self.now.net tuple ≡ result) (crowd_of self.now.net crowd.now) }
    {
        let _ = counts;
        // What the invariant says is known from here on.
        let _formed = crowd.len();
        self.net.output(crowd.word(0))
    }
}
