//! Whether all agents have one output.

ghost use Rattle.std.specs.Prelude.{MatchOption};
ghost use Rattle.pop_net.specs.Lanes.{crowd_of, AreValid};
ghost use Rattle.terminal_test.specs.Agreement.{AllOutput, OutputsDiffer};

use pop_crowd::Crowd;
use pop_net::Net;

/// The output of every agent, if all agree. It allocates nothing.
pub fn agreed(net: &Net, crowd: &Crowd) -> Option<bool>
    requires { AreValid net.now crowd.now }
    ensures { MatchOption result (OutputsDiffer net.now (crowd_of net.now crowd.now))
        (AllOutput net.now (crowd_of net.now crowd.now)) }
{
    let agents = crowd.len();
    let first = net.output(crowd.word(0));
    for agent in 1..agents {
        if net.output(crowd.word(agent)) != first {
            return None;
        }
    }
    Some(first)
}
