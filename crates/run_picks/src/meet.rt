//! The next meeting of a worker.

ghost use Rattle.pop_net.specs.Lanes.{AreValid};
ghost use Rattle.run_picks.specs.NextMeeting.{HasMetNext};

use crate::picker::Picker;
use pop_crowd::{Crowd, Meeting};
use pop_net::Net;

/// Makes the next meeting of the worker that this picker belongs to. It allocates nothing.
#[inline(always)]
pub fn meet_next(net: &Net, crowd: &mut Crowd, picker: &mut Picker, worker: u16) -> Meeting
    requires { AreValid net.now crowd.old }
    ensures { HasMetNext net.now worker result crowd.old crowd.new picker.old picker.new }
{
    let (a, b) = picker.pick(crowd.len());
    let changed = crowd.meet(net, a, b);
    Meeting {
        worker,
        a,
        b,
        changed,
    }
}
