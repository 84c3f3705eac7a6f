//! What a run has from its beginning to its end.

ghost use Rattle.run_spec.specs.RunLimits.{IsWithinLimits};
ghost use Rattle.run_picks.specs.SameLanes.{HaveSameLanes};

use pop_net::Net;
use run_spec::RunSpec;

/// The net that a run's agents meet by, the net in which the run is over once its crowd is terminal, its options, and
/// its gate.
pub struct RunContext<'a, G> {
    pub net: &'a Net,
    pub rest: &'a Net,
    pub spec: &'a RunSpec,
    pub gate: &'a G,
    ghost lanes: { HaveSameLanes rest.now net.now },
    ghost limits: { IsWithinLimits spec.now },
}

impl<G> Drop for RunContext<'_, G> {
    fn drop(self) {
        let RunContext {
            net: _,
            rest: _,
            spec: _,
            gate: _,
        } = self;
    }
}
