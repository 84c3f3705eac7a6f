//! The run of a case.

ghost use Rattle.std.specs.Prelude.{◌≡◌, ◌≤◌};
ghost use Rattle.run_spec.specs.RunLimits.{IsWithinLimits};
ghost use Rattle.pop_words.specs.declared.command.TheConstants.{DEMO_LIMIT};
ghost use Rattle.pop_demo.specs.DemoCase.{demo_spec};

use pop_words::DEMO_LIMIT;
use run_spec::RunSpec;

/// The run of the case with this number: by one worker, with the number as its seed.
pub fn demo_run(number: u32) -> RunSpec
    requires { number ≤ DEMO_LIMIT }
    ensures run { result ≡ demo_spec number }
    ensures limits { IsWithinLimits result }
{
    RunSpec {
        workers: 1,
        shards: 16,
        turns: 200_000,
        seed: u64::from(number),
    }
}
