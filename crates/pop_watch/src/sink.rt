//! The text of a run that is being made, so that no round's meetings are kept.

use pair_workers::RoundSink;
use pop_crowd::Meeting;
use pop_io::NoMemory;
use run_spec::{RunKind, RunSpec};
use run_text::{Page, push_round, push_run_line};
use std::alloc::Global;

/// A text to which the lines of each round are added.
#[derive(Drop)]
pub struct WrittenRounds {
    pub text: Vec<u8>,
    page: Page,
}

impl WrittenRounds {
    ghost use Rattle.std.specs.Prelude.{◌≡◌, ◌++◌, codes, IfOk};
    ghost use Rattle.base_lines.specs.Lines.{ended};
    ghost use Rattle.run_spec.specs.RunLimits.{IsWithinLimits};
    ghost use Rattle.run_text.specs.Journal.{run_line};

    /// A text and the first line of a run by so many agents.
    pub fn begin(
        alloc: Global,
        text: Vec<u8>,
        kind: RunKind,
        spec: &RunSpec,
        agents: u32,
    ) -> Result<WrittenRounds, NoMemory>
        requires { IsWithinLimits spec.now }
        ensures { IfOk result (λ begun. begun.text.items ≡ text.items ++ ended (run_line kind spec.now)) }
    {
        let mut text = text;
        push_run_line(&mut text, kind, spec)?;
        let meetings = u64::from(spec.workers) * spec.turns;
        let kept = meetings.min(u64::from(agents)) as u32;
        let page = Page::new(alloc, kept)?;
        Ok(WrittenRounds { text, page })
    }

    /// The text with the line `end`.
    pub fn end(self) -> Result<Vec<u8>, NoMemory>
        ensures { IfOk result (λ text. text.items ≡ self.text.items ++ codes "end\n") }
    {
        let WrittenRounds {
            text: mut ended,
            page: _,
        } = self;
        ended.extend_from_slice(b"end\n")?;
        Ok(ended)
    }
}

impl RoundSink for WrittenRounds {
    ghost use Rattle.pop_watch.specs.WrittenRound.{writes_round};

    ghost takes = { writes_round };

    fn take(&mut self, number: u64, meetings: Vec<Meeting>) -> Result<(), NoMemory> {
        push_round(&mut self.text, &mut self.page, number, meetings.as_slice())?;
        Ok(())
    }
}
