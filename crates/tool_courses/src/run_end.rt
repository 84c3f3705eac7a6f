//! The last line of a run, and how its command ends.

ghost use Rattle.std.specs.Prelude.{◌≡◌};
ghost use Rattle.tool_courses.specs.RunOutput.{journal_end, run_ending, open_pair};

use run_picks::End;
use run_text::Last;
use tool_texts::Ending;

/// The journal's last line for the end of a run, given that of a run that leaves no pair, and how the command ends.
pub fn last_and_ending(told: Last, end: End) -> (Last, Ending)
    ensures { result ≡ (journal_end told (open_pair end), run_ending (open_pair end)) }
{
    match end {
        End::Terminal => (told, Ending::Done),
        End::Open(a, b) => (Last::Undecided(a, b), Ending::Undecided),
    }
}
