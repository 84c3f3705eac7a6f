//! The meeting line.

ghost use Rattle.std.specs.Prelude.{◌≡◌, ◌≢◌, ◌<◌, IfOk};
ghost use Rattle.base_lines.specs.Lines.{pieces};
ghost use Rattle.pop_words.specs.Meetings.{meeting_of, pair_of};

use base_lines::{cut, number};

/// Why a line isn't a meeting of two agents.
#[derive(Clone, Copy, PartialEq, Eq)]
pub enum MeetingFault {
    /// It isn't two numbers with one space between them.
    Form,
    /// The numbers are equal, or one of them isn't below the number of agents.
    Agents,
}

/// The two agents that a line names. Allocates nothing.
#[tactic(auto, unfolding(crate::specs::Meetings::meeting_of))]
pub fn read_meeting(line: &[u8], agents: u32) -> Result<(u32, u32), MeetingFault>
    ensures meeting { result ≡ meeting_of agents line.now }
    ensures agents { IfOk result (λ pair. (pair.0 ≢ pair.1) × (pair.0 < agents) × (pair.1 < agents)) }
{
    let Some((first, second)) = two_numbers(line) else {
        return Err(MeetingFault::Form);
    };
    let below = u128::from(agents);
    if first == second || below <= first || below <= second {
        return Err(MeetingFault::Agents);
    }
    Ok((first as u32, second as u32))
}

/// The two numbers of a line, of any value.
fn two_numbers(line: &[u8]) -> Option<(u128, u128)>
    ensures { result ≡ pair_of (pieces 32 line.now) }
{
    let (first, rest) = cut(line, b' ');
    let Some(rest) = rest else {
        return None;
    };
    let (second, more) = cut(rest, b' ');
    if more.is_some() {
        return None;
    }
    let first = number(first)?;
    let second = number(second)?;
    Some((first, second))
}
