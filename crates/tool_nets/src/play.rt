//! The command `play`.

ghost use Rattle.std.specs.Prelude.{◌≡◌, ◌≢◌, ◌+◌, ◌<◌, ◌≤◌, ◌^◌, ◌++◌, ℕ, Option, length, IfOk, OnOk, option_map};
ghost use Rattle.serde_json.specs.View.{view};
ghost use Rattle.base_lines.specs.Lines.{lines_of};
ghost use Rattle.pop_words.specs.Meetings.{meeting_of};
ghost use Rattle.pop_net.specs.Lanes.{crowd_of, AreValid};
ghost use Rattle.tool_texts.specs.Steps.{After, GivesStep, Obeys};
ghost use Rattle.tool_bundles.specs.LastPair.{IsLast};
ghost use Rattle.tool_nets.specs.Play.{paired, on_from, played, end_crowd};
ghost use Rattle.tool_nets.specs.Play.{end_line, play_output, OfEnd, PlayGives};

use base_lines::{next_line, push_number};
use pop_crowd::Crowd;
use pop_io::{Failure, NoMemory};
use pop_journal::short_pair;
use pop_net::Net;
use pop_words::{MeetingFault, read_meeting};
use serde_json::Value;
use std::alloc::{AllocError, Global};
use terminal_test::enabled_pair;
use tool_bundles::net_and_start;
use tool_texts::{Ending, LineWhy, Output, Refusal, Stop, two_and_more_lines, value_of};

/// The number of the line in which the meetings begin, after the net and the crowd line.
pub const MEETINGS_LINE: u64 = 3;

/// The agents that the line of this number names.
fn pair_of(line: &[u8], agents: u32, number: u64) -> Result<(u32, u32), Stop>
    ensures pair { GivesStep (λ pair. (pair.0, pair.1)) result (paired number (meeting_of agents line.now)) }
    ensures agents { IfOk result (λ pair. (pair.0 ≢ pair.1) × (pair.0 < agents) × (pair.1 < agents)) }
{
    match read_meeting(line, agents) {
        Ok(pair) => Ok(pair),
        Err(MeetingFault::Form) => Err(Failure::Fault(Refusal::Line(number, LineWhy::Form))),
        Err(MeetingFault::Agents) => Err(Failure::Fault(Refusal::Line(number, LineWhy::Agents))),
    }
}

/// Plays lines up to the first that `short_pair` doesn't take. Returns what is left, and the number of its first line.
fn play_short<'t>(net: &Net, crowd: &mut Crowd, lines: &'t [u8], number: u64) -> (&'t [u8], u64)
    requires few { number + length (lines_of lines.now) < 2 ^ 33 }
    requires valid { AreValid net.now crowd.old }
    ensures same { on_from net.now (length crowd.old) result.1 (crowd_of net.now crowd.new) (lines_of result.0.now)
        ≡ on_from net.now (length crowd.old) number (crowd_of net.now crowd.old) (lines_of lines.now) }
    ensures valid { AreValid net.now crowd.new }
    ensures agents { length crowd.new ≡ length crowd.old }
    ensures later { number ≤ result.1 }
    ensures counted { result.1 + length (lines_of result.0.now) ≡ number + length (lines_of lines.now) }
{
    let mut rest = lines;
    let mut next = number;
    'lines: while let Some(((a, b), more)) = short_pair(rest, crowd.len()) {
        crowd.meet(net, a, b);
        next += 1;
        rest = more;
    }
    (rest, next)
}

/// The crowd after the meetings of all lines, the first of which has the number `MEETINGS_LINE`.
#[tactic(auto, unfolding(crate::specs::Play::played))]
fn end_of(net: &Net, crowd: Crowd, lines: &[u8]) -> Result<Crowd, Stop>
    requires few { length (lines_of lines.now) < 2 ^ 32 }
    requires valid { AreValid net.now crowd }
    ensures end { GivesStep (λ end. crowd_of net.now end) result
        (played net.now (crowd_of net.now crowd) (lines_of lines.now)) }
    ensures valid { IfOk result (AreValid net.now) }
{
    let mut crowd = crowd;
    let (mut rest, mut number) = play_short(net, &mut crowd, lines, MEETINGS_LINE);
    'lines: while let Some((line, more)) = next_line(rest) {
        let (a, b) = pair_of(line, crowd.len(), number)?;
        crowd.meet(net, a, b);
        let (left, next) = play_short(net, &mut crowd, more, number + 1);
        rest = left;
        number = next;
    }
    Ok(crowd)
}

/// `terminal`, or `enabled` with the least pair of agents that a meeting changes.
fn push_last(text: &mut Vec<u8>, pair: Option<(u32, u32)>) -> Result<(), AllocError>
    ensures { OnOk result (text.new.items ≡ text.old.items ++ end_line (option_map (λ p. (p.0, p.1)) pair)) }
{
    let Some((a, b)) = pair else {
        return text.extend_from_slice(b"terminal\n");
    };
    text.extend_from_slice(b"enabled ")?;
    push_number(text, u64::from(a))?;
    text.extend_from_slice(b" ")?;
    push_number(text, u64::from(b))?;
    text.extend_from_slice(b"\n")
}

/// The crowd lines, and the last line.
fn end_output(alloc: Global, net: &Net, crowd: &Crowd) -> Result<Output, NoMemory>
    requires { AreValid net.now crowd.now }
    ensures { IfOk result (λ output. (last : Option (ℕ × ℕ)) × IsLast net.now (crowd_of net.now crowd.now) last
        × (output ≡ play_output net.now (crowd_of net.now crowd.now) last)) }
{
    let mut text = crowd.tally(alloc, net)?.into_vec();
    let pair = enabled_pair(alloc, net, crowd)?;
    push_last(&mut text, pair)?;
    Ok(Output::new(text, Ending::Done))
}

/// The net of a net line that has this value, and its crowd after the meetings.
#[tactic(auto, unfolding(crate::specs::Play::end_crowd))]
fn net_and_end(
    alloc: Global,
    value: &Option<Value>,
    crowd: &[u8],
    meetings: &[u8],
) -> Result<(Net, Crowd), Stop>
    requires { length (lines_of meetings.now) < 2 ^ 32 }
    ensures end { GivesStep (λ end. (end.0, crowd_of end.0 end.1)) result
        (end_crowd (option_map view value.now) crowd.now (lines_of meetings.now)) }
    ensures valid { IfOk result (λ end. AreValid end.0 end.1) }
{
    let (net, start) = net_and_start(alloc, value, crowd)?;
    let end = end_of(&net, start, meetings)?;
    Ok((net, end))
}

/// The output for a net line that has this value, a crowd line, and meeting lines.
fn output_for(
    alloc: Global,
    value: &Option<Value>,
    crowd: &[u8],
    meetings: &[u8],
) -> Result<Output, Stop>
    requires { length (lines_of meetings.now) < 2 ^ 32 }
    ensures { Obeys (After (end_crowd (option_map view value.now) crowd.now (lines_of meetings.now)) OfEnd)
        (λ output. output) result }
{
    match net_and_end(alloc, value, crowd, meetings) {
        Ok((net, end)) => Ok(end_output(alloc, &net, &end)?),
        Err(stop) => Err(stop),
    }
}

/// What `play` gives for an input that isn't too long.
pub fn play_input(alloc: Global, input: &[u8]) -> Result<Output, Stop>
    requires { length input.now < 2 ^ 32 }
    ensures { Obeys (PlayGives (lines_of input.now)) (λ output. output) result }
{
    let (net, crowd, meetings) = two_and_more_lines(input)?;
    let value = value_of(alloc, net)?;
    output_for(alloc, &value, crowd, meetings)
}
