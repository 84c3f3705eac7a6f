//! The lines of an input, as many as its command takes.

ghost use Rattle.std.specs.Prelude.{◌≡◌, ◌≤◌, length, IfOk};
ghost use Rattle.base_lines.specs.Lines.{lines_of};
ghost use Rattle.tool_texts.specs.Steps.{GivesStep};
ghost use Rattle.tool_texts.specs.Lines.{line_refusal, two_and_more, two_and_some, just_one, just_two, just_three};
ghost use Rattle.pop_io.specs.declared.failure.Failure.TheVariants.{Fault};

use crate::refusal::{LineWhy, Refusal};
use crate::stop::Stop;
use base_lines::{LineFault, next_line, one_line, three_lines, two_lines, two_lines_and_more};
use pop_io::Failure;

fn refused(fault: LineFault) -> Stop
    ensures { result ≡ Fault (line_refusal fault) }
{
    match fault {
        LineFault::Missing(number) => Failure::Fault(Refusal::Line(number, LineWhy::Missing)),
        LineFault::Extra(number) => Failure::Fault(Refusal::Line(number, LineWhy::Extra)),
    }
}

/// The line of an input that has no more.
pub fn just_one_line(input: &[u8]) -> Result<&[u8], Stop>
    ensures { GivesStep (λ line. line.now) result (just_one (lines_of input.now)) }
{
    match one_line(input) {
        Ok(line) => Ok(line),
        Err(fault) => Err(refused(fault)),
    }
}

/// The first two lines, and the bytes after them.
pub fn two_and_more_lines(input: &[u8]) -> Result<(&[u8], &[u8], &[u8]), Stop>
    ensures lines { GivesStep (λ found. (found.0.now, found.1.now, lines_of found.2.now)) result
        (two_and_more (lines_of input.now)) }
    ensures few { IfOk result (λ found. length (lines_of found.2.now) ≤ length input.now) }
{
    match two_lines_and_more(input) {
        Ok(found) => Ok(found),
        Err(fault) => Err(refused(fault)),
    }
}

/// The first two lines, and the bytes after them, which have at least one line.
pub fn two_and_some_lines(input: &[u8]) -> Result<(&[u8], &[u8], &[u8]), Stop>
    ensures lines { GivesStep (λ found. (found.0.now, found.1.now, lines_of found.2.now)) result
        (two_and_some (lines_of input.now)) }
{
    let (first, second, rest) = two_and_more_lines(input)?;
    match next_line(rest) {
        Some(_third) => Ok((first, second, rest)),
        None => Err(refused(LineFault::Missing(3))),
    }
}

/// The two lines of an input that has no more.
pub fn just_two_lines(input: &[u8]) -> Result<(&[u8], &[u8]), Stop>
    ensures { GivesStep (λ found. (found.0.now, found.1.now)) result (just_two (lines_of input.now)) }
{
    match two_lines(input) {
        Ok(found) => Ok(found),
        Err(fault) => Err(refused(fault)),
    }
}

/// The three lines of an input that has no more.
pub fn just_three_lines(input: &[u8]) -> Result<(&[u8], &[u8], &[u8]), Stop>
    ensures { GivesStep (λ found. (found.0.now, found.1.now, found.2.now)) result (just_three (lines_of input.now)) }
{
    match three_lines(input) {
        Ok(found) => Ok(found),
        Err(fault) => Err(refused(fault)),
    }
}
