// What a line of the sheet asks for, by where in a case it stands. A case is a title, its steps, one at least, and an empty
// line or the sheet's end.
ghost use Rattle.std.specs.Prelude.{◌≡◌};
ghost use Rattle.syntax.specs.Cases.{stops, empty_turn, title_turn, step_turn, turn_of};

use crate::{Case, Fault, Line, Step, Stop, Turn, Wrong};

fn stop(fault: Fault, line: u32, at: usize) -> Result<Turn, Stop>
    ensures { result ≡ stops fault line at }
{
    Err(Stop { fault, line, at })
}

fn at_empty(case: Case) -> Result<Turn, Stop>
    ensures { result ≡ empty_turn case }
{
    match case {
        Case::Closed => Ok(Turn::Pass),
        Case::Titled(at) => stop(Fault::Stepless, at, 0),
        Case::Stepped => Ok(Turn::End),
    }
}

fn at_title(case: Case, number: u32) -> Result<Turn, Stop>
    ensures { result ≡ title_turn case number }
{
    match case {
        Case::Closed => Ok(Turn::Begin),
        Case::Titled(at) => stop(Fault::Stepless, at, 0),
        Case::Stepped => stop(Fault::Unended, number, 0),
    }
}

fn at_step(case: Case, step: Step, bytes: usize, expected: usize, number: u32) -> Result<Turn, Stop>
    ensures { result ≡ step_turn case step bytes expected number }
{
    match case {
        Case::Closed => stop(Fault::Untitled, number, 0),
        Case::Titled(_) => Ok(Turn::Run(step, bytes, expected)),
        Case::Stepped => Ok(Turn::Run(step, bytes, expected)),
    }
}

// The sheet's end counts as an empty line. One match: each kind of line brings other values.
pub fn turn_of(case: Case, line: Result<Line, Wrong>, number: u32) -> Result<Turn, Stop>
    ensures { result ≡ turn_of case line number }
{
    match line {
        Ok(Line::Empty) => at_empty(case),
        Ok(Line::Title) => at_title(case, number),
        Ok(Line::Does(step, bytes, expected)) => at_step(case, step, bytes, expected, number),
        Err(wrong) => stop(wrong.fault, number, wrong.at),
    }
}
