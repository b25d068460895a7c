// What is wrong with a sheet, as it is said.
use crate::{Fault, Step, Stop};
use line::{MOST, ROOM};
use std::fmt;

// What a step takes.
fn takes<W: fmt::Write>(step: Step, f: &mut fmt::Formatter<W>) -> fmt::Result {
    match step {
        Step::PowerUp => f.write_str("P takes 4 bytes, and none to expect"),
        Step::Measured => f.write_str(
            "M takes a place of 2 bytes and bytes that lie below 4,096 from there on, and none to expect",
        ),
        Step::Wire => f.write_str("W takes wire bytes, and after = a number to expect for each"),
        Step::Command => write!(f, "> takes a command of 1 to {MOST} bytes"),
        Step::Slot => write!(f, "< takes a packet of 1 to {MOST} bytes, or - alone"),
        Step::Unlock => f.write_str(
            "U takes 01 or 04, and after = the 4 bytes of the key to expect",
        ),
        Step::Repeat => write!(
            f,
            "R takes how often, from 01 on, and a command of 1 to {MOST} bytes, and after = the answer to expect, of 1 to {MOST} bytes"
        ),
        Step::Event => f.write_str(
            "E takes a number and 2 bytes of clock, and after = the lists to sample and the lists to miss it, or the number of a refusal",
        ),
        Step::Slice => f.write_str(
            "S takes wire bytes, and after = the number to expect and how many bytes are to be taken",
        ),
    }
}

impl fmt::Display for Fault {
    fn fmt<W: fmt::Write>(&self, f: &mut fmt::Formatter<W>) -> fmt::Result {
        match *self {
            Fault::Sign => f.write_str(
                "only printable ASCII can stand in a sheet, no tab, and no carriage return but before a line feed",
            ),
            Fault::Kind => f.write_str(
                "neither a step (P M W S > < U R E and a space), nor a title (# and a space), nor empty",
            ),
            Fault::Name => f.write_str(
                "a step's name ends here with a space, and its bytes begin in the next column",
            ),
            Fault::Hex => write!(
                f,
                "from here on not used: bytes are two capital hex digits, one space between, at most {ROOM}, with ' = ' before those to expect"
            ),
            Fault::Bytes(step) => takes(step, f),
            Fault::Expected(step) => takes(step, f),
            Fault::Stepless => f.write_str("a case without a step"),
            Fault::Unended => f.write_str("a title inside a case: an empty line ends a case"),
            Fault::Untitled => f.write_str(
                "a step outside a case: a case begins with a title (# and a space)",
            ),
        }
    }
}

// Columns are counted from 1.
impl fmt::Display for Stop {
    fn fmt<W: fmt::Write>(&self, f: &mut fmt::Formatter<W>) -> fmt::Result {
        let fault = self.fault;
        let line = self.line;
        let column = self.at.wrapping_add(1);
        write!(f, "line {line}, column {column}: {fault}")
    }
}
