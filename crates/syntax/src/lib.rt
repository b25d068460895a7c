// The text of a sheet: what a line of it is, what that asks for, and the bytes that stand in it. Any text gets a defined answer.
#![tactic(auto)]

mod cases;
mod form;
mod hex;
mod said;

pub use cases::turn_of;
pub use form::{BYTES, NAME, bytes, ending, expected, line_end, line_of};

#[derive(Clone, Copy)]
pub enum Step {
    PowerUp,
    Measured,
    Wire,
    Command,
    Slot,
    Unlock,
    Repeat,
    Event,
    Slice,
}

#[derive(Clone, Copy)]
pub enum Fault {
    // A byte that is no printable ASCII: a tab, a carriage return that ends no line.
    Sign,
    // Neither a step, nor a title, nor empty.
    Kind,
    // The name runs into the column before the bytes, or the line ends before them.
    Name,
    // From here on no bytes in capital hex, or more than the line can have.
    Hex,
    // Not the bytes of this step, or not those to expect.
    Bytes(Step),
    Expected(Step),
    // A case without a step, a title inside a case, a step outside.
    Stepless,
    Unended,
    Untitled,
}

#[derive(Clone, Copy)]
pub enum Line {
    Empty,
    Title,
    // How many bytes it has, and how many to expect.
    Does(Step, usize, usize),
}

// What is wrong with a line, and at which of its places.
#[derive(Clone, Copy)]
pub struct Wrong {
    pub fault: Fault,
    pub at: usize,
}

#[derive(Clone, Copy)]
pub enum Case {
    // No case has begun since the last one ended.
    Closed,
    // A title has come, in this line, and no step.
    Titled(u32),
    Stepped,
}

#[derive(Clone, Copy)]
pub enum Turn {
    // An empty line between cases.
    Pass,
    Begin,
    End,
    // A step, how many bytes it has, and how many to expect.
    Run(Step, usize, usize),
}

// What is wrong with a sheet, in which line, and at which of its places.
#[derive(Clone, Copy)]
pub struct Stop {
    pub fault: Fault,
    pub line: u32,
    pub at: usize,
}
