// The line: XCP packets to frames of an SxI wire and back. It keeps no state of its own.
#![tactic(auto)]

ghost use Rattle.std.specs.Prelude.{◌≡◌};
ghost use Rattle.line.specs.Number.{outcome_number, written_number};

mod limits;
mod reader;
mod sum;
mod writer;

pub use limits::{ESC, LONGEST, MOST, ROOM, SYNC};
pub use reader::take;
pub use writer::{next_ctr, write};

// Where the reader stands. Inside a message it has k unescaped bytes of it, which lie at the front of
// the lent buffer.
#[derive(Clone, Copy)]
pub enum Place {
    Outside,
    Inside(usize),
    Escaped(usize),
}

// A good message, whole in the lent buffer: its packet is the len bytes from at.
#[derive(Clone, Copy)]
pub struct Message {
    pub ctr: u8,
    pub at: usize,
    pub len: usize,
}

// Why a message is dropped.
#[derive(Clone, Copy)]
pub enum Fault {
    BadLength,
    BadEscape,
    BadChecksum,
    CutOff,
    // The lent buffer is too short for a message.
    ShortBuffer,
}

// What became of a received byte, which may end a message.
#[derive(Clone, Copy)]
pub struct Taken {
    pub place: Place,
    pub outcome: Result<Option<Message>, Fault>,
}

// Why a packet to send gets no frame.
#[derive(Clone, Copy)]
pub enum Unwritten {
    BadLength,
    NoRoom,
}

impl Taken {
    // The paper's number. A good message is 1 here; the session makes 1, 2 or 6 of it.
    pub fn number(self) -> u8
        ensures { result ≡ outcome_number self.outcome }
    {
        match self.outcome {
            Ok(None) => 0,
            Ok(Some(_)) => 1,
            Err(Fault::BadLength) => 3,
            Err(Fault::BadEscape) => 4,
            Err(Fault::BadChecksum) => 5,
            Err(Fault::CutOff) => 7,
            Err(Fault::ShortBuffer) => 10,
        }
    }
}

// The paper's number of a packet to send: 0 for a frame.
pub fn written_number(written: Result<usize, Unwritten>) -> u8
    ensures { result ≡ written_number written }
{
    match written {
        Ok(_) => 0,
        Err(Unwritten::BadLength) => 3,
        Err(Unwritten::NoRoom) => 9,
    }
}
