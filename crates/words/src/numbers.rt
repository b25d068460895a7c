// The paper's number of each answer.
ghost use Rattle.std.specs.Prelude.{◌≡◌, ℕ};
ghost use Rattle.words.specs.Number.{received_number, evented_number, slotted_number, powered_up_number};

use crate::{Counted, EventRefusal, Heard, NoState, SlotRefusal};

// What the paper has a number for.
pub trait Numbered {
    ghost numbers: { Self → ℕ };

    fn number(self) -> u8
        ensures { result ≡ numbers self };
}

impl Numbered for Result<Heard, NoState> {
    ghost numbers = { received_number };

    fn number(self) -> u8 {
        match self {
            Ok(Heard::Nothing) => 0,
            Ok(Heard::Answered) => 1,
            Ok(Heard::Silent) => 2,
            Ok(Heard::BadLength) => 3,
            Ok(Heard::BadEscape) => 4,
            Ok(Heard::BadChecksum) => 5,
            Ok(Heard::Unread) => 6,
            Ok(Heard::CutOff) => 7,
            Err(NoState) => 10,
        }
    }
}

impl Numbered for Result<Counted, EventRefusal> {
    ghost numbers = { evented_number };

    fn number(self) -> u8 {
        match self {
            Ok(_) => 0,
            Err(EventRefusal::BadEvent) => 8,
            Err(EventRefusal::NoState) => 10,
        }
    }
}

impl Numbered for Result<Option<usize>, SlotRefusal> {
    ghost numbers = { slotted_number };

    fn number(self) -> u8 {
        match self {
            Ok(_) => 0,
            Err(SlotRefusal::NoRoom) => 9,
            Err(SlotRefusal::NoState) => 10,
        }
    }
}

impl Numbered for Result<(), NoState> {
    ghost numbers = { powered_up_number };

    fn number(self) -> u8 {
        match self {
            Ok(()) => 0,
            Err(NoState) => 10,
        }
    }
}
