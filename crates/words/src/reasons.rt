// Why a command is refused, as the code of its answer.
ghost use Rattle.std.specs.Prelude.{◌≡◌};
ghost use Rattle.words.specs.Command.{code_of};

use crate::Reason;

impl From<Reason> for u8 {
    ghost from_gives = { λ reason n. n ≡ code_of reason };

    fn from(reason: Reason) -> u8 {
        match reason {
            Reason::Unknown => 0x20,
            Reason::TooShort => 0x21,
            Reason::Locked => 0x25,
            Reason::Sequence => 0x29,
            Reason::OutOfRange => 0x22,
            Reason::DataMissing => 0x21,
            Reason::ListRuns => 0x11,
            Reason::ReadOnly => 0x23,
            Reason::NotInside => 0x24,
            Reason::CannotStart => 0x2A,
            Reason::PoolFull => 0x30,
            Reason::WrongKey => 0x25,
        }
    }
}
