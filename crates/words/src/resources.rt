// Which resource a number stands for; no other number is one.
ghost use Rattle.std.specs.Prelude.{◌≡◌};
ghost use Rattle.words.specs.Command.{resource_of};

use crate::{Reason, Resource};

impl TryFrom<u8> for Resource {
    type Error = Reason;

    ghost try_from_gives = { λ n resource. resource ≡ resource_of n };

    fn try_from(n: u8) -> Result<Resource, Reason> {
        match n {
            0x01 => Ok(Resource::Calibration),
            0x04 => Ok(Resource::Lists),
            _ => Err(Reason::OutOfRange),
        }
    }
}
