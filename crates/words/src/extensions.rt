// Which memory an extension's number stands for; no other number is one.
ghost use Rattle.std.specs.Prelude.{◌≡◌};
ghost use Rattle.words.specs.Command.{extension_of};

use crate::{Extension, Reason};

impl TryFrom<u8> for Extension {
    type Error = Reason;

    ghost try_from_gives = { λ n extension. extension ≡ extension_of n };

    fn try_from(n: u8) -> Result<Extension, Reason> {
        match n {
            0 => Ok(Extension::Calibration),
            1 => Ok(Extension::Measured),
            _ => Err(Reason::OutOfRange),
        }
    }
}
