// Power-up in a state of the right size: every byte is written, none is read.
ghost use Rattle.std.specs.Prelude.{◌≡◌};
ghost use Rattle.session.specs.PowerUp.{powered};

use crate::State;
use state::bytes::store32;
use state::{Generator, fields, layout};

pub fn write_all(s: &mut State, start: u32)
    ensures { s.new ≡ powered start }
{
    s.fill(0);
    store32(s, layout::MARK_AT, layout::MARK);
    fields::set_generator(s, Generator::new(start));
}
