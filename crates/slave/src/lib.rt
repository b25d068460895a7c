// The C interface: thin functions over lent bytes, which the crate slave_c exports. Each is one call of the session and one number:
// 65,536 times the paper's number, plus a slot's size, or 256 times the sampled lists plus the missed,
// or 2^32 times the bytes taken of a slice.
#![tactic(auto)]

ghost use Rattle.std.specs.Prelude.{◌≡◌, ◌+◌, ◌*◌};
ghost use Rattle.state.specs.Layout.{size};
ghost use Rattle.session.specs.Receive.{receive_of};
ghost use Rattle.session.specs.Slice.{receive_bytes_of};
ghost use Rattle.lists.specs.Event.{event_of};
ghost use Rattle.lists.specs.Slot.{slot_of};
ghost use Rattle.session.specs.PowerUp.{power_up_of};
ghost use Rattle.lists.specs.Slot.{Small};
ghost use Rattle.words.specs.Number.{received_c, evented_c, slotted_c};
ghost use Rattle.slave.specs.Returns.{PowersUpC, ReceivesC, TakesC, HappensC, SendsC};

use session::Took;
use words::{Counted, EventRefusal, Numbered, SlotRefusal};

// An answer's number, above the 16 bits of its value.
fn number_above<R: Numbered>(answer: R) -> u32
    ensures { result ≡ 65536 * R.numbers answer }
{
    65_536 * u32::from(answer.number())
}

fn took(r: Took) -> u64
    ensures { result ≡ received_c r.received + 4294967296 * r.taken }
{
    u64::from(number_above(r.received)) + 4_294_967_296 * u64::from(r.taken)
}

fn evented(r: Result<Counted, EventRefusal>) -> u32
    ensures { result ≡ evented_c r }
{
    let value = match r {
        Ok(Counted { sampled, missed }) => 256 * sampled as u32 + missed as u32,
        Err(_) => 0,
    };
    value + number_above(r)
}

fn slotted(r: Result<Option<usize>, SlotRefusal>) -> u32
    requires { Small r }
    ensures { result ≡ slotted_c r }
{
    let value = match r {
        Ok(Some(size)) => size as u32,
        Ok(None) | Err(_) => 0,
    };
    value + number_above(r)
}

pub fn xcp_power_up(state: &mut [u8], start: u32) -> u32
    ensures { PowersUpC (power_up_of state.old start) result state.new }
{
    number_above(session::power_up(state, start))
}

pub fn xcp_receive_byte(state: &mut [u8], cal: &mut [u8], meas: &[u8], byte: u8) -> u32
    ensures { ReceivesC (receive_of state.old cal.old meas.now byte) result state.new cal.new }
{
    number_above(session::receive_byte(state, cal, meas, byte))
}

pub fn xcp_receive(state: &mut [u8], cal: &mut [u8], meas: &[u8], bytes: &[u8]) -> u64
    ensures { TakesC (receive_bytes_of state.old cal.old meas.now bytes.now) result state.new cal.new }
{
    took(session::receive_bytes(state, cal, meas, bytes))
}

pub fn xcp_event(state: &mut [u8], cal: &[u8], meas: &[u8], event: u32, clock: u16) -> u32
    ensures { HappensC (event_of state.old cal.now meas.now event clock) result state.new }
{
    evented(session::event(state, cal, meas, event, clock))
}

pub fn xcp_slot(state: &mut [u8], out: &mut [u8]) -> u32
    ensures { SendsC (slot_of state.old out.old) result state.new out.new }
{
    slotted(session::slot(state, out))
}

pub fn xcp_state_size() -> u32
    ensures { result ≡ size }
{
    session::state_size() as u32
}
