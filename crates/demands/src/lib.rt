// The customer's three demands, as theorems over every run of calls. Here each public call of the session
// is tied to `ours`, the slave of which they are proved.
#![tactic(auto)]

ghost use Rattle.session.specs.Receive.{Receives};
ghost use Rattle.lists.specs.Event.{Happens};
ghost use Rattle.lists.specs.Slot.{Sends};
ghost use Rattle.session.specs.PowerUp.{Powers};
ghost use Rattle.demands.specs.Slave.{ours};

use words::{Counted, EventRefusal, Heard, NoState, SlotRefusal};

pub fn power_up(state: &mut [u8], start: u32) -> Result<(), NoState>
    ensures { Powers (ours.power_up state.old start) result state.new }
{
    session::power_up(state, start)
}

pub fn receive_byte(
    state: &mut [u8],
    cal: &mut [u8],
    meas: &[u8],
    byte: u8,
) -> Result<Heard, NoState>
    ensures { Receives (ours.receive state.old cal.old meas.now byte) result state.new cal.new }
{
    session::receive_byte(state, cal, meas, byte)
}

pub fn event(
    state: &mut [u8],
    cal: &[u8],
    meas: &[u8],
    number: u32,
    clock: u16,
) -> Result<Counted, EventRefusal>
    ensures { Happens (ours.event state.old cal.now meas.now number clock) result state.new }
{
    session::event(state, cal, meas, number, clock)
}

pub fn slot(state: &mut [u8], out: &mut [u8]) -> Result<Option<usize>, SlotRefusal>
    ensures { Sends (ours.slot state.old out.old) result state.new out.new }
{
    session::slot(state, out)
}
