// What a C program links: the symbols of the C interface. Each function is the one of its name in the crate slave, with its
// contract; a crate that others stand on exports no symbols, so they have a crate of their own.
#![tactic(auto)]

ghost use Rattle.std.specs.Prelude.{◌≡◌};
ghost use Rattle.state.specs.Layout.{size};
ghost use Rattle.session.specs.Receive.{receive_of};
ghost use Rattle.session.specs.Slice.{receive_bytes_of};
ghost use Rattle.lists.specs.Event.{event_of};
ghost use Rattle.lists.specs.Slot.{slot_of};
ghost use Rattle.session.specs.PowerUp.{power_up_of};
ghost use Rattle.slave.specs.Returns.{PowersUpC, ReceivesC, TakesC, HappensC, SendsC};

#[unsafe(no_mangle)]
pub extern "C" fn xcp_power_up(state: &mut [u8], start: u32) -> u32
    ensures { PowersUpC (power_up_of state.old start) result state.new }
{
    slave::xcp_power_up(state, start)
}

#[unsafe(no_mangle)]
pub extern "C" fn xcp_receive_byte(state: &mut [u8], cal: &mut [u8], meas: &[u8], byte: u8) -> u32
    ensures { ReceivesC (receive_of state.old cal.old meas.now byte) result state.new cal.new }
{
    slave::xcp_receive_byte(state, cal, meas, byte)
}

#[unsafe(no_mangle)]
pub extern "C" fn xcp_receive(state: &mut [u8], cal: &mut [u8], meas: &[u8], bytes: &[u8]) -> u64
    ensures { TakesC (receive_bytes_of state.old cal.old meas.now bytes.now) result state.new cal.new }
{
    slave::xcp_receive(state, cal, meas, bytes)
}

#[unsafe(no_mangle)]
pub extern "C" fn xcp_event(
    state: &mut [u8],
    cal: &[u8],
    meas: &[u8],
    event: u32,
    clock: u16,
) -> u32
    ensures { HappensC (event_of state.old cal.now meas.now event clock) result state.new }
{
    slave::xcp_event(state, cal, meas, event, clock)
}

#[unsafe(no_mangle)]
pub extern "C" fn xcp_slot(state: &mut [u8], out: &mut [u8]) -> u32
    ensures { SendsC (slot_of state.old out.old) result state.new out.new }
{
    slave::xcp_slot(state, out)
}

#[unsafe(no_mangle)]
pub extern "C" fn xcp_state_size() -> u32
    ensures { result ≡ size }
{
    slave::xcp_state_size()
}
