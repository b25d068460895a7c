// An XCP slave over one lent state buffer: commands, memory access, lists, events, slots. No call
// leans on its caller: any bytes at any moment with any lent memory get a defined answer.
#![tactic(auto)]

ghost use Rattle.std.specs.Prelude.{◌≡◌, ◌≤◌, cond, ltb};
ghost use Rattle.state.specs.Layout.{size};
ghost use Rattle.lists.specs.Event.{Happens, event_of};
ghost use Rattle.lists.specs.Slot.{Sends, slot_of};
ghost use Rattle.session.specs.Receive.{Receives, receive_of};
ghost use Rattle.session.specs.Slice.{ReceivesBytes, receive_bytes_of, taken_most};
ghost use Rattle.session.specs.PowerUp.{Powers, power_up_of};

use state::fields::is_consistent;
use words::{Counted, EventRefusal, Heard, NoState, SlotRefusal};

mod answer;
mod blocks;
mod deeds;
mod list_answers;
mod list_deeds;
mod perform;
mod place;
mod power;
mod quiet;
mod receive;
mod slice;

// The size of the state that each call is lent.
pub const STATE_SIZE: usize = state::layout::STATE;

// What is lent as the state, once its size is known: taken as the front of two, since an Option of one reference is returned as a pair (asked.rt of lists).
type State = [u8; STATE_SIZE];

// What became of a slice: the answer to its last byte taken, and how many were.
#[derive(Clone, Copy)]
pub struct Took {
    pub received: Result<Heard, NoState>,
    pub taken: u32,
}

pub const TAKEN_MOST: usize = 0xFFFF_FFFF;

const NONE_TAKEN: Took = Took {
    received: Err(NoState),
    taken: 0,
};

pub fn state_size() -> usize
    ensures { result ≡ size }
{
    STATE_SIZE
}

// Writes a fresh state. Only its size is judged.
pub fn power_up(state: &mut [u8], start: u32) -> Result<(), NoState>
    ensures { Powers (power_up_of state.old start) result state.new }
{
    if state.len() != STATE_SIZE {
        return Err(NoState);
    }
    let Some((s, _rest)) = state.split_first_chunk_mut::<STATE_SIZE>() else {
        return Err(NoState);
    };
    power::write_all(s, start);
    Ok(())
}

// One received byte. Most end nothing: they are handled first, in few instructions.
pub fn receive_byte(
    state: &mut [u8],
    cal: &mut [u8],
    meas: &[u8],
    byte: u8,
) -> Result<Heard, NoState>
    ensures { Receives (receive_of state.old cal.old meas.now byte) result state.new cal.new }
{
    if !is_consistent(state) {
        return Err(NoState);
    }
    let Some((s, _rest)) = state.split_first_chunk_mut::<STATE_SIZE>() else {
        return Err(NoState);
    };
    if quiet::quiet(s, byte) {
        return Ok(Heard::Nothing);
    }
    receive::receive(s, cal, &meas[0..], byte)
}

// So many bytes of a slice are taken at most: C gets their number in 32 bits.
fn counted(n: usize) -> usize
    ensures { (result ≤ n) × (result ≤ taken_most) × (result ≡ cond (ltb n taken_most) n taken_most) }
{
    if n < TAKEN_MOST {
        return n;
    }
    TAKEN_MOST
}

// Received bytes, up to and with the first whose number is not 0, or all.
pub fn receive_bytes(state: &mut [u8], cal: &mut [u8], meas: &[u8], bytes: &[u8]) -> Took
    ensures { ReceivesBytes (receive_bytes_of state.old cal.old meas.now bytes.now) result state.new cal.new }
{
    if !is_consistent(state) {
        return NONE_TAKEN;
    }
    let Some((s, _rest)) = state.split_first_chunk_mut::<STATE_SIZE>() else {
        return NONE_TAKEN;
    };
    let n = counted(bytes.len());
    slice::receive_all(s, cal, meas, &bytes[..n])
}

// One event with its clock.
pub fn event(
    state: &mut [u8],
    cal: &[u8],
    meas: &[u8],
    number: u32,
    clock: u16,
) -> Result<Counted, EventRefusal>
    ensures { Happens (event_of state.old cal.now meas.now number clock) result state.new }
{
    lists::event(state, cal, meas, number, clock)
}

// One sending slot.
pub fn slot(state: &mut [u8], out: &mut [u8]) -> Result<Option<usize>, SlotRefusal>
    ensures { Sends (slot_of state.old out.old) result state.new out.new }
{
    lists::slot(state, out)
}
