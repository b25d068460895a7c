// A slave at work in a program on a host: its state, and the two memories that the program lends it.
#![tactic(auto)]

ghost use Rattle.std.specs.Prelude.{◌≡◌, ◌≤◌, length, replicate, take};
ghost use Rattle.lists.specs.Event.{Happens, event_of};
ghost use Rattle.lists.specs.Slot.{Sends, slot_of};
ghost use Rattle.session.specs.Receive.{Receives, receive_of};
ghost use Rattle.session.specs.Slice.{ReceivesBytes, receive_bytes_of};
ghost use Rattle.session.specs.PowerUp.{Powers, power_up_of};
ghost use Rattle.line.specs.Message.{room};
ghost use Rattle.state.specs.Layout.{size, addressable};
ghost use Rattle.bench.specs.Stored.{stored_in};
ghost use Rattle.bench.specs.Frame.{frame_in};

mod bytes;

pub use bytes::Bytes;
use line::ROOM;
use session::{STATE_SIZE, Took};
use state::layout::ADDRESSABLE;
use words::{Counted, EventRefusal, Heard, NoState, SlotRefusal};

#[derive(Drop)]
pub struct Gun {
    pub state: [u8; STATE_SIZE],
    pub cal: [u8; 4096],
    pub meas: [u8; 4096],
}

impl Gun {
    // Before its power-up.
    pub fn new() -> Self
        ensures state { result.state ≡ replicate size 0 }
        ensures cal { result.cal ≡ replicate addressable 0 }
        ensures meas { result.meas ≡ replicate addressable 0 }
    {
        Self {
            state: [0; STATE_SIZE],
            cal: [0; 4096],
            meas: [0; 4096],
        }
    }

    pub fn power_up(&mut self, start: u32) -> Result<(), NoState>
        ensures does { Powers (power_up_of self.old.state start) result self.new.state }
        ensures cal { self.new.cal ≡ self.old.cal }
        ensures meas { self.new.meas ≡ self.old.meas }
    {
        session::power_up(&mut self.state, start)
    }

    pub fn receive_byte(&mut self, byte: u8) -> Result<Heard, NoState>
        ensures does { Receives (receive_of self.old.state self.old.cal self.old.meas byte) result self.new.state self.new.cal }
        ensures meas { self.new.meas ≡ self.old.meas }
    {
        session::receive_byte(&mut self.state, &mut self.cal, &self.meas, byte)
    }

    #[tactic(auto, using(session::proofs::Slicing::taken_most_lem))]
    pub fn receive_bytes(&mut self, bytes: &[u8]) -> Took
        ensures does { ReceivesBytes (receive_bytes_of self.old.state self.old.cal self.old.meas bytes.now) result self.new.state self.new.cal }
        ensures within { result.taken ≤ length bytes.now }
        ensures meas { self.new.meas ≡ self.old.meas }
    {
        session::receive_bytes(&mut self.state, &mut self.cal, &self.meas, bytes)
    }

    pub fn event(&mut self, number: u32, clock: u16) -> Result<Counted, EventRefusal>
        ensures does { Happens (event_of self.old.state self.old.cal self.old.meas number clock) result self.new.state }
        ensures cal { self.new.cal ≡ self.old.cal }
        ensures meas { self.new.meas ≡ self.old.meas }
    {
        session::event(&mut self.state, &self.cal, &self.meas, number, clock)
    }

    pub fn slot(&mut self, out: &mut [u8]) -> Result<Option<usize>, SlotRefusal>
        ensures does { Sends (slot_of self.old.state out.old) result self.new.state out.new }
        ensures cal { self.new.cal ≡ self.old.cal }
        ensures meas { self.new.meas ≡ self.old.meas }
    {
        session::slot(&mut self.state, out)
    }

    // The frame that a slot writes; no bytes where nothing waits.
    pub fn take_frame(&mut self) -> Bytes
        ensures frame { let o = slot_of self.old.state (replicate room 0) in take result.count result.all ≡ frame_in o.slotted o.out }
        ensures state { self.new.state ≡ (slot_of self.old.state (replicate room 0)).state }
        ensures cal { self.new.cal ≡ self.old.cal }
        ensures meas { self.new.meas ≡ self.old.meas }
    {
        // It is written where it lies, and not copied out of a room of its own.
        let mut frame = Bytes {
            all: [0; ROOM],
            count: 0,
        };
        let size = self.slot(&mut frame.all).ok().flatten().unwrap_or(0);
        frame.count = size.min(ROOM);
        frame
    }

    // Puts measured bytes into their memory from a place on. Bytes past its end have no place and are left out.
    pub fn measure(&mut self, at: usize, bytes: &[u8])
        ensures state { self.new.state ≡ self.old.state }
        ensures cal { self.new.cal ≡ self.old.cal }
        ensures meas { self.new.meas ≡ stored_in self.old.meas at bytes.now }
    {
        let from = at.min(ADDRESSABLE);
        let count = bytes.len().min(ADDRESSABLE - from);
        self.meas[from..from + count].copy_from_slice(&bytes[..count]);
    }
}
