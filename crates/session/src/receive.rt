// A received byte in a consistent state, whatever it ends.
ghost use Rattle.std.specs.Prelude.{◌≡◌, ◌≤◌};
ghost use Rattle.state.specs.Layout.{packet_most, packet_at};
ghost use Rattle.state.specs.Bytes.{block};
ghost use Rattle.session.specs.Receive.{Receives, heeded, fed_of, received_by, dropped_as};
ghost use Rattle.model.specs.Heed.{good_connect};

use crate::perform::perform;
use crate::{State, deeds, place};
use line::Fault;
use look::judge;
use state::{fields, layout};
use words::{Heard, NoState};

// Whether the packet of n bytes is a good CONNECT.
fn good_connect(s: &State, n: u8) -> bool
    requires { (1 ≤ n) × (n ≤ packet_most) }
    ensures { result ≡ good_connect (block s.now packet_at n) }
{
    if s[layout::PACKET] != 0xFF {
        return false;
    }
    if n < 2 {
        return false;
    }
    s[layout::PACKET_1] == 0
}

// The state and the two memories come one by one, as the C interface lends them.
// A good message, whose packet has n bytes. `judge` and `perform` have one caller each, so that they stand in its place when compiled.
fn heed(s: &mut State, cal: &mut [u8], meas: &[u8], n: u8) -> Result<Heard, NoState>
    requires { (1 ≤ n) × (n ≤ packet_most) }
    ensures { Receives (heeded (block s.old packet_at n) s.old cal.old meas.now) result s.new cal.new }
{
    if 0 < fields::answer_length(s) {
        return Ok(Heard::Unread);
    }
    if fields::flag(s, layout::OPEN) {
        let deed = judge(s, n, cal.len(), meas.len());
        perform(deed, s, cal, meas, n);
        return Ok(Heard::Answered);
    }
    if good_connect(s, n) {
        deeds::connect(s);
        return Ok(Heard::Answered);
    }
    Ok(Heard::Silent)
}

// Why the line dropped a message, as the session tells it.
fn dropped(fault: Fault) -> Result<Heard, NoState>
    ensures { result ≡ dropped_as fault }
{
    match fault {
        Fault::BadLength => Ok(Heard::BadLength),
        Fault::BadEscape => Ok(Heard::BadEscape),
        Fault::BadChecksum => Ok(Heard::BadChecksum),
        Fault::CutOff => Ok(Heard::CutOff),
        Fault::ShortBuffer => Err(NoState),
    }
}

// The line says what ended, then the session says what it means.
fn read(s: &mut State, cal: &mut [u8], meas: &[u8], byte: u8) -> Result<Heard, NoState>
    ensures { Receives (received_by (fed_of s.old byte) s.old cal.old meas.now) result s.new cal.new }
{
    let at = place::place(s);
    let taken = line::take(at, &mut s[layout::MESSAGE..layout::ANSWER], byte);
    place::set_place(s, taken.place);
    match taken.outcome {
        Ok(None) => Ok(Heard::Nothing),
        Ok(Some(message)) => heed(s, cal, meas, message.len as u8),
        Err(fault) => dropped(fault),
    }
}

// What the byte call and the slice call share, for a byte that may end something. It is compiled by itself, and takes each slice out of memory once.
pub fn receive(s: &mut State, cal: &mut [u8], meas: &[u8], byte: u8) -> Result<Heard, NoState>
    ensures { Receives (received_by (fed_of s.old byte) s.old cal.old meas.now) result s.new cal.new }
{
    read(s, &mut cal[0..], &meas[0..], byte)
}
