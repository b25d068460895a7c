// The writer: a packet's frame.
ghost use Rattle.std.specs.Prelude.{◌≡◌, ◌+◌, ◌%◌, ◌≤◌, length};
ghost use Rattle.line.specs.Stuffing.{stuff_byte, stuff};
ghost use Rattle.line.specs.Message.{sum, room, next_ctr};
ghost use Rattle.line.specs.Writer.{Stored, Writes, write_of};

use crate::Unwritten;
use crate::limits::{ESC, MOST, ROOM, SYNC};

// Where the packet's bytes end on the wire, and their sum: two numbers that a pair would leave without names.
#[derive(Clone, Copy)]
struct Summed {
    at: u32,
    sum: u8,
}

// A byte as it stands on the wire, from a place of out on. Answers the place after it. Places are counted in 32 bits: a small processor has no others.
fn stuff_byte(byte: u8, out: &mut [u8], at: u32) -> u32
    requires { (at + 2 ≤ room) × (room ≤ length out.old) }
    ensures { Stored out.old at (stuff_byte byte) out.new result }
{
    let mut end = at;
    out[end as usize] = byte;
    if byte / 2 == SYNC / 2 {
        out[end as usize] = ESC;
        end += 1;
        out[end as usize] = ESC - byte;
    }
    end + 1
}

// A packet as it stands on the wire, likewise, and its sum behind what was summed before.
fn stuff_packet(packet: &[u8], before: u8, out: &mut [u8], from: u32) -> Summed
    requires { (from + (length packet.now + length packet.now) ≤ room) × (room ≤ length out.old) }
    ensures { Stored out.old from (stuff packet.now) out.new result.at × (result.sum ≡ (before + sum packet.now) % 256) }
{
    let mut at = from;
    let mut sum = before;
    // Counted in 32 bits: counted as a usize, each byte costs a small processor one instruction more.
    for i in 0..packet.len() as u32 {
        let byte = packet[i as usize];
        sum = sum.wrapping_add(byte);
        at = stuff_byte(byte, out, at);
    }
    Summed { at, sum }
}

// The frame of a packet at the front of out. LEN is at most 64, and stands there as it is.
#[tactic(auto, unfolding(crate::specs::Writer::write_of))]
pub fn write(packet: &[u8], ctr: u8, out: &mut [u8]) -> Result<usize, Unwritten>
    ensures { Writes (write_of packet.now ctr out.old) result out.new }
{
    let n = packet.len();
    if n == 0 || MOST < n {
        return Err(Unwritten::BadLength);
    }
    if out.len() < ROOM {
        return Err(Unwritten::NoRoom);
    }
    let len = n as u8;
    out[0] = SYNC;
    out[1] = len;
    let from = stuff_byte(ctr, out, 2);
    let end = stuff_packet(packet, len.wrapping_add(ctr), out, from);
    let size = stuff_byte(end.sum, out, end.at) as usize;
    Ok(size)
}

// The CTR of the message after one with this CTR: 255 is followed by 0.
pub fn next_ctr(ctr: u8) -> u8
    ensures { result ≡ next_ctr ctr }
{
    ctr.wrapping_add(1)
}
