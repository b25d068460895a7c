// The reader: one received byte.
ghost use Rattle.std.specs.Prelude.{◌≡◌, ◌≤◌, true, length, slice_index};
ghost use Rattle.line.specs.Message.{most, longest};
ghost use Rattle.line.specs.Unstuffing.{Does, place_by, cut_of, inside_by};
ghost use Rattle.line.specs.Reader.{begun_of, judged_of, put_of, messages, take_of};

use crate::limits::{ESC, LONGEST, MOST, PACKET_AT, SUM_WIDTH, SYNC, WIDTH};
use crate::sum::sum_of;
use crate::{Fault, Message, Place, Taken};

// Whether k bytes of a message, of which the first is len, may have come with the last still out.
fn begun(k: usize, len: u8) -> bool
    ensures { result ≡ begun_of k len }
{
    let len = len as usize;
    k < WIDTH || 0 < len && len <= MOST && k < PACKET_AT + len + SUM_WIDTH
}

// A place as it reads: one that no message can have is outside. Here and below the whole lent buffer is lent on: its bytes behind the
// longest message stay as they were, and the contract of `take` says so of all. An array of its front alone would need a law beside
// each of these contracts that joins it to the rest.
fn reads(place: Place, message: &[u8]) -> Place
    requires { longest ≤ length message.now }
    ensures { result ≡ place_by messages place message.now }
{
    match place {
        Place::Inside(k) | Place::Escaped(k) if begun(k, message[0]) => place,
        _ => Place::Outside,
    }
}

// What a SYNC says of the message before it.
fn cut(place: Place) -> Result<Option<Message>, Fault>
    ensures { result ≡ cut_of place }
{
    match place {
        Place::Outside | Place::Inside(0) => Ok(None),
        Place::Inside(_) | Place::Escaped(_) => Err(Fault::CutOff),
    }
}

// A whole message in the buffer: good, or with a checksum that differs.
fn judge(message: &[u8]) -> Result<Option<Message>, Fault>
    requires { (longest ≤ length message.now) × (slice_index message.now 0 ≤ most) }
    ensures { result ≡ judged_of message.now }
{
    let len = message[0] as usize;
    let end = PACKET_AT + len;
    let sum = sum_of(0, &message[..end]);
    if message[end] == sum {
        Ok(Some(Message {
            ctr: message[WIDTH],
            at: PACKET_AT,
            len,
        }))
    } else {
        Err(Fault::BadChecksum)
    }
}

// An unescaped byte, after the k that have come.
fn put(k: usize, message: &mut [u8], byte: u8) -> Taken
    requires { (longest ≤ length message.old) × (begun_of k (slice_index message.old 0) ≡ true) }
    ensures { Does (put_of k message.old byte) result message.new }
{
    if k < WIDTH {
        let too_long = MOST < byte as usize;
        if byte == 0 || too_long {
            return Taken {
                place: Place::Outside,
                outcome: Err(Fault::BadLength),
            };
        }
        message[0] = byte;
        return Taken {
            place: Place::Inside(WIDTH),
            outcome: Ok(None),
        };
    }
    let len = message[0] as usize;
    message[k] = byte;
    if k < PACKET_AT + len {
        return Taken {
            place: Place::Inside(k + 1),
            outcome: Ok(None),
        };
    }
    Taken {
        place: Place::Outside,
        outcome: judge(message),
    }
}

// A byte other than SYNC, at a place that a message can have.
fn inside(place: Place, message: &mut [u8], byte: u8) -> Taken
    requires { (longest ≤ length message.old) × (place_by messages place message.old ≡ place) }
    ensures { Does (inside_by messages place message.old byte) result message.new }
{
    match place {
        Place::Outside => Taken {
            place: Place::Outside,
            outcome: Ok(None),
        },
        Place::Inside(k) => {
            if byte == ESC {
                return Taken {
                    place: Place::Escaped(k),
                    outcome: Ok(None),
                };
            }
            put(k, message, byte)
        }
        Place::Escaped(k) => {
            match byte {
                0 => put(k, message, ESC),
                1 => put(k, message, SYNC),
                _ => Taken {
                    place: Place::Outside,
                    outcome: Err(Fault::BadEscape),
                },
            }
        }
    }
}

// One received byte. The message's unescaped bytes gather at the front of the lent buffer.
#[tactic(auto, unfolding(crate::specs::Reader::take_of))]
pub fn take(place: Place, message: &mut [u8], byte: u8) -> Taken
    ensures { Does (take_of place message.old byte) result message.new }
{
    if message.len() < LONGEST {
        return Taken {
            place,
            outcome: Err(Fault::ShortBuffer),
        };
    }
    let here = reads(place, message);
    if byte == SYNC {
        return Taken {
            place: Place::Inside(0),
            outcome: cut(here),
        };
    }
    inside(here, message, byte)
}
