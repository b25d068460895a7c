// Received bytes in a slice. The reader's place stays in registers until a byte ends something, which `receive` then takes.
ghost use Rattle.std.specs.Prelude.{◌≡◌, ◌≢◌, ◌+◌, ◌≤◌, ◌<◌, length};
ghost use Rattle.line.specs.Stuffing.{SYNC as sync, ESC as esc};
ghost use Rattle.session.specs.Slice.{ReceivesBytes, bytes_of, taken_most};
ghost use Rattle.session.specs.Quiet.{placed, reads_as, Stands, Steps, Fits, Runs, Skips, Passes};

use crate::receive::receive;
use crate::{State, Took};
use line::{ESC, SYNC};
use state::layout;
use words::Heard;

// The reader's place, as PLACE and COUNT have it. The tag stays the number that PLACE has in the state, whose form docs/STATE.md fixes.
#[derive(Clone, Copy)]
struct At {
    tag: u8,
    k: u8,
}

// The tag as it reads: a place that no message can have is outside.
fn reads(s: &State, tag: u8, k: u8) -> u8
    ensures { result ≡ reads_as s.now tag k }
{
    if 2 < tag {
        return 0;
    }
    if k == 0 {
        return tag;
    }
    let len = s[layout::MESSAGE];
    if len == 0 {
        return 0;
    }
    if layout::PACKET_MOST < len {
        return 0;
    }
    if len + 2 < k {
        return 0;
    }
    tag
}

// A byte behind ESC. Here and in the three below, a byte that ends something is left, and gives no place.
fn escaped(s: &mut State, k: u8, byte: u8) -> Option<At>
    requires { Stands s.old 2 k × (byte ≢ sync) }
    ensures { Steps s.old 2 k byte result s.new }
{
    if 1 < byte {
        return None;
    }
    if k == 0 {
        return None;
    }
    if s[layout::MESSAGE] + 2 <= k {
        return None;
    }
    s[layout::MESSAGE + k as usize] = ESC - byte;
    Some(At { tag: 1, k: k + 1 })
}

// LEN.
fn first(s: &mut State, byte: u8) -> Option<At>
    requires { (byte ≢ sync) × (byte ≢ esc) }
    ensures { Steps s.old 1 0 byte result s.new }
{
    if byte == 0 {
        return None;
    }
    if layout::PACKET_MOST < byte {
        return None;
    }
    s[layout::MESSAGE] = byte;
    Some(At { tag: 1, k: 1 })
}

// A byte behind LEN.
fn inside(s: &mut State, k: u8, byte: u8) -> Option<At>
    requires { Stands s.old 1 k × (1 ≤ k) × (byte ≢ sync) × (byte ≢ esc) }
    ensures { Steps s.old 1 k byte result s.new }
{
    if s[layout::MESSAGE] + 2 <= k {
        return None;
    }
    s[layout::MESSAGE + k as usize] = byte;
    Some(At { tag: 1, k: k + 1 })
}

// One byte, with the reader's place beside the state: the place behind it.
fn step(s: &mut State, tag: u8, k: u8, byte: u8) -> Option<At>
    requires { Stands s.old tag k }
    ensures { Steps s.old tag k byte result s.new }
{
    if byte == SYNC {
        if tag == 0 {
            return Some(At { tag: 1, k: 0 });
        }
        if tag == 2 {
            return None;
        }
        if k == 0 {
            return Some(At { tag: 1, k: 0 });
        }
        return None;
    }
    if tag == 0 {
        return Some(At { tag: 0, k });
    }
    if tag == 2 {
        return escaped(s, k, byte);
    }
    if byte == ESC {
        return Some(At { tag: 2, k });
    }
    if k == 0 {
        return first(s, byte);
    }
    inside(s, k, byte)
}

// How many bytes of the message may come before its last, of those that are left.
fn room(s: &State, tag: u8, k: u8, left: u32) -> u32
    requires { Stands s.now tag k }
    ensures { (result ≤ left) × (0 < result → Fits s.now tag k result) }
{
    if tag != 1 {
        return 0;
    }
    if k == 0 {
        return 0;
    }
    let more = (s[layout::MESSAGE] + 2 - k) as u32;
    if left < more {
        return left;
    }
    more
}

// Bytes of a message from its byte k on, up to the first SYNC or ESC, which differ in the last bit alone. Answers how many.
fn run(s: &mut State, k: u8, bytes: &[u8], from: u32, most: u32) -> u32
    requires { (from + most ≤ length bytes.now) × (length bytes.now ≤ taken_most) × (0 < most → Fits s.old 1 k most) }
    ensures { (result ≤ most) × Runs bytes.now s.old k from result s.new }
{
    for i in 0..most {
        let byte = bytes[(from + i) as usize];
        if byte / 2 == SYNC / 2 {
            return i;
        }
        s[layout::MESSAGE + (k as u32 + i) as usize] = byte;
    }
    most
}

// Where the next SYNC stands, or the end: outside a message nothing else is looked at. Inside, and behind ESC, it is here.
fn skip(tag: u8, bytes: &[u8], from: u32, n: u32) -> u32
    requires { (from ≤ n) × (n ≡ length bytes.now) }
    ensures { Skips bytes.now tag from result }
{
    if tag != 0 {
        return from;
    }
    for i in from..n {
        if bytes[i as usize] == SYNC {
            return i;
        }
    }
    n
}

// Puts the reader's place into the state.
fn settle(s: &mut State, tag: u8, k: u8)
    ensures { s.new ≡ placed s.old tag k }
{
    s[layout::PLACE] = tag;
    s[layout::COUNT] = k;
}

// Takes the bytes before the first that ends something, or all. Answers how many.
fn pass(s: &mut State, bytes: &[u8]) -> u32
    requires { length bytes.now ≤ taken_most }
    ensures { Passes bytes.now s.old result s.new }
{
    let n = bytes.len() as u32;
    if n == 0 {
        return 0;
    }
    let mut k = s[layout::COUNT];
    let mut tag = reads(s, s[layout::PLACE], k);
    let mut i: u32 = 0;
    // No `for`: i goes on by as many bytes as were skipped or went into the message.
    while i < n {
        i = skip(tag, bytes, i, n);
        let most = room(s, tag, k, n - i);
        let went = run(s, k, bytes, i, most);
        k += went as u8;
        i += went;
        if i == n {
            settle(s, tag, k);
            return i;
        }
        let Some(at) = step(s, tag, k, bytes[i as usize]) else {
            settle(s, tag, k);
            return i;
        };
        tag = at.tag;
        k = at.k;
        i += 1;
    }
    settle(s, tag, k);
    i
}

// Bytes in a consistent state.
pub fn receive_all(s: &mut State, cal: &mut [u8], meas: &[u8], bytes: &[u8]) -> Took
    requires { length bytes.now ≤ taken_most }
    ensures { ReceivesBytes (bytes_of s.old cal.old meas.now bytes.now) result s.new cal.new }
{
    let taken = pass(s, bytes);
    if bytes.len() <= taken as usize {
        return Took {
            received: Ok(Heard::Nothing),
            taken,
        };
    }
    let received = receive(s, cal, &meas[0..], bytes[taken as usize]);
    Took {
        received,
        taken: taken + 1,
    }
}
