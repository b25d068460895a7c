// A sending slot: whose turn it is, and one frame.
ghost use Rattle.std.specs.Prelude.{◌≡◌, ◌+◌, ◌-◌, ◌<◌, ◌≤◌, true, false, not, length, if◌then◌else◌, nat_eq};
ghost use Rattle.state.specs.Layout.{lists, all_odts, last_at, size};
ghost use Rattle.state.specs.Pool.{list_count, first_odt, odt_count};
ghost use Rattle.state.specs.State.{open_of, waits, flag_of};
ghost use Rattle.model.specs.Calls.{first_packet, packet_in, round_in, list_after};
ghost use Rattle.model.specs.View.{session_of};
ghost use Rattle.lists.specs.Slot.{turn_of, numbered_in, slotted_as, sent_by, Sends, slot_of};

use crate::{list, spans};
use line::Unwritten;
use model::Sender;
use state::{fields, layout, pool};
use words::SlotRefusal;

// The first packet in store of a list with n ODTs, of which k is the first. It is named by its ODT's number.
fn first_stored(s: &[u8; layout::STATE], l: u8, k: u16, n: u16) -> Option<Sender>
    requires { (l < list_count s.now) × (k ≡ first_odt s.now l) × (n ≡ odt_count s.now l) × (k + n ≤ all_odts) }
    ensures { result ≡ numbered_in s.now (first_packet l ((session_of s.now).list l) 0 (odt_count s.now l)) }
{
    (0..n)
        .find(|o| 0 < list::stored_length(s, k + *o))
        .map(|o| Sender::Packet(l, (k + o) as u8))
}

// A list's next packet, in a session that is open: one without ODTs has none, whether it was started or not.
fn packet_in(s: &[u8; layout::STATE], l: u8, k: u16, n: u16) -> Option<Sender>
    requires { (open_of s.now ≡ true) × (l < list_count s.now) × (k ≡ first_odt s.now l) × (n ≡ odt_count s.now l) × (k + n ≤ all_odts) }
    ensures { result ≡ numbered_in s.now (packet_in (session_of s.now) l) }
{
    if list::on(s, layout::running_at(l as u16)) {
        return first_stored(s, l, k, n);
    }
    None
}

// After the last of the lists comes list 0.
fn list_after(count: u8, l: u8) -> u8
    requires { l < count }
    ensures { result ≡ list_after count l }
{
    if l + 1 < count {
        return l + 1;
    }
    0
}

// Its first ODT, which is k where it is not list 0.
fn first_after(l: u8, k: u16) -> u16
    ensures { result ≡ (if nat_eq l 0 then 0 else k) }
{
    if l == 0 {
        return 0;
    }
    k
}

// The next list that has a packet, from the one with which the round begins, in a session that is open. Its first ODT is kept on the way.
fn round(s: &[u8; layout::STATE]) -> Option<Sender>
    requires { open_of s.now ≡ true }
    ensures { result ≡ numbered_in s.now (round_in (session_of s.now)) }
{
    let count = pool::list_count(s);
    // Most slots of a session without lists end here.
    if count == 0 {
        return None;
    }
    let mut l = pool::round(s);
    let mut k = spans::first_odt(s, l);
    for _ in 0..count {
        let n = spans::odts_in(s, l, k);
        let turn = packet_in(s, l, k, n);
        if turn.is_some() {
            return turn;
        }
        l = list_after(count, l);
        k = first_after(l, k + n);
    }
    None
}

// An answer that waits goes first, unless the last frame was one.
fn answer_first(s: &[u8]) -> bool
    ensures { result ≡ (if waits s.now then not (flag_of s.now last_at) else false) }
{
    if 0 < fields::answer_length(s) {
        return !fields::flag(s, layout::LAST);
    }
    false
}

// Else it goes behind the lists.
fn answer_behind(s: &[u8]) -> Option<Sender>
    ensures { result ≡ (if waits s.now then Some Sender.Answer else None) }
{
    if 0 < fields::answer_length(s) {
        return Some(Sender::Answer);
    }
    None
}

// The lists' turn: without an open session no list runs. The round has one caller, so that it stands in its place when compiled.
fn lists_turn(s: &[u8; layout::STATE]) -> Option<Sender>
    ensures { result ≡ numbered_in s.now (round_in (session_of s.now)) }
{
    if list::on(s, layout::OPEN) {
        return round(s);
    }
    None
}

fn turn(s: &[u8; layout::STATE]) -> Option<Sender>
    ensures { result ≡ numbered_in s.now (turn_of s.now) }
{
    if answer_first(s) {
        return Some(Sender::Answer);
    }
    lists_turn(s).or(answer_behind(s))
}

fn slotted(written: Result<usize, Unwritten>) -> Result<Option<usize>, SlotRefusal>
    ensures { result ≡ slotted_as written }
{
    match written {
        Ok(size) => Ok(Some(size)),
        Err(Unwritten::BadLength) => Ok(None),
        Err(Unwritten::NoRoom) => Err(SlotRefusal::NoRoom),
    }
}

// The answer's frame. Its first byte is written as it reads.
fn send_answer(s: &mut [u8; layout::STATE], out: &mut [u8]) -> Result<Option<usize>, SlotRefusal>
    ensures { Sends (sent_by (Some Sender.Answer) s.old out.old) result s.new out.new }
{
    let n = fields::answer_length(s) as usize;
    let ctr = s[layout::CTR];
    s[layout::ANSWER_BYTES] = fields::answer_kind(s);
    let end = layout::ANSWER_BYTES + n;
    let written = line::write(&s[layout::ANSWER_BYTES..end], ctr, out);
    s[layout::ANSWER] = 0;
    s[layout::CTR] = line::next_ctr(ctr);
    s[layout::LAST] = 1;
    slotted(written)
}

// The frame of the packet of ODT k, which is list l's. The number goes where the packet's length stood, before the bytes.
fn send_packet(
    s: &mut [u8; layout::STATE],
    out: &mut [u8],
    l: u8,
    k: u8,
) -> Result<Option<usize>, SlotRefusal>
    requires { (l < list_count s.old) × (first_odt s.old l ≤ k) × (k < first_odt s.old l + odt_count s.old l) }
    ensures { Sends (sent_by (Some (Sender.Packet l (k - first_odt s.old l))) s.old out.old) result s.new out.new }
{
    let at = layout::sample_at(k as u16);
    let n = list::stored_length(s, k as u16) as usize;
    let ctr = s[layout::CTR];
    s[at] = k;
    let end = at + 1 + n;
    let written = line::write(&s[at..end], ctr, out);
    s[at] = 0;
    s[layout::CTR] = line::next_ctr(ctr);
    s[layout::ROUND] = l + 1;
    s[layout::LAST] = 0;
    slotted(written)
}

fn send(s: &mut [u8; layout::STATE], out: &mut [u8]) -> Result<Option<usize>, SlotRefusal>
    ensures { Sends (sent_by (turn_of s.old) s.old out.old) result s.new out.new }
{
    let t = turn(s);
    match t {
        None => Ok(None),
        Some(Sender::Answer) => send_answer(s, out),
        Some(Sender::Packet(l, k)) => send_packet(s, out, l, k),
    }
}

// One sending slot, in a state of any size.
pub fn slot(state: &mut [u8], out: &mut [u8]) -> Result<Option<usize>, SlotRefusal>
    ensures { Sends (slot_of state.old out.old) result state.new out.new }
{
    if !fields::is_consistent(state) {
        return Err(SlotRefusal::NoState);
    }
    let Some((s, _rest)) = state.split_first_chunk_mut::<{ layout::STATE }>() else {
        return Err(SlotRefusal::NoState);
    };
    if out.len() < layout::ROOM {
        return Err(SlotRefusal::NoRoom);
    }
    send(s, out)
}
