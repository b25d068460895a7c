// The bytes that a line of the sheet has in capital hex: as many as the longest frame has, at most.
ghost use Rattle.std.specs.Prelude.{◌≡◌, ◌≤◌, min};
ghost use Rattle.std.proofs.lemmas.List.Edits.{sets};
ghost use Rattle.line.specs.Message.{room};
ghost use Rattle.syntax.specs.Columns.{expected_most, last_most};
ghost use Rattle.syntax.specs.Hex.{hex_of, byte_at, pairs_from, value_at, values_from};

use line::ROOM;
use state::bytes::get;

// The library's to_digit reads small letters too.
#[tactic(auto, unfolding(crate::specs::Hex::hex_of))]
fn digit(c: u8) -> Option<u8>
    ensures { result ≡ hex_of c }
{
    match c {
        b'0'..=b'9' => Some(c - b'0'),
        b'A'..=b'F' => Some(c - b'A' + 10),
        _ => None,
    }
}

// The byte whose two digits stand at a place.
#[tactic(auto, using(crate::proofs::Lists::digit_low), unfolding(crate::specs::Hex::byte_at))]
fn byte(text: &[u8], at: usize) -> Option<u8>
    requires { at ≤ last_most }
    ensures { result ≡ byte_at text.now at }
{
    let high = digit(get(text, at))?;
    let low = digit(get(text, at + 1))?;
    Some(high * 16 + low)
}

// How many bytes stand in a text from a place on.
#[tactic(auto, using(crate::proofs::Lists::pairs_first, crate::proofs::Lists::pairs_none, crate::proofs::Lists::pairs_last, crate::proofs::Lists::pairs_next, crate::proofs::Lists::pairs_end))]
pub fn pairs(text: &[u8], at: usize) -> usize
    requires { at ≤ expected_most }
    ensures { (result ≤ room) × (result ≡ pairs_from room text.now at) }
{
    for n in 0..ROOM {
        let place = at + 3 * n;
        if byte(text, place).is_none() {
            return n;
        }
        if get(text, place + 2) != b' ' {
            return n + 1;
        }
    }
    ROOM
}

// The byte at a place; 0 where none stands there, as the definition `value_at` has it, by which `bytes` and `expected` promise any line's.
#[tactic(auto, unfolding(crate::specs::Hex::value_at))]
pub fn value(text: &[u8], at: usize) -> u8
    requires { at ≤ last_most }
    ensures { result ≡ value_at text.now at }
{
    byte(text, at).unwrap_or(0)
}

// Puts as many bytes, from a place on, at the front of a list: as many as it has room for, at most. The whole list is lent, as `bytes` and
// `expected` promise what lies behind them.
#[tactic(auto, using(crate::proofs::Lists::list_first, crate::proofs::Lists::list_next))]
pub fn list(text: &[u8], at: usize, count: usize, out: &mut [u8; ROOM])
    requires { at ≤ expected_most }
    ensures { out.new ≡ sets out.old 0 (values_from (min count room) text.now at) }
{
    for i in 0..count.min(ROOM) {
        out[i] = value(text, at + 3 * i);
    }
}
