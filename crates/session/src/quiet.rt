// A received byte that ends nothing, straight on the state: most bytes are such, and cost what stands here.
ghost use Rattle.std.specs.Prelude.{◌≡◌, ◌≢◌, ◌+◌, ◌≤◌, true, get_or};
ghost use Rattle.line.specs.Reader.{begun_of};
ghost use Rattle.state.specs.Layout.{place_at, count_at};
ghost use Rattle.session.specs.Quiet.{Quiet, len_of};

use crate::State;
use line::{ESC, SYNC};
use state::layout;

// Whether the message goes on behind its byte k, with len in LEN's place.
fn goes_on(k: u8, len: u8) -> bool
    requires { 1 ≤ k }
    ensures { result ≡ begun_of (k + 1) len }
{
    if len == 0 {
        return false;
    }
    if layout::PACKET_MOST < len {
        return false;
    }
    k < len + 2
}

// Outside a message.
fn outside(s: &mut State, byte: u8) -> bool
    requires { get_or s.old place_at 0 ≡ 0 }
    ensures { Quiet s.old byte result s.new }
{
    if byte == SYNC {
        s[layout::PLACE] = 1;
        s[layout::COUNT] = 0;
        return true;
    }
    true
}

// The first byte of a message, LEN.
fn first(s: &mut State, tag: u8, byte: u8) -> bool
    requires { (get_or s.old place_at 0 ≡ tag) × (tag ≢ 0) × (tag ≤ 2) × (get_or s.old count_at 0 ≡ 0) }
    ensures { Quiet s.old byte result s.new }
{
    if tag == 2 {
        return false;
    }
    if byte == SYNC {
        return true;
    }
    if byte == 0 {
        return false;
    }
    if layout::PACKET_MOST < byte {
        return false;
    }
    s[layout::MESSAGE] = byte;
    s[layout::COUNT] = 1;
    true
}

// Byte k of a message that goes on behind it. SYNC and ESC differ in the last bit alone.
fn within(s: &mut State, tag: u8, k: u8, byte: u8) -> bool
    requires { (get_or s.old place_at 0 ≡ tag) × (tag ≢ 0) × (tag ≤ 2) × (get_or s.old count_at 0 ≡ k) × (1 ≤ k) × (begun_of (k + 1) (len_of s.old) ≡ true) }
    ensures { Quiet s.old byte result s.new }
{
    if tag == 2 {
        if 1 < byte {
            return false;
        }
        s[layout::MESSAGE + k as usize] = ESC - byte;
        s[layout::PLACE] = 1;
        s[layout::COUNT] = k + 1;
        return true;
    }
    if byte / 2 == SYNC / 2 {
        if byte == SYNC {
            return false;
        }
        s[layout::PLACE] = 2;
        return true;
    }
    s[layout::MESSAGE + k as usize] = byte;
    s[layout::COUNT] = k + 1;
    true
}

// Whether the byte was taken because it ends nothing. Of those that end nothing, only rare ones are left.
pub fn quiet(s: &mut State, byte: u8) -> bool
    ensures { Quiet s.old byte result s.new }
{
    let tag = s[layout::PLACE];
    if tag == 0 {
        return outside(s, byte);
    }
    if 2 < tag {
        return false;
    }
    let k = s[layout::COUNT];
    if k == 0 {
        return first(s, tag, byte);
    }
    if goes_on(k, s[layout::MESSAGE]) {
        return within(s, tag, k, byte);
    }
    false
}
