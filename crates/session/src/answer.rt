// The waiting answer as it is written.
ghost use Rattle.std.specs.Prelude.{◌≡◌, [], ◌∷◌, ◌+◌, ◌≤◌, length};
ghost use Rattle.state.specs.Layout.{packet_most, upload_most};
ghost use Rattle.state.specs.Bytes.{block, bytes32};
ghost use Rattle.words.specs.Command.{code_of};
ghost use Rattle.state.specs.State.{answered};

use crate::State;
use crate::blocks::copy;
use state::layout;
use words::Reason;

pub fn put<const N: usize>(s: &mut State, bytes: [u8; N])
    requires { N ≤ packet_most }
    ensures { s.new ≡ answered s.old bytes.entry }
{
    s[layout::ANSWER] = N as u8;
    s[layout::ANSWER_BYTES..layout::ANSWER_BYTES + N].copy_from_slice(&bytes);
}

// FF 04 and a seed.
pub fn seed(s: &mut State, x: u32)
    ensures { s.new ≡ answered s.old (0xFF ∷ 0x04 ∷ bytes32 x) }
{
    let [a, b, c, d] = x.to_le_bytes();
    put(s, [0xFF, 0x04, a, b, c, d]);
}

// FF 02 00 00 and a sum.
pub fn sum(s: &mut State, x: u32)
    ensures { s.new ≡ answered s.old (0xFF ∷ 0x02 ∷ 0x00 ∷ 0x00 ∷ bytes32 x) }
{
    let [a, b, c, d] = x.to_le_bytes();
    put(s, [0xFF, 0x02, 0x00, 0x00, a, b, c, d]);
}

// FF and n bytes of a memory.
pub fn bytes(s: &mut State, mem: &[u8], at: u32, n: u8)
    requires { (n ≤ upload_most) × (at + n ≤ length mem.now) }
    ensures { s.new ≡ answered s.old (0xFF ∷ block mem.now at n) }
{
    s[layout::ANSWER] = n + 1;
    s[layout::ANSWER_BYTES] = 0xFF;
    copy(s, layout::ANSWER_1 as u32, mem, at, n);
}

// FE and the reason's code.
pub fn refusal(s: &mut State, reason: Reason)
    ensures { s.new ≡ answered s.old (0xFE ∷ code_of reason ∷ []) }
{
    put(s, [0xFE, u8::from(reason)]);
}
