// The checksum of a message.
ghost use Rattle.std.specs.Prelude.{◌≡◌, ◌+◌, ◌%◌};
ghost use Rattle.line.specs.Message.{sum};

// The sum of bytes and what came before them, modulo 256.
#[tactic(auto, using(crate::proofs::Laws::sum_next))]
pub fn sum_of(before: u8, bytes: &[u8]) -> u8
    ensures { result ≡ (before + sum bytes.now) % 256 }
{
    let mut s = before;
    for byte in bytes {
        s = s.wrapping_add(*byte);
    }
    s
}
