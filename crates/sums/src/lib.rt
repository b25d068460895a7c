// The sum of a block's bytes, modulo 65,536: what BUILD_CHECKSUM answers. Words of four bytes are summed in lanes (lanes.rt),
// the few bytes behind the last word one by one. Nothing is kept from call to call: lent memory may change between them.
#![tactic(auto)]

ghost use Rattle.std.specs.Prelude.{◌≡◌, ◌*◌, ◌%◌, ◌≤◌, length, take};
ghost use Rattle.line.specs.Message.{sum};
ghost use Rattle.state.specs.Memory.{block_sum};
ghost use Rattle.sums.specs.Run.{run_words};

use crate::lanes::{even, folded, upper};
use state::bytes::block;

mod lanes;

// The most words before their lanes are folded.
const RUN: u32 = 256;

const RUN_BYTES: usize = 4 * RUN as usize;

// For any place and any size: what is not there is not summed.
#[tactic(auto, unfolding(state::specs::Memory::block_sum))]
pub fn block_sum(mem: &[u8], at: usize, n: usize) -> u32
    ensures { result ≡ block_sum mem.now at n }
{
    sum_of(block(mem, at, n))
}

// Runs of words, the words behind them, the bytes behind these. Where the sum wraps, its last 16 bits stay right.
fn sum_of(part: &[u8]) -> u32
    ensures { result ≡ sum part.now % 65536 }
{
    let mut sum: u32 = 0;
    let mut rest = part;
    while let Some((run, behind)) = rest.split_first_chunk::<RUN_BYTES>() {
        sum = sum.wrapping_add(sum_of_words(run, RUN));
        rest = behind;
    }
    let words = (rest.len() / 4) as u32;
    sum = sum.wrapping_add(sum_of_words(rest, words));
    for byte in &rest[4 * words as usize..] {
        sum = sum.wrapping_add(*byte as u32);
    }
    sum % 65536
}

// The first words of a part, a run of them at most. Inlined, so that for a run the compiler knows the count and takes many words a turn.
#[inline(always)]
fn sum_of_words(part: &[u8], words: u32) -> u32
    requires { (words ≤ run_words) × (4 * words ≤ length part.now) }
    ensures { result ≡ sum (take (4 * words) part.now) }
{
    let mut evens: u32 = 0;
    let mut uppers: u32 = 0;
    for i in 0..words {
        let at = 4 * i as usize;
        evens += even(part, at);
        uppers += upper(part, at);
    }
    folded(evens, uppers)
}
