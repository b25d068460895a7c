// Words of four bytes, summed in lanes of 16 bits.
//
// Of the bytes b0 to b3 of each word two sums are kept: `even` adds b0 + 65,536 b2, and `upper` adds b1 + 256 b2 + 65,536 b3, the
// word without its lowest byte. Once the third bytes, which `even` has, are taken off `upper`, each of the four lanes is the sum
// of every fourth byte. On a Cortex-M4 that is four instructions a word: a load, a mask, an addition, and one that shifts and
// adds. Each of the two reads the word: where it is one load, the compiler makes it once; where it is not, each takes only the
// bytes that it adds.
ghost use Rattle.std.specs.Prelude.{◌≡◌, ◌+◌, ◌-◌, ◌*◌, ◌/◌, ◌%◌, ◌≤◌, length, slice_index};

// One load, where the processor has words at any address. A place and its slice come by themselves: a pair of both would be made anew for each word.
fn word(part: &[u8], at: usize) -> u32
    requires { at + 4 ≤ length part.now }
    ensures { result ≡ slice_index part.now at + 256 * slice_index part.now (at + 1) + 65536 * slice_index part.now (at + 2) + 16777216 * slice_index part.now (at + 3) }
{
    u32::from_le_bytes([part[at], part[at + 1], part[at + 2], part[at + 3]])
}

// The first and the third byte.
pub fn even(part: &[u8], at: usize) -> u32
    requires { at + 4 ≤ length part.now }
    ensures { result ≡ slice_index part.now at + 65536 * slice_index part.now (at + 2) }
{
    let w = word(part, at);
    w % 256 + 65536 * (w / 65536 % 256)
}

// All but the first byte.
pub fn upper(part: &[u8], at: usize) -> u32
    requires { at + 4 ≤ length part.now }
    ensures { result ≡ slice_index part.now (at + 1) + 256 * slice_index part.now (at + 2) + 65536 * slice_index part.now (at + 3) }
{
    word(part, at) / 256
}

// All four lanes together.
pub fn folded(evens: u32, uppers: u32) -> u32
    requires { 256 * (evens / 65536) ≤ uppers }
    ensures { result ≡ evens % 65536 + evens / 65536 + (uppers - 256 * (evens / 65536)) % 65536 + (uppers - 256 * (evens / 65536)) / 65536 }
{
    let thirds = evens / 65536;
    let odds = uppers - 256 * thirds;
    evens % 65536 + thirds + odds % 65536 + odds / 65536
}
