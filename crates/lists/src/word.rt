// An entry's bytes as one word, lowest first: four of them are one load and one store where the processor has words at any address. Places are reckoned
// in 32 bits: a small processor has no others.
ghost use Rattle.std.specs.Prelude.{◌≡◌, ◌+◌, ◌<◌, ◌≤◌, length};
ghost use Rattle.std.proofs.lemmas.List.Edits.{sets};
ghost use Rattle.state.specs.Layout.{size};
ghost use Rattle.state.specs.Memory.{pick, reach, byte_of};
ghost use Rattle.lists.specs.Word.{word_bytes, Holds};

use state::layout;
use state::memory::reach;
use words::Extension;

// What a byte that is not inside reads.
const OUTSIDE: u8 = 0;

// Four bytes that all lie inside.
fn inside(mem: &[u8], at: usize) -> u32
    requires { at + 4 ≤ reach (length mem.now) }
    ensures { Holds result mem.now at }
{
    u32::from_le_bytes([mem[at], mem[at + 1], mem[at + 2], mem[at + 3]])
}

// A memory that an event was lent, with how much of it can be addressed: reckoned once an event.
#[derive(Clone, Copy)]
pub struct Memory<'a> {
    pub bytes: &'a [u8],
    end: u32,
    ghost reached: { end ≡ reach (length bytes.now) },
}

impl<'a> Memory<'a> {
    fn new(bytes: &'a [u8]) -> Memory<'a>
        ensures { result.bytes.now ≡ bytes.now }
    {
        Memory {
            bytes,
            end: reach(bytes.len()) as u32,
        }
    }

    fn byte(&self, at: u32) -> u8
        ensures { result ≡ byte_of self.now.bytes.now at }
    {
        if at < self.end {
            self.bytes[at as usize]
        } else {
            OUTSIDE
        }
    }

    // Four bytes of which the last does not, nor perhaps those before it.
    fn across(&self, at: u32) -> u32
        requires { (at < 65536) × (reach (length self.now.bytes.now) < at + 4) }
        ensures { Holds result self.now.bytes.now at }
    {
        u32::from_le_bytes([self.byte(at), self.byte(at + 1), self.byte(at + 2), OUTSIDE])
    }

    // The four bytes from an address on. Each memory asks by itself, so that what it asks stands in its place when compiled.
    #[inline(always)]
    fn word(&self, address: u16) -> u32
        ensures { Holds result self.now.bytes.now address }
    {
        let at = address as u32;
        if at + 4 <= self.end {
            return inside(self.bytes, at as usize);
        }
        self.across(at)
    }
}

// Both memories of an event.
#[derive(Clone, Copy)]
pub struct Memories<'a> {
    pub cal: Memory<'a>,
    pub meas: Memory<'a>,
}

impl<'a> Memories<'a> {
    pub fn new(cal: &'a [u8], meas: &'a [u8]) -> Memories<'a>
        ensures { (result.cal.bytes.now ≡ cal.now) × (result.meas.bytes.now ≡ meas.now) }
    {
        Memories {
            cal: Memory::new(cal),
            meas: Memory::new(meas),
        }
    }

    pub fn word(&self, extension: Extension, address: u16) -> u32
        ensures { Holds result (pick extension self.now.cal.bytes.now self.now.meas.bytes.now) address }
    {
        match extension {
            Extension::Calibration => self.cal.word(address),
            Extension::Measured => self.meas.word(address),
        }
    }
}

fn put_four(s: &mut [u8; layout::STATE], to: usize, w: u32)
    requires { to + 4 ≤ size }
    ensures { s.new ≡ sets s.old to (word_bytes w 4) }
{
    let [first, second, third, last] = w.to_le_bytes();
    s[to] = first;
    s[to + 1] = second;
    s[to + 2] = third;
    s[to + 3] = last;
}

fn put_few(s: &mut [u8; layout::STATE], to: usize, w: u32, n: u8)
    requires { (1 ≤ n) × (n < 4) × (to + n ≤ size) }
    ensures { s.new ≡ sets s.old to (word_bytes w n) }
{
    let [first, second, third, _] = w.to_le_bytes();
    s[to] = first;
    if n == 1 {
        return;
    }
    s[to + 1] = second;
    if n == 2 {
        return;
    }
    s[to + 2] = third;
}

// The lowest n bytes of a word into the state.
pub fn put(s: &mut [u8; layout::STATE], to: usize, w: u32, n: u8)
    requires { (1 ≤ n) × (n ≤ 4) × (to + n ≤ size) }
    ensures { s.new ≡ sets s.old to (word_bytes w n) }
{
    if n == 4 {
        put_four(s, to, w);
        return;
    }
    put_few(s, to, w, n);
}
