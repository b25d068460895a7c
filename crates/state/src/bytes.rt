// Numbers in bytes, lowest byte first, and runs of bytes.
ghost use Rattle.std.specs.Prelude.{◌≡◌, ◌-◌, ◌%◌, ◌<◌, min, slice_index, slice_set};
ghost use Rattle.state.specs.Bytes.{u16_at, u32_at, put32, block, cleared};

// A byte, 0 where there is none, as `slice_index` and so every definition over a state has it.
pub fn get(s: &[u8], at: usize) -> u8
    ensures { result ≡ slice_index s.now at }
{
    if at < s.len() { s[at] } else { 0 }
}

// A byte written, where there is one.
pub fn put(s: &mut [u8], at: usize, b: u8)
    ensures { s.new ≡ slice_set s.old at b }
{
    if at < s.len() {
        s[at] = b;
    }
}

pub fn wide(x: u8) -> u32
    ensures { (result ≡ x) × (result < 256) }
{
    x as u32
}

pub fn low(x: u32) -> u8
    ensures { result ≡ x % 256 }
{
    (x % 256) as u8
}

#[tactic(auto, unfolding(crate::specs::Bytes::u16_at))]
pub fn get16(s: &[u8], at: usize) -> u16
    ensures { result ≡ u16_at s.now at }
{
    if s.len() <= at {
        return 0;
    }
    u16::from_le_bytes([get(s, at), get(s, at + 1)])
}

#[tactic(auto, unfolding(crate::specs::Bytes::u32_at))]
pub fn get32(s: &[u8], at: usize) -> u32
    ensures { result ≡ u32_at s.now at }
{
    if s.len() <= at {
        return 0;
    }
    u32::from_le_bytes([get(s, at), get(s, at + 1), get(s, at + 2), get(s, at + 3)])
}

#[tactic(auto, unfolding(crate::specs::Bytes::put32))]
pub fn store32(s: &mut [u8], at: usize, x: u32)
    ensures { s.new ≡ put32 s.old at x }
{
    if at < s.len() {
        let [first, second, third, last] = x.to_le_bytes();
        put(s, at, first);
        put(s, at + 1, second);
        put(s, at + 2, third);
        put(s, at + 3, last);
    }
}

// Those of the n bytes from `at` that there are.
pub fn block(s: &[u8], at: usize, n: usize) -> &[u8]
    ensures { result.now ≡ block s.now at n }
{
    let from = at.min(s.len());
    let size = n.min(s.len() - from);
    &s[from..from + size]
}

// n zeros from `at`, where there are bytes.
pub fn clear(s: &mut [u8], at: usize, n: usize)
    ensures { s.new ≡ cleared s.old at n }
{
    let from = at.min(s.len());
    let size = n.min(s.len() - from);
    s[from..from + size].fill(0);
}
