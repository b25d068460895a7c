// Blocks of lent bytes, copied from the back, four bytes at a time: a processor that can makes one load and one store of them. Places and what is left come
// in 32 bits: a small processor has no others. The library's copy_from_slice is a call of memcpy: on a Cortex-M4 at -Os that is 4 instructions a byte wherever
// the two places are not both a word's, as in an answer, and here 16 bytes are 13 instructions.
ghost use Rattle.std.specs.Prelude.{◌≡◌, ◌+◌, ◌≤◌, length};
ghost use Rattle.state.specs.Bytes.{copied};

// All four are read before one is written.
fn copy_four(dst: &mut [u8], at: usize, src: &[u8], from: usize)
    requires { (at + 4 ≤ length dst.old) × (from + 4 ≤ length src.now) }
    ensures { dst.new ≡ copied dst.old at src.now from 4 }
{
    let a = src[from];
    let b = src[from + 1];
    let c = src[from + 2];
    let d = src[from + 3];
    dst[at] = a;
    dst[at + 1] = b;
    dst[at + 2] = c;
    dst[at + 3] = d;
}

fn copy_few(dst: &mut [u8], at: u32, src: &[u8], from: u32, n: u32)
    requires { (at + n ≤ length dst.old) × (from + n ≤ length src.now) }
    ensures { dst.new ≡ copied dst.old at src.now from n }
{
    for i in (0..n).rev() {
        dst[at as usize + i as usize] = src[from as usize + i as usize];
    }
}

// The n bytes of src from `from` into dst from `at`.
pub fn copy(dst: &mut [u8], at: u32, src: &[u8], from: u32, n: u8)
    requires { (at + n ≤ length dst.old) × (from + n ≤ length src.now) }
    ensures { dst.new ≡ copied dst.old at src.now from n }
{
    let mut i = n as u32;
    while 4 <= i {
        i -= 4;
        copy_four(
            dst,
            at as usize + i as usize,
            src,
            from as usize + i as usize,
        );
    }
    copy_few(dst, at, src, from, i);
}
