// FREE_DAQ and the three allocations: what they write, for any bytes.
ghost use Rattle.std.specs.Prelude.{◌≡◌, ◌+◌, ◌-◌, ◌*◌, ◌≤◌, if◌then◌else◌};
ghost use Rattle.state.specs.Layout.{size, all_entries, entry_size};
ghost use Rattle.state.specs.Bytes.{copied};
ghost use Rattle.state.specs.Pool.{first_odt};
ghost use Rattle.lists.specs.Lists.{is_state};
ghost use Rattle.lists.specs.Alloc.{lists_freed, lists_allocated, odts_allocated, room_made, entries_allocated};

use state::bytes::{clear, put};
use state::{fields, layout, pool};

// Four bytes from `at`, d places further on: all are read before one is written. Within one slice: the copy of `session` is between two, which
// cannot be lent of one.
fn shift_four(s: &mut [u8; layout::STATE], at: usize, d: usize)
    requires { at + d + 4 ≤ size }
    ensures { s.new ≡ copied s.old (at + d) s.old at 4 }
{
    let to = at + d;
    let a = s[at];
    let b = s[at + 1];
    let c = s[at + 2];
    let e = s[at + 3];
    s[to] = a;
    s[to + 1] = b;
    s[to + 2] = c;
    s[to + 3] = e;
}

// The first n of the bytes from `at`, one by one, the last first.
fn shift_few(s: &mut [u8; layout::STATE], at: usize, d: usize, n: u32)
    requires { at + d + n ≤ size }
    ensures { s.new ≡ copied s.old (at + d) s.old at n }
{
    for j in (0..n).rev() {
        s[at + d + j as usize] = s[at + j as usize];
    }
}

// The n bytes from `at`, d places further on, the last first: they may lie one upon the other. Four at a time: a controller's memmove
// (tools/memory.c), which `copy_within` would call, moves them one by one where they overlap, in up to 254 turns for 64. What is left
// is counted down, since the last step may be short.
fn shift(s: &mut [u8; layout::STATE], at: usize, d: usize, n: usize)
    requires { at + d + n ≤ size }
    ensures { s.new ≡ copied s.old (at + d) s.old at n }
{
    let mut j = n as u32;
    while 4 <= j {
        j -= 4;
        shift_four(s, at + j as usize, d);
    }
    shift_few(s, at, d, j);
}

// Without lists nothing else is read.
pub fn free(s: &mut [u8])
    ensures { s.new ≡ lists_freed s.old }
{
    put(s, layout::PHASE, 1);
}

pub fn alloc_lists(s: &mut [u8], n: u8)
    ensures { s.new ≡ lists_allocated s.old n }
{
    clear(s, layout::ODTS, layout::ENTRY - layout::ODTS);
    put(s, layout::ROUND, 0);
    put(s, layout::PHASE, std::num::wrapping_add_u8(n, 1));
}

pub fn alloc_odts(s: &mut [u8], l: u8, n: u8)
    ensures { s.new ≡ odts_allocated s.old l n }
{
    fields::drop_packets(s, 0, layout::ALL_ODTS as u16);
    clear(s, layout::COUNTS, layout::ALL_ODTS as usize);
    put(s, layout::ODTS + l as usize, n);
}

// The bytes of the entries from i on, of m.
fn bytes_behind(i: u16, m: u16) -> usize
    requires { m ≤ all_entries }
    ensures { result ≡ entry_size * (m - i) }
{
    if m < i {
        return 0;
    }
    layout::ENTRY_SIZE * (m - i) as usize
}

// Room for n entries before entry i of m.
fn make_room(s: &mut [u8; layout::STATE], i: u16, m: u16, n: u8)
    requires { (i ≤ all_entries) × (m ≤ all_entries) }
    ensures { s.new ≡ room_made s.old i m n }
{
    let at = layout::entries_at(i);
    let d = layout::ENTRY_SIZE * n as usize;
    shift(s, at, d, bytes_behind(i, m));
    clear(s, at, d);
}

fn make_entries(s: &mut [u8; layout::STATE], k: u16, n: u8)
    ensures { s.new ≡ entries_allocated s.old k n }
{
    let pointer = fields::pointer(s);
    let first = pool::entries(s, k).first;
    let total = pool::entry_total(s);
    make_room(s, first, total, n);
    put(s, layout::COUNTS + k as usize, n);
    fields::set_pointer(s, pointer);
}

// In a state of the right size, and no other.
pub fn alloc_entries(s: &mut [u8], l: u8, odt: u8, n: u8)
    ensures { s.new ≡ (if is_state s.old then entries_allocated s.old (first_odt s.old l + odt) n else s.old) }
{
    if s.len() != layout::STATE {
        return;
    }
    if let Some((s, _rest)) = s.split_first_chunk_mut::<{ layout::STATE }>() {
        let k = pool::odts(s, l as u16).first + odt as u16;
        make_entries(s, k, n);
    }
}
