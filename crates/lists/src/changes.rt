// The lists: how commands change them, for any bytes.
ghost use Rattle.std.specs.Prelude.{◌≡◌, ◌+◌, ◌<◌, if◌then◌else◌, slice_set};
ghost use Rattle.state.specs.Layout.{lists, selected_at, size};
ghost use Rattle.state.specs.Pool.{list_count, first_odt};
ghost use Rattle.lists.specs.Lists.{is_state, switched, stopped, started, list_cleared, mode_set, tag_of, head_of, entry_set, stop_each, start_one, start_selected, stop_one, stop_selected};

use crate::list::{runs, selected};
use state::bytes::{clear, low, put, wide};
use state::fields::drop_packets;
use state::{layout, pool};
use words::Extension;

// A list switched on or off: its running flag, with all packets dropped.
fn switch(s: &mut [u8], l: u8, on: u8)
    ensures { s.new ≡ switched s.old l on }
{
    let odts = pool::odts(s, l as u16);
    put(s, layout::running_at(l as u16), on);
    drop_packets(s, odts.first, odts.count);
}

pub fn stop(s: &mut [u8], l: u8)
    ensures { s.new ≡ stopped s.old l }
{
    switch(s, l, 0);
}

pub fn start(s: &mut [u8], l: u8)
    ensures { s.new ≡ started s.old l }
{
    switch(s, l, 1);
}

pub fn select(s: &mut [u8], l: u8, on: u8)
    ensures { s.new ≡ slice_set s.old (selected_at l) on }
{
    put(s, layout::selected_at(l as u16), on);
}

// As after E3: each of its entries is zeros.
pub fn clear_list(s: &mut [u8], l: u8)
    ensures { s.new ≡ list_cleared s.old l }
{
    let span = pool::span(s, l as u16);
    let end = pool::entries(s, span.odt + span.odts).first;
    clear(s, layout::mode_at(l as u16), layout::LIST_SIZE);
    let at = layout::entries_at(span.entry);
    clear(s, at, layout::entries_at(end) - at);
}

pub fn set_mode(s: &mut [u8], l: u8, event: u8)
    ensures { s.new ≡ mode_set s.old l event }
{
    put(
        s,
        layout::mode_at(l as u16),
        std::num::wrapping_add_u8(event, 1),
    );
    put(s, layout::running_at(l as u16), 0);
}

fn tag(extension: Extension) -> u8
    ensures { result ≡ tag_of extension }
{
    match extension {
        Extension::Calibration => 0,
        Extension::Measured => 1,
    }
}

// An entry's first byte: three bits of size, one of extension, four of address.
fn head(n: u8, extension: Extension, address: u32) -> u8
    ensures { result ≡ head_of n extension address }
{
    ((32 * wide(n) + 16 * wide(tag(extension)) + address / 256) % 256) as u8
}

// Entry e of a list's ODT; the list no longer counts as started.
pub fn set_entry(s: &mut [u8], l: u8, odt: u8, e: u8, n: u8, extension: Extension, address: u32)
    ensures { s.new ≡ entry_set s.old l (first_odt s.old l + odt) e n extension address }
{
    let k = pool::odts(s, l as u16).first + odt as u16;
    let at = layout::entries_at(pool::entries(s, k).first + e as u16);
    put(s, layout::running_at(l as u16), 0);
    put(s, at, head(n, extension, address));
    put(s, at + 1, low(address));
}

// ---- START_STOP_SYNCH, list by list. Three loops of two lines: one loop that takes the step as a closure is longer, by what it would ask of the
// step in every state on the way.

pub fn stop_all(s: &mut [u8])
    ensures { s.new ≡ stop_each s.old (list_count s.old) }
{
    for l in 0..pool::list_count(s) {
        stop(s, l);
        select(s, l, 0);
    }
}

fn start_one(s: &mut [u8; layout::STATE], l: u8)
    requires { l < list_count s.old }
    ensures { s.new ≡ start_one s.old l }
{
    if selected(s, l) {
        if !runs(s, l) {
            start(s, l);
        }
    }
}

fn start_each(s: &mut [u8; layout::STATE])
    ensures { s.new ≡ start_selected s.old (list_count s.old) }
{
    for l in 0..pool::list_count(s) {
        start_one(s, l);
        select(s, l, 0);
    }
}

// In a state of the right size, and no other.
pub fn start_selected(s: &mut [u8])
    ensures { s.new ≡ (if is_state s.old then start_selected s.old (list_count s.old) else s.old) }
{
    if s.len() != layout::STATE {
        return;
    }
    if let Some((s, _rest)) = s.split_first_chunk_mut::<{ layout::STATE }>() {
        start_each(s);
    }
}

fn stop_one(s: &mut [u8; layout::STATE], l: u8)
    requires { l < lists }
    ensures { s.new ≡ stop_one s.old l }
{
    if selected(s, l) {
        stop(s, l);
    }
}

fn stop_each_selected(s: &mut [u8; layout::STATE])
    ensures { s.new ≡ stop_selected s.old (list_count s.old) }
{
    for l in 0..pool::list_count(s) {
        stop_one(s, l);
        select(s, l, 0);
    }
}

pub fn stop_selected(s: &mut [u8])
    ensures { s.new ≡ (if is_state s.old then stop_selected s.old (list_count s.old) else s.old) }
{
    if s.len() != layout::STATE {
        return;
    }
    if let Some((s, _rest)) = s.split_first_chunk_mut::<{ layout::STATE }>() {
        stop_each_selected(s);
    }
}
