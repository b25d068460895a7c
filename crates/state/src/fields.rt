// The state's fields: how each byte reads, and how it is written.
ghost use Rattle.std.specs.Prelude.{if◌then◌else◌, ◌≡◌, ◌≤◌, slice_set};
ghost use Rattle.state.specs.Layout.{packet_most};
ghost use Rattle.state.specs.State.{consistent, flag_of, generator_of, set_generator, wrong_keys_of, counted_wrong, lock_at, bit_of, mask_of, seed_of, set_seed, mta_tag, mta_of, set_mta, pointer_of, set_pointer, dropped, closed, fresh, answer_length, answer_kind};

use crate::bytes::{clear, get, get32, put, store32};
use crate::seeds::{one_wrong_more, stays_shut};
use crate::{Generator, layout, pool};
use words::{Extension, Mta, Pointer, Resource};

// Size and mark are the whole test of a state. Every call makes it, so it goes straight to the mark's bytes.
#[tactic(auto, unfolding(crate::specs::State::consistent, crate::specs::Bytes::u32_at))]
pub fn is_consistent(s: &[u8]) -> bool
    ensures { result ≡ consistent s.now }
{
    if s.len() != layout::STATE {
        return false;
    }
    let mark = [
        s[layout::MARK_AT],
        s[layout::MARK_AT + 1],
        s[layout::MARK_AT + 2],
        s[layout::MARK_AT + 3],
    ];
    u32::from_le_bytes(mark) == layout::MARK
}

#[tactic(auto, unfolding(crate::specs::State::flag_of))]
pub fn flag(s: &[u8], at: usize) -> bool
    ensures { result ≡ flag_of s.now at }
{
    get(s, at) == 1
}

#[tactic(auto, unfolding(crate::specs::State::generator_of))]
pub fn generator(s: &[u8]) -> Generator
    ensures { result.x ≡ generator_of s.now }
{
    Generator::new(get32(s, layout::GENERATOR))
}

#[tactic(auto, unfolding(crate::specs::State::set_generator))]
pub fn set_generator(s: &mut [u8], g: Generator)
    ensures { s.new ≡ set_generator s.old g.x }
{
    store32(s, layout::GENERATOR, g.x);
}

// Wrong keys since power-up; above 3 reads as 3.
#[tactic(auto, unfolding(crate::specs::State::wrong_keys_of))]
pub fn wrong_keys(s: &[u8]) -> u8
    ensures { result ≡ wrong_keys_of s.now }
{
    get(s, layout::WRONG_KEYS).min(layout::WRONG_MOST)
}

#[tactic(auto, unfolding(crate::specs::State::counted_wrong))]
pub fn count_wrong(s: &mut [u8])
    ensures { s.new ≡ counted_wrong s.old }
{
    let n = wrong_keys(s);
    put(s, layout::WRONG_KEYS, one_wrong_more(n));
}

// A place in the state, and no number of the resource: so it is no conversion of the type's own.
fn lock_at(resource: Resource) -> usize
    ensures { result ≡ lock_at resource }
{
    match resource {
        Resource::Calibration => layout::CALIBRATION,
        Resource::Lists => layout::LISTS_LOCK,
    }
}

pub fn unlocked(s: &[u8], resource: Resource) -> bool
    ensures { result ≡ flag_of s.now (lock_at resource) }
{
    flag(s, lock_at(resource))
}

pub fn unlock(s: &mut [u8], resource: Resource)
    ensures { s.new ≡ slice_set s.old (lock_at resource) 1 }
{
    let at = lock_at(resource);
    put(s, at, 1);
}

// A resource's bit in the locked mask; 0 where it is unlocked.
fn locked_bit(s: &[u8], resource: Resource) -> u8
    ensures { (result ≡ (if flag_of s.now (lock_at resource) then 0 else bit_of resource)) × (result ≤ 4) }
{
    if unlocked(s, resource) {
        0
    } else {
        resource as u8
    }
}

// The bits of the locked mask: 01 calibration, 04 lists.
#[tactic(auto, unfolding(crate::specs::State::mask_of))]
pub fn mask(s: &[u8]) -> u8
    ensures { result ≡ mask_of s.now }
{
    locked_bit(s, Resource::Calibration) + locked_bit(s, Resource::Lists)
}

#[tactic(auto, unfolding(crate::specs::State::seed_of))]
pub fn seed(s: &[u8]) -> Option<Resource>
    ensures { result ≡ seed_of s.now }
{
    if stays_shut(wrong_keys(s)) {
        return None;
    }
    Resource::try_from(get(s, layout::SEED)).ok()
}

#[tactic(auto, unfolding(crate::specs::State::set_seed))]
pub fn set_seed(s: &mut [u8], seed: Option<Resource>)
    ensures { s.new ≡ set_seed s.old seed }
{
    let byte = match seed {
        None => 0,
        Some(resource) => resource as u8,
    };
    put(s, layout::SEED, byte);
}

// The byte of an extension in the state, where 0 is unset: 1 more than the number that a tool gives.
fn mta_tag(extension: Extension) -> u8
    ensures { result ≡ mta_tag extension }
{
    match extension {
        Extension::Calibration => 1,
        Extension::Measured => 2,
    }
}

#[tactic(auto, unfolding(crate::specs::State::mta_of))]
pub fn mta(s: &[u8]) -> Mta
    ensures { result ≡ mta_of s.now }
{
    match get(s, layout::MTA) {
        1 => Mta::At(Extension::Calibration, get32(s, layout::ADDRESS)),
        2 => Mta::At(Extension::Measured, get32(s, layout::ADDRESS)),
        _ => Mta::Unset,
    }
}

#[tactic(auto, unfolding(crate::specs::State::set_mta))]
pub fn set_mta(s: &mut [u8], mta: Mta)
    ensures { s.new ≡ set_mta s.old mta }
{
    match mta {
        Mta::Unset => {
            put(s, layout::MTA, 0);
        }
        Mta::At(extension, address) => {
            put(s, layout::MTA, mta_tag(extension));
            store32(s, layout::ADDRESS, address);
        }
    }
}

#[tactic(auto, unfolding(crate::specs::State::pointer_of))]
pub fn pointer(s: &[u8]) -> Pointer
    ensures { result ≡ pointer_of s.now }
{
    let Some(at) = get(s, layout::POINTER).checked_sub(1) else {
        return Pointer::Unset;
    };
    let list = at / layout::ALL_ODTS;
    let odt = at % layout::ALL_ODTS;
    // Asked before the counts are added up: where the list is gone, none is.
    if pool::list_count(s) <= list {
        return Pointer::Unset;
    }
    let entry = get(s, layout::POINTER_ENTRY);
    let odts = pool::odts(s, list as u16);
    let there = (odt as u16) < odts.count
        && (entry as u16) < pool::entries(s, odts.first + odt as u16).count;
    if there {
        Pointer::At { list, odt, entry }
    } else {
        Pointer::Unset
    }
}

#[tactic(auto, unfolding(crate::specs::State::set_pointer))]
pub fn set_pointer(s: &mut [u8], pointer: Pointer)
    ensures { s.new ≡ set_pointer s.old pointer }
{
    match pointer {
        Pointer::Unset => {
            put(s, layout::POINTER, 0);
        }
        Pointer::At { list, odt, entry } => {
            let at = layout::ALL_ODTS as u16 * list as u16 + odt as u16 + 1;
            put(s, layout::POINTER, (at % 256) as u8);
            put(s, layout::POINTER_ENTRY, entry);
        }
    }
}

// The packets of the n ODTs from k on dropped.
#[tactic(auto, unfolding(crate::specs::State::dropped))]
pub fn drop_packets(s: &mut [u8], k: u16, n: u16)
    ensures { s.new ≡ dropped s.old k n }
{
    for j in 0..n {
        let at = layout::sample_at(k) + layout::SAMPLE_SIZE * j as usize;
        put(s, at, 0);
    }
}

// The session's end: everything in it as in a fresh one, which has no lists.
#[tactic(auto, unfolding(crate::specs::State::closed))]
pub fn close(s: &mut [u8])
    ensures { s.new ≡ closed s.old }
{
    clear(s, layout::SESSION, layout::SESSION_SIZE);
}

#[tactic(auto, unfolding(crate::specs::State::fresh))]
pub fn begin(s: &mut [u8])
    ensures { s.new ≡ fresh s.old }
{
    close(s);
    put(s, layout::OPEN, 1);
}

// The length of the waiting answer, 0 where none waits: so the byte reads, by the definition `answer_length`.
#[tactic(auto, unfolding(crate::specs::State::answer_length))]
pub fn answer_length(s: &[u8]) -> u8
    ensures { (result ≡ answer_length s.now) × (result ≤ packet_most) }
{
    let n = get(s, layout::ANSWER);
    if n <= layout::PACKET_MOST { n } else { 0 }
}

// The waiting answer's first byte: so it reads, by the definition `answer_kind`.
#[tactic(auto, unfolding(crate::specs::State::answer_kind))]
pub fn answer_kind(s: &[u8]) -> u8
    ensures { result ≡ answer_kind s.now }
{
    match (get(s, layout::ANSWER_BYTES), answer_length(s)) {
        (0xFE, 2 | 8) => 0xFE,
        _ => 0xFF,
    }
}
