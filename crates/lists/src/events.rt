// An event: each running list of it samples at once.
ghost use Rattle.std.specs.Prelude.{◌≡◌, ◌+◌, ◌<◌, ◌≤◌, length};
ghost use Rattle.std.proofs.lemmas.List.Edits.{sets};
ghost use Rattle.state.specs.Layout.{all_odts, all_entries, events, entry_most, clock_size, size, sample_at};
ghost use Rattle.state.specs.Pool.{list_count, first_odt, odt_count, first_entry, entry_count};
ghost use Rattle.state.specs.Lists.{extension_at, address_in};
ghost use Rattle.lists.specs.Lists.{Spans};
ghost use Rattle.lists.specs.Event.{sampling_of, contents_of, stored, captured, sampled_state, Counts, tally, Happens, event_of};
ghost use Rattle.model.specs.Model.{sizes_of};
ghost use Rattle.model.specs.Calls.{block_in, blocks_in, taken, lead_of};
ghost use Rattle.model.specs.View.{odt_of};

use crate::word::Memories;
use crate::{list, spans, word};
use model::Sampling;
use state::{Span, fields, layout, pool};
use words::{Counted, EventRefusal};

// The n bytes of the entry that lies there.
fn take_entry(s: &mut [u8; layout::STATE], to: usize, memories: &Memories, at: usize, n: u8)
    requires { (at + 1 < size) × (n ≤ entry_most) × (to + n ≤ size) }
    ensures { s.new ≡ sets s.old to (block_in (record { size = n; extension = extension_at s.old at; address = address_in s.old at }) memories.now.cal.bytes.now memories.now.meas.bytes.now) }
{
    if n == 0 {
        return;
    }
    let address = list::entry_address(s, at);
    let extension = list::entry_extension(s, at);
    let w = memories.word(extension, address);
    word::put(s, to, w, n);
}

// The bytes of an ODT's entries, in entry order, up to the first for which there is no room; says how many they are. They go past all entries.
fn gather(
    s: &mut [u8; layout::STATE],
    from: usize,
    room: u32,
    memories: &Memories,
    k: u16,
    first: u16,
    n: u16,
) -> u32
    requires { (k < all_odts) × (first ≡ first_entry s.old k) × (n ≡ entry_count s.old k) × (first + n ≤ all_entries) × (sample_at 0 ≤ from) × (from + room ≤ size) }
    ensures { (s.new ≡ sets s.old from (blocks_in (odt_of s.old k) memories.now.cal.bytes.now memories.now.meas.bytes.now (taken room (odt_of s.old k) n))) × (result ≡ sizes_of (odt_of s.old k) (taken room (odt_of s.old k) n)) }
{
    // The entry's place walks along, and the count is in 32 bits: a place reckoned of the entry's number, or a count in 16 bits, takes two more
    // instructions an entry on a Cortex-M4.
    let mut at = layout::entries_at(first);
    let mut sum: u32 = 0;
    for _ in 0..n as u32 {
        let m = list::entry_size(s, at);
        let next = sum + m as u32;
        if room < next {
            return sum;
        }
        take_entry(s, from + sum as usize, memories, at, m);
        sum = next;
        at += layout::ENTRY_SIZE;
    }
    sum
}

// In a list's first ODT the clock; says how many bytes it takes.
fn lead(s: &mut [u8; layout::STATE], at: usize, odt: u16, clock: u16) -> u32
    requires { at + clock_size ≤ size }
    ensures { (s.new ≡ sets s.old at (lead_of odt clock)) × (result ≡ length (lead_of odt clock)) }
{
    if layout::is_first(odt) {
        s[at] = (clock % 256) as u8;
        s[at + 1] = (clock / 256 % 256) as u8;
        return layout::CLOCK_SIZE as u32;
    }
    0
}

// One ODT of the list whose first is k: its length, in the first ODT the clock, then its n bytes from entry `first` on.
fn capture_odt(
    s: &mut [u8; layout::STATE],
    memories: &Memories,
    k: u16,
    odt: u16,
    first: u16,
    n: u16,
    clock: u16,
)
    requires { (k + odt < all_odts) × (first ≡ first_entry s.old (k + odt)) × (n ≡ entry_count s.old (k + odt)) × (first + n ≤ all_entries) }
    ensures { s.new ≡ stored s.old (k + odt) (contents_of s.old k odt clock memories.now.cal.bytes.now memories.now.meas.bytes.now) }
{
    let at = layout::sample_at(k + odt);
    let before = lead(s, at + 1, odt, clock);
    let room = layout::odt_most(odt) as u32;
    let bytes = gather(
        s,
        at + 1 + before as usize,
        room,
        memories,
        k + odt,
        first,
        n,
    );
    s[at] = (before + bytes) as u8;
}

// All ODTs at once: nothing is read when they are sent. Answers the first entry behind the list's own.
fn capture(s: &mut [u8; layout::STATE], memories: &Memories, l: u8, span: Span, clock: u16) -> u16
    requires { (l < list_count s.old) × Spans s.old l span.odt span.odts span.entry }
    ensures { (s.new ≡ captured s.old l clock memories.now.cal.bytes.now memories.now.meas.bytes.now) × (result ≡ first_entry s.old (span.odt + span.odts)) × (result ≤ all_entries) }
{
    let mut first = span.entry;
    for o in 0..span.odts {
        let n = spans::entries_in(s, span.odt + o, first);
        capture_odt(s, memories, span.odt, o, first, n, clock);
        first += n;
    }
    first
}

// What the event is to one list, of which the ODTs are known.
fn sampling(s: &[u8; layout::STATE], l: u8, k: u16, n: u16, event: u8) -> Sampling
    requires { (l < list_count s.now) × (event < events) × (k ≡ first_odt s.now l) × (n ≡ odt_count s.now l) × (k + n ≤ all_odts) }
    ensures { result ≡ sampling_of s.now l event }
{
    if list::mode(s, l) != event + 1 {
        return Sampling::Idle;
    }
    if !list::runs_with(s, l, n) {
        return Sampling::Idle;
    }
    if list::is_unsent(s, l, k, n) {
        return Sampling::Missed;
    }
    Sampling::Sampled
}

// One list's sample, if it samples. Answers the first entry behind the list's own.
fn sample(
    s: &mut [u8; layout::STATE],
    memories: &Memories,
    l: u8,
    span: Span,
    c: Sampling,
    clock: u16,
) -> u16
    requires { (l < list_count s.old) × Spans s.old l span.odt span.odts span.entry }
    ensures { (s.new ≡ sampled_state c s.old l clock memories.now.cal.bytes.now memories.now.meas.bytes.now) × (result ≡ first_entry s.old (span.odt + span.odts)) × (result ≤ all_entries) }
{
    match c {
        Sampling::Sampled => capture(s, memories, l, span, clock),
        Sampling::Idle | Sampling::Missed => spans::entry_after(s, span),
    }
}

// All lists: how many sampled and how many missed. Where the ODTs and entries of each begin is kept on the way.
fn happen(s: &mut [u8; layout::STATE], cal: &[u8], meas: &[u8], event: u8, clock: u16) -> Counted
    requires { event < events }
    ensures { Counts (tally s.old event clock cal.now meas.now (list_count s.old)) s.new result.sampled result.missed }
{
    let mut sampled: u8 = 0;
    let mut missed: u8 = 0;
    let count = pool::list_count(s);
    let memories = Memories::new(cal, meas);
    let mut odt: u16 = 0;
    let mut entry: u16 = 0;
    for l in 0..count {
        let odts = spans::odts_in(s, l, odt);
        let c = sampling(s, l, odt, odts, event);
        entry = sample(s, &memories, l, Span { odt, odts, entry }, c, clock);
        odt += odts;
        match c {
            Sampling::Idle => {}
            Sampling::Sampled => sampled += 1,
            Sampling::Missed => missed += 1,
        }
    }
    Counted { sampled, missed }
}

// One event with its clock, in a state of any size.
pub fn event(
    state: &mut [u8],
    cal: &[u8],
    meas: &[u8],
    number: u32,
    clock: u16,
) -> Result<Counted, EventRefusal>
    ensures { Happens (event_of state.old cal.now meas.now number clock) result state.new }
{
    if !fields::is_consistent(state) {
        return Err(EventRefusal::NoState);
    }
    let Some((s, _rest)) = state.split_first_chunk_mut::<{ layout::STATE }>() else {
        return Err(EventRefusal::NoState);
    };
    if layout::EVENTS as u32 <= number {
        return Err(EventRefusal::BadEvent);
    }
    Ok(happen(s, cal, meas, number as u8, clock))
}
