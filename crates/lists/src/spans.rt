// What a list has of the pool: where its ODTs and their entries begin, and how many they are. Each goes straight to the counts: events and slots read
// them often.
ghost use Rattle.std.specs.Prelude.{◌≡◌, ◌+◌, ◌-◌, ◌<◌, ◌≤◌, min, slice_index};
ghost use Rattle.state.specs.Layout.{lists, all_odts, all_entries, size};
ghost use Rattle.state.specs.Ranges.{start_in};
ghost use Rattle.state.specs.Pool.{first_odt, odt_count, first_entry, entry_count};
ghost use Rattle.lists.specs.Lists.{Spans};

use state::bytes::wide;
use state::{Span, layout};

// The first n counts from `at`, added up to `most`. What is too much is cut off once, behind the loop.
fn counts_before(s: &[u8; layout::STATE], at: usize, most: u16, n: u16) -> u16
    requires { (at + n ≤ size) × (n ≤ all_odts) }
    ensures { (result ≡ start_in most (λ i. slice_index s.now (at + i)) n) × (result ≤ most) }
{
    let mut sum: u32 = 0;
    for i in 0..n as u32 {
        sum += wide(s[at + i as usize]);
    }
    sum.min(most as u32) as u16
}

// A count, of which no more is there than the pool has behind `first`.
fn cut(count: u8, first: u16, most: u16) -> u16
    requires { first ≤ most }
    ensures { (result ≡ min most (first + count) - first) × (first + result ≤ most) }
{
    (count as u16).min(most - first)
}

// Where the ODTs of a list begin, and how many they are.
pub fn first_odt(s: &[u8; layout::STATE], l: u8) -> u16
    requires { l < lists }
    ensures { (result ≡ first_odt s.now l) × (result ≤ all_odts) }
{
    counts_before(s, layout::ODTS, layout::ALL_ODTS as u16, l as u16)
}

pub fn odts_in(s: &[u8; layout::STATE], l: u8, first: u16) -> u16
    requires { (l < lists) × (first ≡ first_odt s.now l) × (first ≤ all_odts) }
    ensures { (result ≡ odt_count s.now l) × (first + result ≤ all_odts) }
{
    cut(s[layout::ODTS + l as usize], first, layout::ALL_ODTS as u16)
}

// Where the entries of an ODT begin, and how many they are.
fn first_entry(s: &[u8; layout::STATE], k: u16) -> u16
    requires { k ≤ all_odts }
    ensures { (result ≡ first_entry s.now k) × (result ≤ all_entries) }
{
    counts_before(s, layout::COUNTS, layout::ALL_ENTRIES as u16, k)
}

pub fn entries_in(s: &[u8; layout::STATE], k: u16, first: u16) -> u16
    requires { (k < all_odts) × (first ≡ first_entry s.now k) × (first ≤ all_entries) }
    ensures { (result ≡ entry_count s.now k) × (first + result ≤ all_entries) }
{
    cut(
        s[layout::COUNTS + k as usize],
        first,
        layout::ALL_ENTRIES as u16,
    )
}

// What a list has. That a Span is a list's stands in contracts (`Spans`): it is about the state, which no ghost field of a Span can name.
pub fn span(s: &[u8; layout::STATE], l: u8) -> Span
    requires { l < lists }
    ensures { Spans s.now l result.odt result.odts result.entry }
{
    let odt = first_odt(s, l);
    let odts = odts_in(s, l, odt);
    let entry = first_entry(s, odt);
    Span { odt, odts, entry }
}

// The first entry behind a list's own.
pub fn entry_after(s: &[u8; layout::STATE], span: Span) -> u16
    requires { (span.odt + span.odts ≤ all_odts) × (span.entry ≡ first_entry s.now span.odt) × (span.entry ≤ all_entries) }
    ensures { (result ≡ first_entry s.now (span.odt + span.odts)) × (result ≤ all_entries) }
{
    let mut first = span.entry;
    for o in 0..span.odts {
        first += entries_in(s, span.odt + o, first);
    }
    first
}
