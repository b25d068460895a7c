// The lists that a tool has allocated: how their numbers read, for any bytes of any length.
ghost use Rattle.std.specs.Prelude.{◌≡◌, ◌+◌, ◌≤◌, slice_index};
ghost use Rattle.state.specs.Layout.{lists, all_odts, all_entries};
ghost use Rattle.state.specs.Ranges.{start_in, count_in};
ghost use Rattle.state.specs.Pool.{phase_of, freed_of, list_count, round_of, first_odt, odt_count, odt_total, first_entry, entry_count, entry_total};

use crate::bytes::{block, get};
use crate::{Range, Span, layout};

// 0 where FREE_DAQ must come first, else 1 more than the lists that there are since: so the byte reads, by the definition `phase_of`.
#[tactic(auto, unfolding(crate::specs::Pool::phase_of))]
pub fn phase(s: &[u8]) -> u8
    ensures { (result ≡ phase_of s.now) × (result ≤ lists + 1) }
{
    let n = get(s, layout::PHASE);
    if n <= layout::LISTS + 1 { n } else { 0 }
}

pub fn is_freed(s: &[u8]) -> bool
    ensures { result ≡ freed_of s.now }
{
    0 < phase(s)
}

pub fn list_count(s: &[u8]) -> u8
    ensures { (result ≡ list_count s.now) × (result ≤ lists) }
{
    phase(s).saturating_sub(1)
}

// With which list the round begins; one that there is not reads as list 0.
#[tactic(auto, unfolding(crate::specs::Pool::round_of))]
pub fn round(s: &[u8]) -> u8
    ensures { result ≡ round_of s.now }
{
    let l = get(s, layout::ROUND);
    if l < list_count(s) { l } else { 0 }
}

// Counts that lie one behind the other, a byte each, of things that a pool has so many of.
#[derive(Clone, Copy)]
struct Counts {
    at: u16,
    pool: u16,
}

// How many ODTs each list has, and how many entries each ODT.
const OF_LISTS: Counts = Counts {
    at: layout::ODTS as u16,
    pool: layout::ALL_ODTS as u16,
};

const OF_ODTS: Counts = Counts {
    at: layout::COUNTS as u16,
    pool: layout::ALL_ENTRIES as u16,
};

impl Counts {
    // Where the things of number n begin: the counts before, added up. What does not fit into the pool is cut off once, behind the loop.
    fn start(self, s: &[u8], n: u16) -> u16
        ensures { (result ≡ start_in self.pool (λ i. slice_index s.now (self.at + i)) n) × (result ≤ self.pool) }
    {
        let mut sum: u32 = 0;
        for count in block(s, self.at as usize, n as usize) {
            sum += *count as u32;
        }
        sum.min(self.pool as u32) as u16
    }

    // Where those of number n begin, and how many they are.
    fn range(self, s: &[u8], n: u16) -> Range
        ensures { (result.first ≡ start_in self.pool (λ i. slice_index s.now (self.at + i)) n) × (result.count ≡ count_in self.pool (λ i. slice_index s.now (self.at + i)) n) × (result.first + result.count ≤ self.pool) }
    {
        let first = self.start(s, n);
        let count = get(s, self.at as usize + n as usize) as u16;
        Range {
            first,
            count: count.min(self.pool - first),
        }
    }
}

// The ODTs of list l, and all of them.
pub fn odts(s: &[u8], l: u16) -> Range
    ensures { (result.first ≡ first_odt s.now l) × (result.count ≡ odt_count s.now l) × (result.first + result.count ≤ all_odts) }
{
    OF_LISTS.range(s, l)
}

pub fn odt_total(s: &[u8]) -> u16
    ensures { (result ≡ odt_total s.now) × (result ≤ all_odts) }
{
    OF_LISTS.start(s, list_count(s) as u16)
}

// The entries of ODT k, and all of them.
pub fn entries(s: &[u8], k: u16) -> Range
    ensures { (result.first ≡ first_entry s.now k) × (result.count ≡ entry_count s.now k) × (result.first + result.count ≤ all_entries) }
{
    OF_ODTS.range(s, k)
}

pub fn entry_total(s: &[u8]) -> u16
    ensures { (result ≡ entry_total s.now) × (result ≤ all_entries) }
{
    OF_ODTS.start(s, odt_total(s))
}

// What a list has of the pool.
pub fn span(s: &[u8], l: u16) -> Span
    ensures { (result.odt ≡ first_odt s.now l) × (result.odts ≡ odt_count s.now l) × (result.entry ≡ first_entry s.now result.odt) × (result.odt + result.odts ≤ all_odts) × (result.entry ≤ all_entries) }
{
    let odts = odts(s, l);
    Span {
        odt: odts.first,
        odts: odts.count,
        entry: OF_ODTS.start(s, odts.first),
    }
}
