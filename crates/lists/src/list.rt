// The lists: how they read, for any bytes of a state. Each goes straight to its bytes: events and slots read them often.
// That a list, an ODT or an entry is there stands in each contract: it is a fact about the state lent with its number, which no type of a number can name.
ghost use Rattle.std.specs.Prelude.{◌≡◌, ◌+◌, ◌*◌, ◌<◌, ◌≤◌, false, length, if◌then◌else◌, nat_eq, nat_lt};
ghost use Rattle.state.specs.Layout.{lists, all_odts, all_entries, events, stored_most, entry_most, running_at, size};
ghost use Rattle.state.specs.Pool.{list_count, first_odt, odt_count, first_entry, entry_count};
ghost use Rattle.state.specs.State.{flag_of, open_of};
ghost use Rattle.state.specs.Lists.{size_at, extension_at, address_in, mode_of, selected_of, stored_length};
ghost use Rattle.model.specs.Model.{all_bytes, each_fits, unsent, some_runs, some_started};
ghost use Rattle.model.specs.Judge.{startable, all_startable};
ghost use Rattle.model.specs.View.{session_of};
ghost use Rattle.lists.specs.Lists.{odt_bytes, fit_of, runs_of, Spans};

use crate::spans;
use state::bytes::wide;
use state::{Span, layout, pool};
use words::Extension;

// A flag is yes only if its byte is 1.
pub fn on(s: &[u8; layout::STATE], at: usize) -> bool
    requires { at < size }
    ensures { result ≡ flag_of s.now at }
{
    s[at] == 1
}

// A number above the most that it may be reads as 0.
fn known(n: u8, most: u8) -> u8
    ensures { (result ≡ (if nat_lt most n then 0 else n)) × (result ≤ most) }
{
    if most < n { 0 } else { n }
}

// ---- entries

// An entry's size; above 4 it reads as 0.
pub fn entry_size(s: &[u8; layout::STATE], at: usize) -> u8
    requires { at < size }
    ensures { (result ≡ size_at s.now at) × (result ≤ entry_most) }
{
    known(s[at] / 32, layout::ENTRY_MOST)
}

pub fn entry_extension(s: &[u8; layout::STATE], at: usize) -> Extension
    requires { at < size }
    ensures { result ≡ extension_at s.now at }
{
    if s[at] / 16 % 2 == 1 {
        Extension::Measured
    } else {
        Extension::Calibration
    }
}

pub fn entry_address(s: &[u8; layout::STATE], at: usize) -> u16
    requires { at + 1 < size }
    ensures { result ≡ address_in s.now at }
{
    (wide(s[at + 1]) + 256 * (wide(s[at]) % 16)) as u16
}

// The bytes of an ODT, of which the first entry and how many are known.
pub fn odt_bytes(s: &[u8; layout::STATE], k: u16, first: u16, n: u16) -> u16
    requires { (first ≡ first_entry s.now k) × (n ≡ entry_count s.now k) × (first + n ≤ all_entries) }
    ensures { (result ≡ odt_bytes s.now k) × (result ≤ all_entries * entry_most) }
{
    let mut sum: u16 = 0;
    for e in 0..n {
        sum += entry_size(s, layout::entries_at(first + e)) as u16;
    }
    sum
}

// ---- lists

// 0 where a list's mode was never set, else 1 more than its event: so the byte reads, by the definition `mode_of`.
pub fn mode(s: &[u8; layout::STATE], l: u8) -> u8
    requires { l < lists }
    ensures { (result ≡ mode_of s.now l) × (result ≤ events) }
{
    known(s[layout::mode_at(l as u16)], layout::EVENTS)
}

pub fn selected(s: &[u8; layout::STATE], l: u8) -> bool
    requires { l < lists }
    ensures { result ≡ selected_of s.now l }
{
    on(s, layout::selected_at(l as u16))
}

// Whether a list's ODTs have some byte, and none has too many.
fn odts_fit(s: &[u8; layout::STATE], l: u8, span: Span) -> bool
    requires { (l < list_count s.now) × Spans s.now l span.odt span.odts span.entry }
    ensures { result ≡ (if nat_eq (all_bytes ((session_of s.now).list l) (odt_count s.now l)) 0 then false else each_fits ((session_of s.now).list l) (odt_count s.now l)) }
{
    let mut first = span.entry;
    let mut sum: u16 = 0;
    for o in 0..span.odts {
        let k = span.odt + o;
        let n = spans::entries_in(s, k, first);
        let m = odt_bytes(s, k, first, n);
        if layout::odt_most(o) < m {
            return false;
        }
        first += n;
        sum += m;
    }
    sum != 0
}

// Whether a list can be started.
pub fn fit(s: &[u8; layout::STATE], l: u8, span: Span) -> bool
    requires { (l < list_count s.now) × Spans s.now l span.odt span.odts span.entry }
    ensures { result ≡ fit_of s.now l }
{
    if mode(s, l) == 0 {
        return false;
    }
    odts_fit(s, l, span)
}

// Whether a list was started, in a session that is open.
pub fn started(s: &[u8; layout::STATE], l: u8) -> bool
    requires { l < lists }
    ensures { result ≡ (if open_of s.now then flag_of s.now (running_at l) else false) }
{
    if on(s, layout::OPEN) {
        return on(s, layout::running_at(l as u16));
    }
    false
}

// Whether a list runs that has so many ODTs.
pub fn runs_with(s: &[u8; layout::STATE], l: u8, odts: u16) -> bool
    requires { (l < list_count s.now) × (odts ≡ odt_count s.now l) }
    ensures { result ≡ runs_of s.now l }
{
    if odts == 0 {
        return false;
    }
    started(s, l)
}

pub fn runs(s: &[u8; layout::STATE], l: u8) -> bool
    requires { l < list_count s.now }
    ensures { result ≡ runs_of s.now l }
{
    if !started(s, l) {
        return false;
    }
    let first = spans::first_odt(s, l);
    0 < spans::odts_in(s, l, first)
}

pub fn any_runs(s: &[u8; layout::STATE]) -> bool
    ensures { result ≡ some_runs (session_of s.now) (list_count s.now) }
{
    (0..pool::list_count(s)).any(|l| runs(s, l))
}

// Whether some list was started.
pub fn any_started(s: &[u8; layout::STATE]) -> bool
    ensures { result ≡ some_started (session_of s.now) (list_count s.now) }
{
    (0..pool::list_count(s)).any(|l| on(s, layout::running_at(l as u16)))
}

// Whether a list that is selected runs or can be started.
fn may_start(s: &[u8; layout::STATE], l: u8) -> bool
    requires { l < list_count s.now }
    ensures { result ≡ startable (session_of s.now) l }
{
    if !selected(s, l) {
        return true;
    }
    if runs(s, l) {
        return true;
    }
    fit(s, l, spans::span(s, l))
}

// Whether every selected list runs or can be started.
pub fn all_fit(s: &[u8; layout::STATE]) -> bool
    ensures { result ≡ all_startable (session_of s.now) (list_count s.now) }
{
    (0..pool::list_count(s)).all(|l| may_start(s, l))
}

// ---- packets

// The length of an ODT's packet in store, without its number; 0 where there is none: so the byte reads, by the definition `stored_length`.
pub fn stored_length(s: &[u8; layout::STATE], k: u16) -> u8
    requires { k < all_odts }
    ensures { (result ≡ stored_length s.now k) × (result ≤ stored_most) }
{
    known(s[layout::sample_at(k)], layout::STORED_MOST)
}

// Whether a list with n ODTs, of which k is the first, still has an unsent packet.
pub fn is_unsent(s: &[u8; layout::STATE], l: u8, k: u16, n: u16) -> bool
    requires { (l < list_count s.now) × (k ≡ first_odt s.now l) × (n ≡ odt_count s.now l) × (k + n ≤ all_odts) }
    ensures { result ≡ unsent ((session_of s.now).list l) }
{
    (k..k + n).any(|odt| 0 < stored_length(s, odt))
}
