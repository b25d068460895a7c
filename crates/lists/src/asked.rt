// What a command asks of the lists, for any bytes: in a state of another size there is none, and a list that there is not does nothing.
ghost use Rattle.std.specs.Prelude.{◌≡◌, ◌<◌, ◌≤◌, false, length, MatchOption};
ghost use Rattle.state.specs.Layout.{lists, all_odts, all_entries, size};
ghost use Rattle.state.specs.Pool.{list_count};
ghost use Rattle.model.specs.View.{session_of};
ghost use Rattle.lists.specs.Lists.{is_state, is_list, runs_named, fits_named, any_runs, any_started, ready};

use crate::{list, spans};
use state::{layout, pool};

// The state, if the bytes are one, and what is behind it, which is nothing. An Option of one reference would be returned as a pair, and
// the module has a pair's second part where one processor would have it.
fn whole(s: &[u8]) -> Option<(&[u8; layout::STATE], &[u8])>
    ensures { MatchOption result (is_state s.now ≡ false) (λ p. (length s.now ≡ size) × (p.0.now ≡ s.now)) }
{
    if s.len() != layout::STATE {
        return None;
    }
    s.split_first_chunk()
}

// The same, if it has such a list.
fn listed(s: &[u8], l: u16) -> Option<(&[u8; layout::STATE], &[u8])>
    ensures { MatchOption result (is_list s.now l ≡ false) (λ p. (length s.now ≡ size) × (p.0.now ≡ s.now) × (l < list_count p.0.now) × (l < lists)) }
{
    let whole = whole(s)?;
    if pool::list_count(s) as u16 <= l {
        return None;
    }
    Some(whole)
}

pub fn runs(s: &[u8], l: u16) -> bool
    ensures { result ≡ runs_named s.now l }
{
    match listed(s, l) {
        Some((s, _)) => list::runs(s, l as u8),
        None => false,
    }
}

pub fn fits(s: &[u8], l: u16) -> bool
    ensures { result ≡ fits_named s.now l }
{
    match listed(s, l) {
        Some((s, _)) => list::fit(s, l as u8, spans::span(s, l as u8)),
        None => false,
    }
}

// Three calls of a line each, under the names of their definitions: in a state of another size there is no list.
pub fn any_runs(s: &[u8]) -> bool
    ensures { result ≡ any_runs s.now }
{
    whole(s).is_some_and(|(s, _)| list::any_runs(s))
}

pub fn any_started(s: &[u8]) -> bool
    ensures { result ≡ any_started s.now }
{
    whole(s).is_some_and(|(s, _)| list::any_started(s))
}

pub fn all_fit(s: &[u8]) -> bool
    ensures { result ≡ ready s.now }
{
    whole(s).is_some_and(|(s, _)| list::all_fit(s))
}

// How many ODTs a list has, and how many entries one of these.
pub fn odts(s: &[u8], l: u16) -> u16
    ensures { (result ≡ ((session_of s.now).list l).odts) × (result ≤ all_odts) }
{
    if l < pool::list_count(s) as u16 {
        return pool::odts(s, l).count;
    }
    0
}

pub fn entries(s: &[u8], l: u16, odt: u8) -> u16
    ensures { (result ≡ (((session_of s.now).list l).odt odt).entries) × (result ≤ all_entries) }
{
    if pool::list_count(s) as u16 <= l {
        return 0;
    }
    let odts = pool::odts(s, l);
    if odts.count <= odt as u16 {
        return 0;
    }
    pool::entries(s, odts.first + odt as u16).count
}
