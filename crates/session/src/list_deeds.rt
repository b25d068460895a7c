// The deeds of the lists: of each its effect, then its answer.
#![tactic(auto, unfolding(crate::specs::Perform::effect, model::specs::Step::next_entry, model::specs::Answers::reply_in, model::specs::View::session_of))]

ghost use Rattle.std.specs.Prelude.{ℕ, ◌≡◌, List, [], ◌∷◌, ◌≤◌, ◌<◌};
ghost use Rattle.std.specs.Fn.{FnOnceReturnsAtMut};
ghost use Rattle.state.specs.State.{answered};
ghost use Rattle.state.specs.Layout.{all_entries};
ghost use Rattle.model.specs.Model.{first_of};
ghost use Rattle.model.specs.Step.{next_entry};
ghost use Rattle.model.specs.View.{session_of};
ghost use Rattle.judge.specs.Doable.{Entered};
ghost use Rattle.session.specs.Perform.{after};

use crate::{State, answer};
use lists::changes;
use model::Deed;
use state::{fields, pool};
use words::{Extension, Pointer};

// A change that FF alone answers.
pub fn acknowledge<F: FnOnce(&mut State)>(s: &mut State, change: F)
    requires { F.IsAlwaysCallable change }
    ensures { (t : List ℕ) × FnOnceReturnsAtMut F.FnOnce change s.old tt t × (s.new ≡ answered t (0xFF ∷ [])) }
{
    change(s);
    answer::put(s, [0xFF]);
}

// After the last of an ODT's n entries the pointer is unset.
fn next_entry(n: u16, l: u8, odt: u8, e: u8) -> Pointer
    requires { (e < n) × (n ≤ all_entries) }
    ensures { result ≡ next_entry n l odt e }
{
    if e as u16 + 1 == n {
        return Pointer::Unset;
    }
    Pointer::At {
        list: l,
        odt,
        entry: e + 1,
    }
}

pub fn write_entry(s: &mut State, l: u8, odt: u8, e: u8, n: u8, extension: Extension, address: u32)
    requires { Entered (session_of s.old) l odt e }
    ensures { s.new ≡ after (Deed.WriteEntry l odt e n extension address) s.old [] [] }
{
    let k = pool::odts(s, l as u16).first + odt as u16;
    let next = next_entry(pool::entries(s, k).count, l, odt, e);
    changes::set_entry(s, l, odt, e, n, extension, address);
    fields::set_pointer(s, next);
    answer::put(s, [0xFF]);
}

// One of size 0 is none.
pub fn clear_entry(s: &mut State, l: u8, odt: u8, e: u8)
    requires { Entered (session_of s.old) l odt e }
    ensures { s.new ≡ after (Deed.ClearEntry l odt e) s.old [] [] }
{
    write_entry(s, l, odt, e, 0, Extension::Calibration, 0);
}

// A change to a list that FF and the number of its first ODT answer.
pub fn switch<F: FnOnce(&mut State)>(first: u8, s: &mut State, change: F)
    requires { F.IsAlwaysCallable change }
    ensures { (t : List ℕ) × FnOnceReturnsAtMut F.FnOnce change s.old tt t × (s.new ≡ answered t (0xFF ∷ first ∷ [])) }
{
    change(s);
    answer::put(s, [0xFF, first]);
}

// The number of a list's first ODT.
pub fn first_odt(s: &State, l: u8) -> u8
    requires { l < (session_of s.now).lists }
    ensures { result ≡ first_of (session_of s.now) l }
{
    pool::odts(s, l as u16).first as u8
}
