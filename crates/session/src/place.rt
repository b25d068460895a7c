// The reader's place. Every received byte reads and writes it, so it goes straight to its bytes.
#![tactic(auto, unfolding(state::specs::State::place_of, state::specs::State::set_place))]

ghost use Rattle.std.specs.Prelude.{◌≡◌};
ghost use Rattle.state.specs.State.{place_of, set_place};

use crate::State;
use line::Place;
use state::layout;

pub fn place(s: &State) -> Place
    ensures { result ≡ place_of s.now }
{
    let tag = s[layout::PLACE];
    if tag == 1 {
        return Place::Inside(s[layout::COUNT] as usize);
    }
    if tag == 2 {
        return Place::Escaped(s[layout::COUNT] as usize);
    }
    Place::Outside
}

pub fn set_place(s: &mut State, place: Place)
    ensures { s.new ≡ set_place s.old place }
{
    match place {
        Place::Outside => {
            s[layout::PLACE] = 0;
        }
        Place::Inside(k) => {
            s[layout::PLACE] = 1;
            s[layout::COUNT] = (k % 256) as u8;
        }
        Place::Escaped(k) => {
            s[layout::PLACE] = 2;
            s[layout::COUNT] = (k % 256) as u8;
        }
    }
}
