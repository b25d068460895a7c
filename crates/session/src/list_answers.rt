// The deeds of the lists that change nothing: of each its answer.
#![tactic(auto, unfolding(crate::specs::Perform::effect, model::specs::Answers::reply_in, model::specs::View::session_of))]

ghost use Rattle.std.specs.Prelude.{◌≡◌, [], ◌<◌};
ghost use Rattle.model.specs.View.{session_of};
ghost use Rattle.session.specs.Perform.{after};

use crate::list_deeds::first_odt;
use crate::{State, answer};
use model::Deed;
use state::{layout, pool};

// A running list that is started again goes on as it is.
pub fn keep_running(s: &mut State, l: u8)
    requires { l < (session_of s.old).lists }
    ensures { s.new ≡ after (Deed.KeepRunning l) s.old [] [] }
{
    let first = first_odt(s, l);
    answer::put(s, [0xFF, first]);
}

pub fn processor_info(s: &mut State)
    ensures { s.new ≡ after Deed.ProcessorInfo s.old [] [] }
{
    let n = pool::list_count(s);
    answer::put(s, [0xFF, 0x11, n, 0x00, layout::EVENTS, 0x00, 0x00, 0x00]);
}

pub fn resolution_info(s: &mut State)
    ensures { s.new ≡ after Deed.ResolutionInfo s.old [] [] }
{
    answer::put(
        s,
        [0xFF, 0x01, layout::ENTRY_MOST, 0x00, 0x00, 0x6A, 0x01, 0x00],
    );
}
