// What is done, deed by deed. No check is left.
#![tactic(auto, unfolding(crate::specs::Perform::effect, model::specs::Answers::reply_in, model::specs::View::session_of, model::specs::Answers::writes))]

ghost use Rattle.std.specs.Prelude.{◌≡◌, ◌≤◌, length};
ghost use Rattle.state.specs.Layout.{packet_most, packet_at};
ghost use Rattle.state.specs.Bytes.{block};
ghost use Rattle.session.specs.Perform.{Performs};
ghost use Rattle.judge.specs.Doable.{Doable};
ghost use Rattle.model.specs.View.{session_of};

use crate::list_deeds::{acknowledge, first_odt, switch};
use crate::{State, answer, deeds, list_answers, list_deeds};
use lists::{alloc, changes};
use model::Deed;
use state::fields;
use words::{Mta, Pointer};

// A deed whose packet has len bytes. One match and no table of functions: each arm takes the deed's own values, and the compiler puts it in its place.
pub fn perform(deed: Deed, s: &mut State, cal: &mut [u8], meas: &[u8], len: u8)
    requires { (len ≤ packet_most) × Doable deed (session_of s.old) len (length cal.old) (length meas.now) }
    ensures { Performs deed (block s.old packet_at len) s.old cal.old meas.now s.new cal.new }
{
    match deed {
        Deed::Refuse(reason) => answer::refusal(s, reason),
        Deed::RefuseSize => deeds::refuse_size(s),
        Deed::WrongKey => deeds::wrong_key(s),
        Deed::Connect => deeds::connect(s),
        Deed::Disconnect => acknowledge(s, |s| fields::close(s)),
        Deed::Status => deeds::status(s),
        Deed::Synch => answer::put(s, [0xFE, 0x00]),
        Deed::NoSeed => answer::put(s, [0xFF, 0x00]),
        Deed::GiveSeed(resource) => deeds::give_seed(s, resource),
        Deed::Unlock(resource) => deeds::unlock(s, resource),
        Deed::SetMta(e, a) => acknowledge(s, |s| fields::set_mta(s, Mta::At(e, a))),
        Deed::Upload(e, a, n) => deeds::upload(s, cal, meas, e, a, n),
        Deed::Checksum(e, a, n) => deeds::checksum(s, cal, meas, e, a, n),
        Deed::Download(from, a, n) => deeds::download(s, cal, from, a, n, len),
        Deed::ClearList(l) => acknowledge(s, |s| changes::clear_list(s, l)),
        Deed::SetPointer(list, odt, entry) => {
            acknowledge(
                s,
                |s| fields::set_pointer(s, Pointer::At { list, odt, entry }),
            )
        }
        Deed::ClearEntry(l, o, e) => list_deeds::clear_entry(s, l, o, e),
        Deed::WriteEntry(l, o, e, n, ext, a) => list_deeds::write_entry(s, l, o, e, n, ext, a),
        Deed::SetMode(l, event) => acknowledge(s, |s| changes::set_mode(s, l, event)),
        Deed::Stop(l) => switch(first_odt(s, l), s, |s| changes::stop(s, l)),
        Deed::Start(l) => switch(first_odt(s, l), s, |s| changes::start(s, l)),
        Deed::KeepRunning(l) => list_answers::keep_running(s, l),
        Deed::Select(l) => switch(first_odt(s, l), s, |s| changes::select(s, l, 1)),
        Deed::StopAll => acknowledge(s, |s| changes::stop_all(s)),
        Deed::StartSelected => acknowledge(s, |s| changes::start_selected(s)),
        Deed::StopSelected => acknowledge(s, |s| changes::stop_selected(s)),
        Deed::ProcessorInfo => list_answers::processor_info(s),
        Deed::ResolutionInfo => list_answers::resolution_info(s),
        Deed::FreeLists => acknowledge(s, |s| alloc::free(s)),
        Deed::AllocLists(n) => acknowledge(s, |s| alloc::alloc_lists(s, n)),
        Deed::AllocOdts(l, n) => acknowledge(s, |s| alloc::alloc_odts(s, l, n)),
        Deed::AllocEntries(l, o, n) => acknowledge(s, |s| alloc::alloc_entries(s, l, o, n)),
    }
}
