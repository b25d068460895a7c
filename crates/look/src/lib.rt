// What the command in the message buffer leads to. Of packet and state each command's checks look at what they need, and at no more.
// No function leans on its caller: a byte that is not there reads 0.
#![tactic(auto)]

ghost use Rattle.std.specs.Prelude.{◌≡◌};
ghost use Rattle.state.specs.Pool.{freed_of, list_count, odt_total, entry_total};
ghost use Rattle.state.specs.State.{generator_of, seed_of, pointer_of};
ghost use Rattle.lists.specs.Lists.{runs_named, fits_named, any_started, ready};
ghost use Rattle.model.specs.Judge.{unlock_by, clear_deed, pointer_deed, mode_deed, start_stop_deed, synch_deed, write_deed, alloc_lists_deed, alloc_odts_deed, alloc_entries_deed, judge_the, locked_by, judge_by, judge};
ghost use Rattle.model.specs.View.{session_of};
ghost use Rattle.judge.specs.Judged.{judged};
ghost use Rattle.look.specs.Look.{numbers_at, pointed_named, looked_at};

use judge::Lengths;
use judge::checks::{self, check};
use lists::asked;
use model::Deed;
use state::bytes::{get, get16, get32};
use state::{fields, layout, pool};
use words::{Command, Pointer, Reason, Resource};

// Whether the pointer's list runs.
fn pointed_runs(s: &[u8], pointer: Pointer) -> bool
    ensures { result ≡ pointed_named pointer s.now }
{
    match pointer {
        Pointer::Unset => false,
        Pointer::At { list, .. } => asked::runs(s, list as u16),
    }
}

fn unlock(s: &[u8], width: u8, n: u8, key: u32) -> Result<Deed, Reason>
    ensures { result ≡ judged (unlock_by (seed_of s.now) (generator_of s.now) width n key) }
{
    let generator = fields::generator(s);
    checks::unlock(fields::seed(s), generator.x, width, n, key)
}

fn clear_list(s: &[u8], l: u16) -> Result<Deed, Reason>
    ensures { result ≡ judged (clear_deed (list_count s.now) (runs_named s.now l) l) }
{
    checks::clear_list(pool::list_count(s), asked::runs(s, l), l)
}

fn set_pointer(s: &[u8], l: u16, odt: u8, entry: u8) -> Result<Deed, Reason>
    ensures { result ≡ judged (pointer_deed (list_count s.now) ((session_of s.now).list l).odts (((session_of s.now).list l).odt odt).entries l odt entry) }
{
    checks::set_pointer(
        pool::list_count(s),
        asked::odts(s, l),
        asked::entries(s, l, odt),
        l,
        odt,
        entry,
    )
}

fn write_entry(
    s: &[u8],
    bit: u8,
    n: u8,
    extension: u8,
    address: u32,
    lengths: Lengths,
) -> Result<Deed, Reason>
    ensures { result ≡ judged (write_deed (pointer_of s.now) (pointed_named (pointer_of s.now) s.now) bit n extension address lengths.calibration lengths.measured) }
{
    let pointer = fields::pointer(s);
    checks::write_entry(
        pointer,
        pointed_runs(s, pointer),
        bit,
        n,
        extension,
        address,
        lengths,
    )
}

fn set_mode(
    s: &[u8],
    mode: u8,
    l: u16,
    event: u16,
    prescaler: u8,
    priority: u8,
) -> Result<Deed, Reason>
    ensures { result ≡ judged (mode_deed (list_count s.now) (runs_named s.now l) mode l event prescaler priority) }
{
    checks::set_mode(
        pool::list_count(s),
        asked::runs(s, l),
        mode,
        l,
        event,
        prescaler,
        priority,
    )
}

// A start alone asks what a list has.
#[tactic(auto, unfolding(model::specs::Judge::start_stop_deed))]
fn start_stop(s: &[u8], mode: u8, l: u16) -> Result<Deed, Reason>
    ensures { result ≡ judged (start_stop_deed (list_count s.now) (runs_named s.now l) (fits_named s.now l) mode l) }
{
    let present = pool::list_count(s);
    if mode != 1 {
        return checks::start_stop(present, false, false, mode, l);
    }
    checks::start_stop(present, asked::runs(s, l), asked::fits(s, l), mode, l)
}

#[tactic(auto, unfolding(model::specs::Judge::synch_deed))]
fn start_stop_synch(s: &[u8], mode: u8) -> Result<Deed, Reason>
    ensures { result ≡ judged (synch_deed (ready s.now) mode) }
{
    if mode != 1 {
        return checks::start_stop_synch(false, mode);
    }
    checks::start_stop_synch(asked::all_fit(s), mode)
}

fn alloc_lists(s: &[u8], n: u16) -> Result<Deed, Reason>
    ensures { result ≡ judged (alloc_lists_deed (freed_of s.now) (list_count s.now) n) }
{
    checks::alloc_lists(pool::is_freed(s), pool::list_count(s), n)
}

fn alloc_odts(s: &[u8], l: u16, n: u8) -> Result<Deed, Reason>
    ensures { result ≡ judged (alloc_odts_deed (list_count s.now) ((session_of s.now).list l).odts (odt_total s.now) (entry_total s.now) (any_started s.now) l n) }
{
    checks::alloc_odts(
        pool::list_count(s),
        asked::odts(s, l),
        pool::odt_total(s),
        pool::entry_total(s),
        asked::any_started(s),
        l,
        n,
    )
}

// Of a list that there is not nothing is asked: it has no ODTs.
fn alloc_entries(s: &[u8], l: u16, odt: u8, n: u8) -> Result<Deed, Reason>
    ensures { result ≡ judged (alloc_entries_deed ((session_of s.now).list l).odts (((session_of s.now).list l).odt odt).entries (odt_total s.now) (entry_total s.now) (runs_named s.now l) l odt n) }
{
    let all = pool::odt_total(s);
    if pool::list_count(s) as u16 <= l {
        return checks::alloc_entries(0, 0, all, 0, false, 0, odt, n);
    }
    checks::alloc_entries(
        asked::odts(s, l),
        asked::entries(s, l, odt),
        all,
        pool::entry_total(s),
        asked::runs(s, l),
        l as u8,
        odt,
        n,
    )
}

// Each command's own checks. One match, as document 01 asks of the dispatch: each arm looks at what its command's checks take.
#[tactic(auto, unfolding(model::specs::Judge::judge_the))]
fn judge_the(command: Command, s: &[u8], n: u8, lengths: Lengths) -> Result<Deed, Reason>
    ensures { result ≡ judged (judge_the command (numbers_at s.now n) (looked_at s.now) lengths.calibration lengths.measured) }
{
    match command {
        Command::Unknown => Err(Reason::Unknown),
        Command::Connect => checks::connect(get(s, layout::PACKET_1)),
        Command::Disconnect => Ok(Deed::Disconnect),
        Command::GetStatus => Ok(Deed::Status),
        Command::Synch => Ok(Deed::Synch),
        Command::GetSeed => checks::get_seed(
            fields::wrong_keys(s),
            fields::unlocked(s, Resource::Calibration),
            fields::unlocked(s, Resource::Lists),
            get(s, layout::PACKET_1),
            get(s, layout::PACKET_2),
        ),
        Command::Unlock => unlock(s, get(s, layout::PACKET_1), n, get32(s, layout::PACKET_2)),
        Command::SetMta => checks::set_mta(get(s, layout::PACKET_3), get32(s, layout::PACKET_4)),
        Command::Upload => checks::upload(fields::mta(s), get(s, layout::PACKET_1), lengths),
        Command::ShortUpload => checks::short_upload(
            get(s, layout::PACKET_1),
            get(s, layout::PACKET_3),
            get32(s, layout::PACKET_4),
            lengths,
        ),
        Command::BuildChecksum => checks::build_checksum(
            fields::mta(s),
            get32(s, layout::PACKET_4),
            lengths,
        ),
        Command::Download => checks::download(
            fields::mta(s),
            get(s, layout::PACKET_1),
            n,
            lengths.calibration,
        ),
        Command::ShortDownload => checks::short_download(
            get(s, layout::PACKET_1),
            get(s, layout::PACKET_3),
            get32(s, layout::PACKET_4),
            n,
            lengths.calibration,
        ),
        Command::ClearDaqList => clear_list(s, get16(s, layout::PACKET_2)),
        Command::SetDaqPtr => set_pointer(
            s,
            get16(s, layout::PACKET_2),
            get(s, layout::PACKET_4),
            get(s, layout::PACKET_5),
        ),
        Command::WriteDaq => write_entry(
            s,
            get(s, layout::PACKET_1),
            get(s, layout::PACKET_2),
            get(s, layout::PACKET_3),
            get32(s, layout::PACKET_4),
            lengths,
        ),
        Command::SetDaqListMode => set_mode(
            s,
            get(s, layout::PACKET_1),
            get16(s, layout::PACKET_2),
            get16(s, layout::PACKET_4),
            get(s, layout::PACKET_6),
            get(s, layout::PACKET_7),
        ),
        Command::StartStopDaqList => {
            start_stop(s, get(s, layout::PACKET_1), get16(s, layout::PACKET_2))
        }
        Command::StartStopSynch => start_stop_synch(s, get(s, layout::PACKET_1)),
        Command::GetDaqProcessorInfo => Ok(Deed::ProcessorInfo),
        Command::GetDaqResolutionInfo => Ok(Deed::ResolutionInfo),
        Command::FreeDaq => Ok(Deed::FreeLists),
        Command::AllocDaq => alloc_lists(s, get16(s, layout::PACKET_2)),
        Command::AllocOdt => alloc_odts(s, get16(s, layout::PACKET_2), get(s, layout::PACKET_4)),
        Command::AllocOdtEntry => alloc_entries(
            s,
            get16(s, layout::PACKET_2),
            get(s, layout::PACKET_4),
            get(s, layout::PACKET_5),
        ),
    }
}

// Whether the lock that a command needs is shut.
fn locked(needs: Option<Resource>, s: &[u8]) -> bool
    ensures { result ≡ locked_by needs (looked_at s.now) }
{
    match needs {
        None => false,
        Some(resource) => !fields::unlocked(s, resource),
    }
}

// Too short and locked are judged once for all; an unknown code is never either, and `judge_the` refuses it.
#[tactic(auto, unfolding(model::specs::Judge::judge_by))]
fn judge_by(command: Command, s: &[u8], n: u8, lengths: Lengths) -> Result<Deed, Reason>
    ensures { result ≡ judged (judge_by command (numbers_at s.now n) (looked_at s.now) lengths.calibration lengths.measured) }
{
    check(command.fewest() <= n, Reason::TooShort)?;
    check(!locked(command.needs(), s), Reason::Locked)?;
    judge_the(command, s, n, lengths)
}

// What the command in the packet of n bytes leads to: in a state of the right size, the verdict on all that can be seen (`judged_there`).
// Whichever check refuses, the refusal becomes a deed here: the session performs deeds, and `judge` speaks of them.
#[tactic(auto, unfolding(model::specs::Judge::judge))]
pub fn judge(s: &[u8], n: u8, nc: usize, nm: usize) -> Deed
    ensures { result ≡ judge (numbers_at s.now n) (looked_at s.now) nc nm }
{
    let lengths = Lengths {
        calibration: nc,
        measured: nm,
    };
    let command = Command::from(get(s, layout::PACKET));
    judge_by(command, s, n, lengths).unwrap_or_else(Deed::Refuse)
}
