// A command's own checks, in the paper's order: the first that does not hold refuses. Each takes no more than it looks at, value by
// value: a record of the packet and one of the state, filled before the dispatch, cost 172 to 319 instructions a command (Cortex-M4).
ghost use Rattle.std.specs.Prelude.{◌≡◌, leb, if◌then◌else◌, Ok, Err};
ghost use Rattle.words.specs.declared.Reason.TheVariants.{OutOfRange};
ghost use Rattle.model.specs.Judge.{connect_deed, get_seed_deed, unlock_by, set_mta_deed, upload_deed, short_upload_deed, checksum_deed, download_to, download_deed, short_download_deed, clear_deed, pointer_deed, write_deed, mode_deed, start_deed, start_stop_deed, synch_deed, alloc_lists_deed, alloc_odts_deed, alloc_entries_deed};
ghost use Rattle.judge.specs.Judged.{judged};

use crate::Lengths;
use model::Deed;
use state::layout;
use state::memory::inside;
use state::seeds::{key_for, stays_shut};
use words::{Extension, Mta, Pointer, Reason, Resource};

// One check: where it does not hold, the command is refused.
pub fn check(holds: bool, reason: Reason) -> Result<(), Reason>
    ensures { result ≡ (if holds then Ok tt else Err reason) }
{
    if holds { Ok(()) } else { Err(reason) }
}

// The number of a list that there is.
fn listed(present: u8, l: u16) -> Result<u8, Reason>
    ensures { result ≡ (if leb present l then Err OutOfRange else Ok l) }
{
    check(l < present as u16, Reason::OutOfRange)?;
    Ok(l as u8)
}

#[tactic(auto, unfolding(model::specs::Judge::connect_deed))]
pub fn connect(mode: u8) -> Result<Deed, Reason>
    ensures { result ≡ judged (connect_deed mode) }
{
    check(mode == 0, Reason::OutOfRange)?;
    Ok(Deed::Connect)
}

#[tactic(auto, unfolding(model::specs::Judge::get_seed_deed))]
pub fn get_seed(
    wrong: u8,
    calibration: bool,
    lists: bool,
    mode: u8,
    resource: u8,
) -> Result<Deed, Reason>
    ensures { result ≡ judged (get_seed_deed wrong calibration lists mode resource) }
{
    check(!stays_shut(wrong), Reason::Locked)?;
    check(mode != 1, Reason::Sequence)?;
    check(mode <= 1, Reason::OutOfRange)?;
    let wanted = Resource::try_from(resource)?;
    let unlocked = match wanted {
        Resource::Calibration => calibration,
        Resource::Lists => lists,
    };
    if unlocked {
        Ok(Deed::NoSeed)
    } else {
        Ok(Deed::GiveSeed(wanted))
    }
}

#[tactic(auto, unfolding(model::specs::Judge::unlock_by))]
pub fn unlock(seed: Option<Resource>, g: u32, size: u8, n: u8, key: u32) -> Result<Deed, Reason>
    ensures { result ≡ judged (unlock_by seed g size n key) }
{
    let resource = seed.ok_or(Reason::Sequence)?;
    check(size == 4, Reason::OutOfRange)?;
    check(6 <= n, Reason::DataMissing)?;
    // A wrong key is counted and ends the session: it does more than refuse.
    if key == key_for(resource, g) {
        Ok(Deed::Unlock(resource))
    } else {
        Ok(Deed::WrongKey)
    }
}

#[tactic(auto, unfolding(model::specs::Judge::set_mta_deed))]
pub fn set_mta(extension: u8, address: u32) -> Result<Deed, Reason>
    ensures { result ≡ judged (set_mta_deed extension address) }
{
    let memory = Extension::try_from(extension)?;
    Ok(Deed::SetMta(memory, address))
}

#[tactic(auto, unfolding(model::specs::Judge::upload_deed))]
pub fn upload(mta: Mta, n: u8, lengths: Lengths) -> Result<Deed, Reason>
    ensures { result ≡ judged (upload_deed mta n lengths.calibration lengths.measured) }
{
    let Mta::At(extension, address) = mta else {
        return Err(Reason::Sequence);
    };
    check(n != 0, Reason::OutOfRange)?;
    check(n <= layout::UPLOAD_MOST, Reason::OutOfRange)?;
    let inside = lengths.hold(extension, address, n as u32);
    check(inside, Reason::NotInside)?;
    Ok(Deed::Upload(extension, address, n))
}

// UPLOAD from its own extension and address. A wrong size and a wrong extension refuse alike, so their order does not show.
#[tactic(auto, unfolding(model::specs::Judge::upload_deed, model::specs::Judge::short_upload_deed))]
pub fn short_upload(n: u8, extension: u8, address: u32, lengths: Lengths) -> Result<Deed, Reason>
    ensures { result ≡ judged (short_upload_deed n extension address lengths.calibration lengths.measured) }
{
    let memory = Extension::try_from(extension)?;
    upload(Mta::At(memory, address), n, lengths)
}

#[tactic(auto, unfolding(model::specs::Judge::checksum_deed))]
pub fn build_checksum(mta: Mta, n: u32, lengths: Lengths) -> Result<Deed, Reason>
    ensures { result ≡ judged (checksum_deed mta n lengths.calibration lengths.measured) }
{
    let Mta::At(extension, address) = mta else {
        return Err(Reason::Sequence);
    };
    // Its answer names the largest size: it does more than refuse.
    if n == 0 || layout::CHECKSUM_MOST < n {
        return Ok(Deed::RefuseSize);
    }
    check(lengths.hold(extension, address, n), Reason::NotInside)?;
    Ok(Deed::Checksum(extension, address, n))
}

// Where the data goes, which lies in the packet from byte `from` on.
#[tactic(auto, unfolding(model::specs::Judge::download_to))]
fn download_to(
    from: u8,
    extension: Extension,
    address: u32,
    n: u8,
    nc: usize,
) -> Result<Deed, Reason>
    ensures { result ≡ judged (download_to from extension address n nc) }
{
    let writable = matches!(extension, Extension::Calibration);
    check(writable, Reason::ReadOnly)?;
    check(inside(address, n as u32, nc), Reason::NotInside)?;
    Ok(Deed::Download(from, address, n))
}

#[tactic(auto, unfolding(model::specs::Judge::download_deed))]
pub fn download(mta: Mta, n: u8, len: u8, nc: usize) -> Result<Deed, Reason>
    ensures { result ≡ judged (download_deed mta n len nc) }
{
    let Mta::At(extension, address) = mta else {
        return Err(Reason::Sequence);
    };
    check(n != 0, Reason::OutOfRange)?;
    check(n <= layout::DOWNLOAD_MOST, Reason::OutOfRange)?;
    check(n + layout::DOWNLOAD_FROM <= len, Reason::DataMissing)?;
    download_to(layout::DOWNLOAD_FROM, extension, address, n, nc)
}

#[tactic(auto, unfolding(model::specs::Judge::short_download_deed))]
pub fn short_download(
    n: u8,
    extension: u8,
    address: u32,
    len: u8,
    nc: usize,
) -> Result<Deed, Reason>
    ensures { result ≡ judged (short_download_deed n extension address len nc) }
{
    check(n != 0, Reason::OutOfRange)?;
    check(n <= layout::SHORT_DOWNLOAD_MOST, Reason::OutOfRange)?;
    let memory = Extension::try_from(extension)?;
    check(n + layout::SHORT_DOWNLOAD_FROM <= len, Reason::DataMissing)?;
    download_to(layout::SHORT_DOWNLOAD_FROM, memory, address, n, nc)
}

#[tactic(auto, unfolding(model::specs::Judge::clear_deed))]
pub fn clear_list(present: u8, runs: bool, l: u16) -> Result<Deed, Reason>
    ensures { result ≡ judged (clear_deed present runs l) }
{
    let list = listed(present, l)?;
    check(!runs, Reason::ListRuns)?;
    Ok(Deed::ClearList(list))
}

#[tactic(auto, unfolding(model::specs::Judge::pointer_deed))]
pub fn set_pointer(
    present: u8,
    odts: u16,
    entries: u16,
    l: u16,
    odt: u8,
    entry: u8,
) -> Result<Deed, Reason>
    ensures { result ≡ judged (pointer_deed present odts entries l odt entry) }
{
    let list = listed(present, l)?;
    check((odt as u16) < odts, Reason::OutOfRange)?;
    check((entry as u16) < entries, Reason::OutOfRange)?;
    Ok(Deed::SetPointer(list, odt, entry))
}

#[tactic(auto, unfolding(model::specs::Judge::write_deed, model::specs::Judge::write_block))]
pub fn write_entry(
    pointer: Pointer,
    runs: bool,
    bit: u8,
    n: u8,
    extension: u8,
    address: u32,
    lengths: Lengths,
) -> Result<Deed, Reason>
    ensures { result ≡ judged (write_deed pointer runs bit n extension address lengths.calibration lengths.measured) }
{
    let Pointer::At { list, odt, entry } = pointer else {
        return Err(Reason::Sequence);
    };
    check(bit == 0xFF, Reason::OutOfRange)?;
    check(n <= layout::ENTRY_MOST, Reason::OutOfRange)?;
    let memory = Extension::try_from(extension)?;
    check(!runs, Reason::ListRuns)?;
    // A block of size 0 is always inside.
    if n == 0 {
        return Ok(Deed::ClearEntry(list, odt, entry));
    }
    let inside = lengths.hold(memory, address, n as u32);
    check(inside, Reason::NotInside)?;
    Ok(Deed::WriteEntry(list, odt, entry, n, memory, address))
}

#[tactic(auto, unfolding(model::specs::Judge::mode_deed))]
pub fn set_mode(
    present: u8,
    runs: bool,
    mode: u8,
    l: u16,
    event: u16,
    prescaler: u8,
    priority: u8,
) -> Result<Deed, Reason>
    ensures { result ≡ judged (mode_deed present runs mode l event prescaler priority) }
{
    check(mode == 0x10, Reason::OutOfRange)?;
    let list = listed(present, l)?;
    check(event < layout::EVENTS as u16, Reason::OutOfRange)?;
    check(prescaler == 1, Reason::OutOfRange)?;
    check(priority == 0, Reason::OutOfRange)?;
    check(!runs, Reason::ListRuns)?;
    Ok(Deed::SetMode(list, event as u8))
}

#[tactic(auto, unfolding(model::specs::Judge::start_deed))]
fn start(runs: bool, fit: bool, l: u8) -> Result<Deed, Reason>
    ensures { result ≡ judged (start_deed runs fit l) }
{
    if runs {
        return Ok(Deed::KeepRunning(l));
    }
    check(fit, Reason::CannotStart)?;
    Ok(Deed::Start(l))
}

#[tactic(auto, unfolding(model::specs::Judge::start_stop_deed))]
pub fn start_stop(present: u8, runs: bool, fit: bool, mode: u8, l: u16) -> Result<Deed, Reason>
    ensures { result ≡ judged (start_stop_deed present runs fit mode l) }
{
    check(mode <= 2, Reason::OutOfRange)?;
    let list = listed(present, l)?;
    match mode {
        0 => Ok(Deed::Stop(list)),
        1 => start(runs, fit, list),
        _ => Ok(Deed::Select(list)),
    }
}

#[tactic(auto, unfolding(model::specs::Judge::synch_deed))]
pub fn start_stop_synch(ready: bool, mode: u8) -> Result<Deed, Reason>
    ensures { result ≡ judged (synch_deed ready mode) }
{
    match mode {
        0 => Ok(Deed::StopAll),
        1 => {
            check(ready, Reason::CannotStart)?;
            Ok(Deed::StartSelected)
        }
        2 => Ok(Deed::StopSelected),
        _ => Err(Reason::OutOfRange),
    }
}

// First FREE_DAQ, and once.
#[tactic(auto, unfolding(model::specs::Judge::alloc_lists_deed))]
pub fn alloc_lists(freed: bool, present: u8, n: u16) -> Result<Deed, Reason>
    ensures { result ≡ judged (alloc_lists_deed freed present n) }
{
    check(freed, Reason::Sequence)?;
    check(present == 0, Reason::Sequence)?;
    check(n != 0, Reason::OutOfRange)?;
    check(n <= layout::LISTS as u16, Reason::PoolFull)?;
    Ok(Deed::AllocLists(n as u8))
}

// First ALLOC_DAQ, no ALLOC_ODT_ENTRY yet, no list started, and once for a list.
#[tactic(auto, unfolding(model::specs::Judge::alloc_odts_deed))]
pub fn alloc_odts(
    present: u8,
    odts: u16,
    taken: u16,
    entries: u16,
    started: bool,
    l: u16,
    n: u8,
) -> Result<Deed, Reason>
    ensures { result ≡ judged (alloc_odts_deed present odts taken entries started l n) }
{
    check(present != 0, Reason::Sequence)?;
    check(entries == 0, Reason::Sequence)?;
    check(odts == 0, Reason::Sequence)?;
    check(!started, Reason::Sequence)?;
    let list = listed(present, l)?;
    check(n != 0, Reason::OutOfRange)?;
    let after = taken as u32 + n as u32;
    check(after <= layout::ALL_ODTS as u32, Reason::PoolFull)?;
    Ok(Deed::AllocOdts(list, n))
}

// First ALLOC_ODT, and once for an ODT. A list that there is not has no ODTs.
#[tactic(auto, unfolding(model::specs::Judge::alloc_entries_deed))]
pub fn alloc_entries(
    odts: u16,
    entries: u16,
    all: u16,
    taken: u16,
    runs: bool,
    l: u8,
    odt: u8,
    n: u8,
) -> Result<Deed, Reason>
    ensures { result ≡ judged (alloc_entries_deed odts entries all taken runs l odt n) }
{
    check(all != 0, Reason::Sequence)?;
    check(entries == 0, Reason::Sequence)?;
    check((odt as u16) < odts, Reason::OutOfRange)?;
    check(n != 0, Reason::OutOfRange)?;
    check(!runs, Reason::ListRuns)?;
    let after = taken as u32 + n as u32;
    check(after <= layout::ALL_ENTRIES as u32, Reason::PoolFull)?;
    Ok(Deed::AllocEntries(l, odt, n))
}
