// The deeds of a session and of memory access: of each its effect, then its answer.
#![tactic(auto, unfolding(crate::specs::Perform::effect, model::specs::Answers::reply_in, model::specs::View::session_of))]

ghost use Rattle.std.specs.Prelude.{◌≡◌, cond, [], ◌∷◌, ◌+◌, ◌≤◌, length};
ghost use Rattle.state.specs.Layout.{packet_most, upload_most, download_most, addressable, packet_at};
ghost use Rattle.state.specs.Bytes.{block};
ghost use Rattle.state.specs.Memory.{pick};
ghost use Rattle.session.specs.Perform.{after};
ghost use Rattle.model.specs.Answers.{written};
ghost use Rattle.judge.specs.Doable.{Inside};

use crate::blocks::copy;
use crate::{State, answer};
use lists::asked::any_runs;
use model::Deed;
use state::{fields, layout};
use sums::block_sum;
use words::{Extension, Mta, Reason, Resource};

// BUILD_CHECKSUM's refusal of a size names the most that it sums.
pub fn refuse_size(s: &mut State)
    ensures { s.new ≡ after Deed.RefuseSize s.old [] [] }
{
    answer::put(s, [0xFE, 0x22, 0x00, 0x00, 0x00, 0x10, 0x00, 0x00]);
}

pub fn connect(s: &mut State)
    ensures { s.new ≡ after Deed.Connect s.old [] [] }
{
    fields::begin(s);
    answer::put(
        s,
        [
            0xFF,
            0x05,
            0x00,
            layout::PACKET_MOST,
            layout::PACKET_MOST,
            0x00,
            0x01,
            0x01,
        ],
    );
}

// A wrong key ends the session, and counts.
pub fn wrong_key(s: &mut State)
    ensures { s.new ≡ after Deed.WrongKey s.old [] [] }
{
    fields::close(s);
    fields::count_wrong(s);
    answer::refusal(s, Reason::WrongKey);
}

fn running_bit(runs: bool) -> u8
    ensures { result ≡ cond runs 0x40 0x00 }
{
    if runs { 0x40 } else { 0x00 }
}

pub fn status(s: &mut State)
    ensures { s.new ≡ after Deed.Status s.old [] [] }
{
    let running = running_bit(any_runs(s));
    let mask = fields::mask(s);
    answer::put(s, [0xFF, running, mask, 0x00, 0x00, 0x00]);
}

// Each seed given is the generator's next state.
pub fn give_seed(s: &mut State, resource: Resource)
    ensures { s.new ≡ after (Deed.GiveSeed resource) s.old [] [] }
{
    let g = fields::generator(s).next();
    fields::set_generator(s, g);
    fields::set_seed(s, Some(resource));
    answer::seed(s, g.x);
}

// The seed is used up.
pub fn unlock(s: &mut State, resource: Resource)
    ensures { s.new ≡ after (Deed.Unlock resource) s.old [] [] }
{
    fields::unlock(s, resource);
    fields::set_seed(s, None);
    let mask = fields::mask(s);
    answer::put(s, [0xFF, mask]);
}

// The memory that an extension stands for.
fn memory<'a>(extension: Extension, cal: &'a [u8], meas: &'a [u8]) -> &'a [u8]
    ensures { result.now ≡ pick extension cal.now meas.now }
{
    match extension {
        Extension::Calibration => cal,
        Extension::Measured => meas,
    }
}

// UPLOAD and SHORT_UPLOAD: the MTA lies behind the block, also where it was unset.
pub fn upload(s: &mut State, cal: &[u8], meas: &[u8], extension: Extension, address: u32, n: u8)
    requires { Inside upload_most address n (pick extension (length cal.now) (length meas.now)) }
    ensures { s.new ≡ after (Deed.Upload extension address n) s.old cal.now meas.now }
{
    let behind = address + n as u32;
    fields::set_mta(s, Mta::At(extension, behind));
    answer::bytes(s, memory(extension, cal, meas), address, n);
}

pub fn checksum(s: &mut State, cal: &[u8], meas: &[u8], extension: Extension, address: u32, n: u32)
    requires { Inside addressable address n (pick extension (length cal.now) (length meas.now)) }
    ensures { s.new ≡ after (Deed.Checksum extension address n) s.old cal.now meas.now }
{
    fields::set_mta(s, Mta::At(extension, address + n));
    let mem = memory(extension, cal, meas);
    answer::sum(s, block_sum(mem, address as usize, n as usize));
}

// The data lies in the packet from byte `from` on.
pub fn download(s: &mut State, cal: &mut [u8], from: u8, address: u32, n: u8, len: u8)
    requires { (len ≤ packet_most) × (n + from ≤ len) × Inside download_most address n (length cal.old) }
    ensures { (s.new ≡ after (Deed.Download from address n) s.old [] []) × (cal.new ≡ written (Deed.Download from address n) (block s.old packet_at len) cal.old) }
{
    copy(cal, address, s, layout::PACKET as u32 + from as u32, n);
    fields::set_mta(s, Mta::At(Extension::Calibration, address + n as u32));
    answer::put(s, [0xFF]);
}
