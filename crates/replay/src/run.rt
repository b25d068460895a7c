// What the records do.
ghost use Rattle.std.specs.Prelude.{◌≡◌, ◌≤◌, length, Err};
ghost use Rattle.replay.specs.Record.{Inside, record_at};

use crate::output::Output;
use crate::record::{self, Halt, Record};
use bench::Gun;
use line::ROOM;

// How far the records of a chunk were run, how many they were, and why no more.
#[derive(Clone, Copy)]
pub struct Ran {
    pub at: usize,
    pub count: usize,
    pub halt: Halt,
}

// Wire bytes go to the slave in slices: a call takes them up to one that ends something, or none if the state is not consistent.
// No `for`: what is left goes on by as many as the call took.
fn wire(bytes: &[u8], gun: &mut Gun) {
    let mut rest = bytes;
    while !rest.is_empty() {
        let taken = gun.receive_bytes(rest).taken;
        if taken == 0 {
            return;
        }
        rest = &rest[taken as usize..];
    }
}

// The frame is printed from where it was written: handed over as `Bytes` it would be copied, at every slot of a log.
fn slot(gun: &mut Gun, output: &mut Output) {
    let mut frame = [0; ROOM];
    let size = gun.slot(&mut frame).ok().flatten().unwrap_or(0);
    output.add_line(&frame[..size.min(ROOM)]);
}

#[tactic(auto, unfolding(crate::specs::Record::Inside))]
fn run(found: Record, bytes: &[u8], gun: &mut Gun, output: &mut Output)
    requires { Inside (length bytes.now) found }
{
    match found {
        Record::Wire { from, len } => wire(&bytes[from..from + len], gun),
        Record::Event { event, clock } => {
            let _ = gun.event(event as u32, clock);
        }
        Record::Slot => slot(gun, output),
        Record::Measured { from, offset, len } => gun.measure(offset, &bytes[from..from + len]),
    }
}

// Runs the records of a chunk in order, up to the first that is bad or not whole.
pub fn run_all(bytes: &[u8], gun: &mut Gun, output: &mut Output) -> Ran
    ensures within { result.at ≤ length bytes.now }
    ensures halts { record_at bytes.now result.at ≡ Err result.halt }
{
    let mut at = 0;
    let mut count = 0;
    loop {
        match record::record_at(bytes, at) {
            Ok(found) => {
                run(found, bytes, gun, output);
                at = found.next(at);
                count += 1;
            }
            Err(halt) => return Ran { at, count, halt },
        }
    }
}
