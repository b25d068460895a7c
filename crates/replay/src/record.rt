// One record of a log: body length, kind, body.
ghost use Rattle.std.specs.Prelude.{◌≡◌, ◌+◌, ◌<◌, ◌≤◌, true, length};
ghost use Rattle.replay.specs.Record.{longest_body, record_at, body_of, measured_of, whole_of, fits_of, next_of};

use state::bytes::get16;

// Body length and kind.
const HEADER: usize = 4;

pub const LONGEST_BODY: usize = 256;

const MEMORY: usize = 4096;

#[derive(Clone, Copy)]
pub enum Record {
    Wire {
        from: usize,
        len: usize,
    },
    Event {
        event: u8,
        clock: u16,
    },
    Slot,
    Measured {
        from: usize,
        offset: usize,
        len: usize,
    },
}

// Why there is no record to run.
#[derive(Clone, Copy)]
pub enum Halt {
    // The bytes end where a record would begin.
    End,
    // The bytes end inside a record that may still turn out good.
    More,
    Bad,
}

// Whether a body of that length is one of its kind.
#[tactic(auto, unfolding(crate::specs::Record::fits_of))]
fn fits(kind: u16, len: usize) -> bool
    ensures { result ≡ fits_of kind len }
{
    match kind {
        1 => true,
        2 => len == 3,
        3 => len == 0,
        4 => 2 <= len,
        _ => false,
    }
}

// Measured bytes, if all of them have a place.
#[tactic(auto, unfolding(crate::specs::Record::measured_of))]
fn measured(bytes: &[u8], from: usize, len: usize) -> Result<Record, Halt>
    requires { (from + len ≤ length bytes.now) × (2 ≤ len) × (len ≤ longest_body) }
    ensures { result ≡ measured_of bytes.now from len }
{
    let offset = get16(bytes, from) as usize;
    let count = len - 2;
    if MEMORY < offset + count {
        return Err(Halt::Bad);
    }
    Ok(Record::Measured {
        from: from + 2,
        offset,
        len: count,
    })
}

// A record whose body is all there.
#[tactic(auto, using(crate::proofs::Records::event_three, crate::proofs::Records::measured_two), unfolding(crate::specs::Record::whole_of))]
fn whole(bytes: &[u8], kind: u16, from: usize, len: usize) -> Result<Record, Halt>
    requires { (from + len ≤ length bytes.now) × (len ≤ longest_body) × (fits_of kind len ≡ true) }
    ensures { result ≡ whole_of bytes.now kind from len }
{
    match kind {
        1 => Ok(Record::Wire { from, len }),
        2 => Ok(Record::Event {
            event: bytes[from],
            clock: get16(bytes, from + 1),
        }),
        3 => Ok(Record::Slot),
        _ => measured(bytes, from, len),
    }
}

// The header is judged before the body is waited for.
#[tactic(auto, unfolding(crate::specs::Record::body_of))]
fn body(bytes: &[u8], kind: u16, from: usize, len: usize) -> Result<Record, Halt>
    requires { from ≤ length bytes.now }
    ensures { result ≡ body_of bytes.now kind from len }
{
    if LONGEST_BODY < len || !fits(kind, len) {
        return Err(Halt::Bad);
    }
    if bytes.len() - from < len {
        return Err(Halt::More);
    }
    whole(bytes, kind, from, len)
}

// The record that begins at `at`.
#[tactic(auto, unfolding(crate::specs::Record::record_at))]
pub fn record_at(bytes: &[u8], at: usize) -> Result<Record, Halt>
    ensures { result ≡ record_at bytes.now at }
{
    if bytes.len() <= at {
        return Err(Halt::End);
    }
    if bytes.len() - at < HEADER {
        return Err(Halt::More);
    }
    let len = get16(bytes, at) as usize;
    body(bytes, get16(bytes, at + 2), at + HEADER, len)
}

impl Record {
    // Where the record after this one begins, which begins at `at`.
    #[tactic(auto, unfolding(crate::specs::Record::next_of))]
    pub fn next(self, at: usize) -> usize
        requires { next_of self at < 18446744073709551616 }
        ensures { result ≡ next_of self at }
    {
        match self {
            Record::Wire { from, len } => from + len,
            Record::Event { event: _, clock: _ } => at + HEADER + 3,
            Record::Slot => at + HEADER,
            Record::Measured {
                from,
                offset: _,
                len,
            } => from + len,
        }
    }
}
