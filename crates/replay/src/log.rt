// The log on standard input, taken in chunks.
ghost use Rattle.std.specs.Prelude.{◌≡◌, ◌+◌, ◌≤◌, length};

use crate::output::Output;
use crate::record::{Halt, LONGEST_BODY};
use crate::run;
use bench::Gun;
use std::fmt;
use std::fmt::{Display, Write};
use std::io::{Read, Stdin};

// How many records of the log were run, and how many bytes they have.
#[derive(Clone, Copy)]
struct Far {
    records: u64,
    bytes: u64,
}

impl Far {
    // A log has fewer than 2^64 bytes: no count wraps.
    fn on(self, records: usize, bytes: usize) -> Self {
        Self {
            records: self.records.wrapping_add(records as u64),
            bytes: self.bytes.wrapping_add(bytes as u64),
        }
    }
}

const SIZE: usize = 65536;

// What is read of the log and not yet run.
#[derive(Drop)]
struct Input {
    read: [u8; SIZE],
    kept: usize,
    ghost within: { kept ≤ 65536 },
}

impl Input {
    fn new() -> Self {
        Self {
            read: [0; SIZE],
            kept: 0,
        }
    }

    fn bytes(&self) -> &[u8]
        ensures { length result.now ≡ self.now.kept }
    {
        &self.read[..self.kept]
    }

    // Reads once and answers how many bytes came. A read error counts as end of input.
    fn read_on(&mut self, stdin: &mut Stdin) -> usize
        ensures { self.new.kept ≡ self.old.kept + result }
    {
        let got = stdin.read(&mut self.read[self.kept..]).unwrap_or(0);
        self.kept += got;
        got
    }

    // Keeps the bytes from there on.
    fn keep(&mut self, from: usize)
        requires { from ≤ self.old.kept }
    {
        self.read.copy_within(from..self.kept, 0);
        self.kept -= from;
    }
}

// Standard error, by io as all that the program writes. What it does not take is let go. The sheet program has its own: for these few lines a crate of both
// would be no plainer.
#[derive(Clone, Copy)]
struct Errors;

impl fmt::Write for Errors {
    fn write_str(&mut self, text: &str) -> fmt::Result {
        io::write_all(2, text.as_bytes());
        Ok(())
    }
}

// The line that ends the output; standard error hears which record it was, and what is wrong.
fn say_bad(far: Far, wrong: impl Display + Drop) {
    io::write_all(1, b"bad\n");
    let record = far.records.wrapping_add(1);
    let at = far.bytes;
    let _ = writeln!(
        Errors,
        "replay: record {record}, which begins at byte {at} (the log's first byte is 0), {wrong}"
    );
}

fn say_none(far: Far) {
    let wrong = format_args!(
        "is none: length and kind, 2 bytes each, then for kind 1 at most {LONGEST_BODY} wire bytes, for 2 an event and a clock, for 3 nothing, for 4 an offset and bytes that lie below 4,096 from there on, {LONGEST_BODY} in all"
    );
    say_bad(far, wrong);
}

// One read, and the records that are then whole. None where nothing more is run.
fn take_chunk(
    stdin: &mut Stdin,
    input: &mut Input,
    far: Far,
    gun: &mut Gun,
    output: &mut Output,
) -> Option<Far> {
    if input.read_on(stdin) == 0 {
        // What is left of the input is a cut record.
        if 0 < input.kept {
            say_bad(far, "is cut off");
        }
        return None;
    }
    let ran = run::run_all(input.bytes(), gun, output);
    output.flush();
    let now = far.on(ran.count, ran.at);
    if let Halt::Bad = ran.halt {
        say_none(now);
        return None;
    }
    input.keep(ran.at);
    Some(now)
}

// Replays the whole log. Nothing says that input ends, and a proved loop has to: it counts its
// reads, of at least a byte each, up to a number that no log uses up.
pub fn replay(stdin: &mut Stdin, gun: &mut Gun) {
    let mut input = Input::new();
    let mut output = Output::new();
    let mut far = Far {
        records: 0,
        bytes: 0,
    };
    for _ in 0..u64::MAX {
        let Some(now) = take_chunk(stdin, &mut input, far, gun, &mut output) else {
            return;
        };
        far = now;
    }
}
