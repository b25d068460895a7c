// What is said of a sheet that is wrong: `bad` on standard output, and on standard error where it is wrong, and what.
use std::fmt;
use std::fmt::Write;
use syntax::Stop;

// Standard error, by io as all that the sheet program writes. What it does not take is let go, and the sheet goes on.
#[derive(Clone, Copy)]
struct Errors;

impl fmt::Write for Errors {
    fn write_str(&mut self, text: &str) -> fmt::Result {
        io::write_all(2, text.as_bytes());
        Ok(())
    }
}

fn say_bad() {
    io::write_all(1, b"bad\n");
}

// A line that is wrong, and at which place of it.
pub fn say(stop: Stop) {
    say_bad();
    let _ = writeln!(Errors, "sheet: {stop}");
}

pub fn say_too_long() {
    say_bad();
    let _ = writeln!(
        Errors,
        "sheet: it has more than 65,535 bytes and was not run"
    );
}

pub fn say_no_step() {
    say_bad();
    let _ = writeln!(Errors, "sheet: it has no step");
}

pub fn tell_first(line: u32) {
    let _ = writeln!(
        Errors,
        "sheet: line {line} was the first that came out different"
    );
}
