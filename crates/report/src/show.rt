// What is printed.
ghost use Rattle.std.specs.Prelude.{◌≡◌};
ghost use Rattle.report.specs.Verdict.{Says, AsExpected};

// By io: what standard output does not take is let go, and the sheet runs on to its end. With println! each step would answer an
// io::Result.
pub fn print(text: &[u8]) {
    io::write_all(1, text);
}

fn print_byte(byte: u8) {
    let digits = digits::pair(byte);
    print(&digits);
}

// As wide as a byte, so that it stands under its byte.
fn print_number(number: u8) {
    if number < 10 {
        print(b" ");
    }
    io::print_decimal(1, number as u64);
}

// Each by `print_one`, with a space between.
fn print_spaced<F: Fn(u8)>(bytes: &[u8], print_one: F)
    requires { F.IsAlwaysCallable print_one }
{
    for (i, byte) in bytes.iter().enumerate() {
        if 0 < i {
            print(b" ");
        }
        print_one(*byte);
    }
}

pub fn print_bytes(bytes: &[u8]) {
    if bytes.is_empty() {
        print(b"nothing");
        return;
    }
    print_spaced(bytes, print_byte);
}

// What each byte on the wire gave.
pub fn print_numbers(numbers: &[u8]) {
    print(b"\n    each byte gave            ");
    print_spaced(numbers, print_number);
}

pub fn print_verdict(good: bool) {
    if good {
        print(b"   as expected");
        return;
    }
    print(b"   DIFFERENT");
}

// Whether these bytes are the expected ones.
pub fn check(came: &[u8], expected: &[u8]) -> bool
    ensures { Says result (came.now ≡ expected.now) }
{
    let good = check::same(came, expected);
    print_verdict(good);
    if !good {
        print(b": expected ");
        print_bytes(expected);
    }
    good
}

// A frame, and whether it is the expected one where the sheet says what to expect.
#[tactic(auto, using(crate::proofs::Verdicts::verdict_none))]
pub fn on_the_wire(frame: &[u8], expected: &[u8]) -> bool
    ensures { Says result (AsExpected frame.now expected.now) }
{
    print(b"\n    on the wire               ");
    print_bytes(frame);
    if expected.is_empty() {
        return true;
    }
    check(frame, expected)
}

fn print_count(count: u32, one: &[u8], many: &[u8]) {
    print(b" ");
    io::print_decimal(1, count as u64);
    if count == 1 {
        print(one);
        return;
    }
    print(many);
}

// The last line: cases, steps, and how many cases came different.
pub fn print_end(cases: u32, steps: u32, different: u32) {
    print(b"Every case                 ");
    print_verdict(different == 0);
    print(b":");
    if 0 < different {
        print_count(different, b" of", b" of");
    }
    print_count(cases, b" case,", b" cases,");
    print_count(steps, b" step\n", b" steps\n");
}
