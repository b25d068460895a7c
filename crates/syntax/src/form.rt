// The form of a line of the sheet. A step has its letter, a space, its name in 28 columns of which the last is a space, its
// bytes, and after an = sign those to expect; nothing else. A title has a # sign, a space and its words. An empty line ends a
// case.
ghost use Rattle.std.specs.Prelude.{◌≡◌, ◌+◌, ◌≤◌, min, length, drop, position};
ghost use Rattle.std.proofs.lemmas.List.Edits.{sets};
ghost use Rattle.line.specs.Message.{room};
ghost use Rattle.syntax.specs.Columns.{first_most};
ghost use Rattle.syntax.specs.Form.{ending_at, line_length, odd, step_for, placed_of, resource_of, times_of, bytes_fit, some_up_to, expected_fits, fitted_of, dashes, first_end, sign_at, no_hex, expecting_of, step_of, line_of, step_bytes, expected_bytes};

use crate::{Fault, Line, Step, Wrong, hex};
use line::{MOST, ROOM};
use state::bytes::get;
use state::layout::ADDRESSABLE;

// Where a step's line has its name, and its bytes.
pub const NAME: usize = 2;

pub const BYTES: usize = 30;

// From the end of a step's bytes to those to expect: a space, an = sign and a space.
const SIGN: usize = 3;

// How many bytes at a place end a line: a newline, or a carriage return and a newline. None where it goes on, and at the text's end:
// 0 is a count like the others, by the definition `ending_at`.
#[tactic(auto, using(crate::proofs::Lists::stands_inside), unfolding(crate::specs::Form::ending_at))]
pub fn ending(text: &[u8], at: usize) -> usize
    ensures { (at ≤ length text.now → at + result ≤ length text.now) × (result ≡ ending_at text.now at) }
{
    if text.len() <= at {
        return 0;
    }
    match (text[at], get(text, at + 1)) {
        (b'\n', _) => 1,
        (b'\r', b'\n') => 2,
        _ => 0,
    }
}

// Where the line that begins at a place ends.
#[tactic(auto, using(crate::proofs::Lists::line_here, crate::proofs::Lists::line_next, crate::proofs::Lists::line_end))]
pub fn line_end(text: &[u8], from: usize) -> usize
    ensures { (from ≤ result) × (from ≤ length text.now → result ≤ length text.now) × (result ≡ from + line_length (drop from text.now)) }
{
    for at in from..text.len() {
        if 0 < ending(text, at) {
            return at;
        }
    }
    from.max(text.len())
}

// Where the first sign stands that is no printable ASCII.
fn odd_sign(text: &[u8]) -> Option<usize>
    ensures { result ≡ position odd text.now }
{
    text.iter().position(|c| *c < b' ' || b'~' < *c)
}

// The step that a line with this letter has.
#[tactic(auto, unfolding(crate::specs::Form::step_for))]
fn step_for(letter: u8) -> Option<Step>
    ensures { result ≡ step_for letter }
{
    match letter {
        b'P' => Some(Step::PowerUp),
        b'M' => Some(Step::Measured),
        b'W' => Some(Step::Wire),
        b'>' => Some(Step::Command),
        b'<' => Some(Step::Slot),
        b'U' => Some(Step::Unlock),
        b'R' => Some(Step::Repeat),
        b'E' => Some(Step::Event),
        b'S' => Some(Step::Slice),
        _ => None,
    }
}

// That n is no more than a frame has stands in four contracts: a number alone is no type of its own here, as each of them takes it from `hex::pairs`.
// Whether measured bytes have a place, and all of them one in the memory.
#[tactic(auto, unfolding(crate::specs::Form::placed_of))]
fn placed(text: &[u8], n: usize) -> bool
    requires { n ≤ room }
    ensures { result ≡ placed_of text.now n }
{
    if n < 3 {
        return false;
    }
    let low = hex::value(text, BYTES) as usize;
    let high = hex::value(text, BYTES + 3) as usize;
    low + 256 * high + (n - 2) <= ADDRESSABLE
}

#[tactic(auto, unfolding(crate::specs::Form::resource_of))]
fn resource(text: &[u8]) -> bool
    ensures { result ≡ resource_of text.now }
{
    matches!(hex::value(text, BYTES), 1 | 4)
}

// Whether something is to be done at least once, and what.
#[tactic(auto, unfolding(crate::specs::Form::times_of))]
fn times(text: &[u8], n: usize) -> bool
    ensures { result ≡ times_of text.now n }
{
    hex::value(text, BYTES) != 0 && 2 <= n && n <= 1 + MOST
}

#[tactic(auto, unfolding(crate::specs::Form::bytes_fit))]
fn bytes_fit(step: Step, text: &[u8], n: usize) -> bool
    requires { n ≤ room }
    ensures { result ≡ bytes_fit step text.now n }
{
    match step {
        Step::PowerUp => n == 4,
        Step::Measured => placed(text, n),
        Step::Wire => true,
        Step::Command => n <= MOST,
        Step::Slot => n <= MOST,
        Step::Unlock => n == 1 && resource(text),
        Step::Repeat => times(text, n),
        Step::Event => n == 3,
        Step::Slice => true,
    }
}

#[tactic(auto, unfolding(crate::specs::Form::some_up_to))]
fn some_up_to(m: usize, most: usize) -> bool
    ensures { result ≡ some_up_to m most }
{
    1 <= m && m <= most
}

#[tactic(auto, unfolding(crate::specs::Form::expected_fits))]
fn expected_fits(step: Step, n: usize, m: usize) -> bool
    ensures { result ≡ expected_fits step n m }
{
    match step {
        Step::PowerUp => m == 0,
        Step::Measured => m == 0,
        Step::Wire => m == n,
        Step::Command => true,
        Step::Slot => n != 0 || m == 0,
        Step::Unlock => m == 4,
        Step::Repeat => some_up_to(m, MOST),
        Step::Event => some_up_to(m, 2),
        Step::Slice => m == 2,
    }
}

#[tactic(auto, unfolding(crate::specs::Form::fitted_of))]
fn fitted(step: Step, text: &[u8], n: usize, m: usize) -> Result<Line, Wrong>
    requires { n ≤ room }
    ensures { result ≡ fitted_of step text.now n m }
{
    if !bytes_fit(step, text, n) {
        return Err(Wrong {
            fault: Fault::Bytes(step),
            at: BYTES,
        });
    }
    if !expected_fits(step, n, m) {
        return Err(Wrong {
            fault: Fault::Expected(step),
            at: BYTES + 3 * n,
        });
    }
    Ok(Line::Does(step, n, m))
}

// Only a slot may have a - in place of bytes.
fn takes_dash(step: Step) -> bool
    ensures { result ≡ dashes step }
{
    matches!(step, Step::Slot)
}

// Where the first list of a step ends; at its own place, where there is none. No Option: expected, which promises expected_bytes
// of any line, reads on from there.
#[tactic(auto, unfolding(crate::specs::Form::first_end))]
fn first_end(step: Step, text: &[u8], n: usize) -> usize
    requires { n ≤ room }
    ensures { (result ≤ first_most) × (result ≡ first_end step text.now n) }
{
    if 0 < n {
        return BYTES + 3 * n - 1;
    }
    if get(text, BYTES) == b'-' && takes_dash(step) {
        return BYTES + 1;
    }
    BYTES
}

#[tactic(auto, unfolding(crate::specs::Form::sign_at))]
fn sign_at(text: &[u8], at: usize) -> bool
    requires { at ≤ first_most }
    ensures { result ≡ sign_at text.now at }
{
    get(text, at) == b' ' && get(text, at + 1) == b'=' && get(text, at + 2) == b' '
}

fn no_hex(at: usize) -> Wrong
    ensures { result ≡ no_hex at }
{
    Wrong {
        fault: Fault::Hex,
        at,
    }
}

// How many bytes to expect stand behind the first list, which ends at a place: none at the line's end.
#[tactic(auto, unfolding(crate::specs::Form::expecting_of))]
fn expecting(text: &[u8], at: usize) -> Result<usize, Wrong>
    requires { at ≤ first_most }
    ensures { result ≡ expecting_of text.now at }
{
    if at == text.len() {
        return Ok(0);
    }
    if !sign_at(text, at) {
        return Err(no_hex(at));
    }
    let m = hex::pairs(text, at + SIGN);
    if m == 0 {
        return Err(no_hex(at + SIGN));
    }
    let end = at + 2 + 3 * m;
    if end != text.len() {
        return Err(no_hex(end));
    }
    Ok(m)
}

#[tactic(auto, unfolding(crate::specs::Form::step_of, crate::specs::Form::lists_of))]
fn step_of(step: Step, text: &[u8]) -> Result<Line, Wrong>
    ensures { result ≡ step_of step text.now }
{
    if get(text, BYTES - 1) != b' ' {
        return Err(Wrong {
            fault: Fault::Name,
            at: BYTES - 1,
        });
    }
    let n = hex::pairs(text, BYTES);
    let at = first_end(step, text, n);
    if at == BYTES {
        return Err(no_hex(BYTES));
    }
    let m = expecting(text, at)?;
    fitted(step, text, n, m)
}

#[tactic(auto, using(crate::proofs::Lists::odd_at, crate::proofs::Lists::odd_nowhere), unfolding(crate::specs::Form::line_of))]
pub fn line_of(text: &[u8]) -> Result<Line, Wrong>
    ensures { result ≡ line_of text.now }
{
    if text.len() == 0 {
        return Ok(Line::Empty);
    }
    if let Some(at) = odd_sign(text) {
        return Err(Wrong {
            fault: Fault::Sign,
            at,
        });
    }
    let no_kind = Wrong {
        fault: Fault::Kind,
        at: 0,
    };
    if get(text, 1) != b' ' {
        return Err(no_kind);
    }
    if text[0] == b'#' {
        return Ok(Line::Title);
    }
    let Some(step) = step_for(text[0]) else {
        return Err(no_kind);
    };
    step_of(step, text)
}

// The n bytes of a step, at the front of a list: as many as it has room for, at most.
pub fn bytes(text: &[u8], n: usize, out: &mut [u8; ROOM])
    ensures { out.new ≡ sets out.old 0 (step_bytes (min n room) text.now) }
{
    hex::list(text, BYTES, n, out);
}

// The m bytes that a step has to expect, likewise.
pub fn expected(step: Step, text: &[u8], m: usize, out: &mut [u8; ROOM])
    ensures { out.new ≡ sets out.old 0 (expected_bytes step (min m room) text.now) }
{
    let n = hex::pairs(text, BYTES);
    let at = first_end(step, text, n);
    hex::list(text, at + SIGN, m, out);
}
