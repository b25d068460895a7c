// The line that a slot prints.
ghost use Rattle.std.specs.Prelude.{◌≡◌, ◌+◌, ◌*◌, ◌≤◌, length};
ghost use Rattle.std.proofs.lemmas.List.Edits.{sets};
ghost use Rattle.digits.specs.Digits.{pair_of};
ghost use Rattle.replay.specs.Text.{rest_of, line_of, Stored};

fn put_byte(byte: u8, out: &mut [u8], at: usize)
    requires { at + 2 ≤ length out.old }
    ensures { out.new ≡ sets out.old at (pair_of byte) }
{
    // Stored one by one: as a slice they are one number of two bytes, and the loop over them takes a byte a turn.
    let [high, low] = digits::pair(byte);
    out[at] = high;
    out[at + 1] = low;
}

// A space and two digits for each byte, and a line feed.
fn put_rest(bytes: &[u8], out: &mut [u8], at: usize) -> usize
    requires { at + 3 * length bytes.now + 1 ≤ length out.old }
    ensures { Stored out.old at (rest_of bytes.now) out.new result }
{
    let mut to = at;
    for byte in bytes {
        out[to] = b' ';
        put_byte(*byte, out, to + 1);
        to += 3;
    }
    out[to] = b'\n';
    to + 1
}

// Writes the line of a frame from `at` on, and answers the place after it.
pub fn put_line(frame: &[u8], out: &mut [u8], at: usize) -> usize
    requires { at + 3 * length frame.now + 2 ≤ length out.old }
    ensures { Stored out.old at (line_of frame.now) out.new result }
{
    let Some((first, rest)) = frame.split_first() else {
        out[at] = b'-';
        out[at + 1] = b'\n';
        return at + 2;
    };
    put_byte(*first, out, at);
    put_rest(rest, out, at + 2)
}
