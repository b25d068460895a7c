// The lines that wait to be written.
ghost use Rattle.std.specs.Prelude.{◌≡◌, ◌+◌, ◌≤◌, length};
ghost use Rattle.line.specs.Message.{room};
ghost use Rattle.replay.specs.Text.{line_room};

use crate::text;
use line::ROOM;

const SIZE: usize = 65536;

// What a line is given: three characters for each byte of a frame, and two for none.
const LINE: usize = 3 * ROOM + 2;

// Lines that were not yet written out, with how many bytes they are. One type for these, Input and bench's Bytes would take the size as a parameter, and say in each
// clause which it is.
#[derive(Drop)]
pub struct Output {
    lines: [u8; SIZE],
    filled: usize,
    ghost within: { filled ≤ 65536 },
}

impl Output {
    pub fn new() -> Self {
        Self {
            lines: [0; SIZE],
            filled: 0,
        }
    }

    // Writes them out, by `io`: what is not taken is let go, and the run goes on.
    pub fn flush(&mut self)
        ensures { self.new.filled ≡ 0 }
    {
        io::write_all(1, &self.lines[..self.filled]);
        self.filled = 0;
    }

    // Writes them out where one more might not fit.
    fn make_room(&mut self)
        ensures { self.new.filled + line_room ≤ 65536 }
    {
        if SIZE - self.filled < LINE {
            self.flush();
        }
    }

    // The line of a frame.
    #[tactic(auto, using(crate::proofs::Lines::line_length_lem))]
    pub fn add_line(&mut self, frame: &[u8])
        requires { length frame.now ≤ room }
    {
        self.make_room();
        self.filled = text::put_line(frame, &mut self.lines, self.filled);
    }
}
