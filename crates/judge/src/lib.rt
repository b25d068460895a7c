// What a command leads to: its packet's numbers and what its checks look at in, a deed or the reason of a refusal out. Values only; it
// changes nothing.
#![tactic(auto)]

ghost use Rattle.std.specs.Prelude.{◌≡◌};
ghost use Rattle.state.specs.Memory.{pick, inside_of};

use state::memory::{inside, length_of};
use words::Extension;

pub mod checks;

// How long the lent memories are.
#[derive(Clone, Copy)]
pub struct Lengths {
    pub calibration: usize,
    pub measured: usize,
}

impl Lengths {
    // Whether a block lies inside the memory that its extension stands for.
    pub fn hold(self, extension: Extension, address: u32, n: u32) -> bool
        ensures { result ≡ inside_of address n (pick extension self.calibration self.measured) }
    {
        inside(
            address,
            n,
            length_of(extension, self.calibration, self.measured),
        )
    }
}
