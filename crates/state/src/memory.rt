// The lent memories.
ghost use Rattle.std.specs.Prelude.{◌≡◌};
ghost use Rattle.state.specs.Memory.{reach, pick, inside_of};

use crate::layout::ADDRESSABLE;
use words::Extension;

// How many bytes of a memory of that length can be addressed.
pub fn reach(length: usize) -> usize
    ensures { result ≡ reach length }
{
    length.min(ADDRESSABLE)
}

// The length of the memory that an extension stands for.
pub fn length_of(extension: Extension, nc: usize, nm: usize) -> usize
    ensures { result ≡ pick extension nc nm }
{
    match extension {
        Extension::Calibration => nc,
        Extension::Measured => nm,
    }
}

// Whether a block lies inside a memory of that length; address plus size never wraps.
#[tactic(auto, unfolding(crate::specs::Memory::inside_of))]
pub fn inside(address: u32, n: u32, length: usize) -> bool
    ensures { result ≡ inside_of address n length }
{
    address as u64 + n as u64 <= reach(length) as u64
}
