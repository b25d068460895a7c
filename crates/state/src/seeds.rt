// The generator of seeds, the keys, and how many of them may be wrong: a guard against mistakes, not thieves.
ghost use Rattle.std.specs.Prelude.{◌≡◌};
ghost use Rattle.state.specs.Generator.{next_of, start_of, key_of, addend, stays_shut, one_wrong_more};

use crate::{Generator, layout};
use words::Resource;

impl Generator {
    pub const DEFAULT: Self = Self { x: 0x2545_F491 };

    #[tactic(auto, unfolding(crate::specs::Generator::start_of))]
    pub fn new(start: u32) -> Self
        ensures { result.x ≡ start_of start }
    {
        if start == 0 {
            Self::DEFAULT
        } else {
            Self { x: start }
        }
    }

    // Marsaglia's 32-bit xorshift.
    #[tactic(auto, unfolding(crate::specs::Generator::next_of))]
    pub fn next(self) -> Self
        ensures { result.x ≡ next_of self.x }
    {
        let a = self.x;
        let b = a ^ (a << 13);
        let c = b ^ (b >> 17);
        Self { x: c ^ (c << 5) }
    }
}

fn addend_for(resource: Resource) -> u32
    ensures { result ≡ addend resource }
{
    match resource {
        Resource::Calibration => 0x0000_D05E,
        Resource::Lists => 0x0000_DA00,
    }
}

// The key to a seed.
#[tactic(auto, unfolding(crate::specs::Generator::key_of))]
pub fn key_for(resource: Resource, seed: u32) -> u32
    ensures { result ≡ key_of resource seed }
{
    seed.wrapping_add(addend_for(resource)).rotate_left(8)
}

// Whether with n wrong keys no seed is given any more.
pub fn stays_shut(n: u8) -> bool
    ensures { result ≡ stays_shut n }
{
    layout::WRONG_MOST <= n
}

pub fn one_wrong_more(n: u8) -> u8
    ensures { result ≡ one_wrong_more n }
{
    n.saturating_add(1).min(layout::WRONG_MOST)
}
