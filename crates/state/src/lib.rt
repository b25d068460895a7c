// The lent state: where each field lies, how it reads and how it is written, for any bytes of any length; seeds and
// keys; the blocks of lent memories.
#![tactic(auto)]

pub mod bytes;
pub mod fields;
pub mod layout;
pub mod memory;
pub mod pool;
pub mod seeds;

#[derive(Clone, Copy)]
pub struct Generator {
    pub x: u32,
}

// Of so many numbers: the first, and how many.
#[derive(Clone, Copy)]
pub struct Range {
    pub first: u16,
    pub count: u16,
}

// What a list has of the pool: its first ODT and how many, and the first entry of these.
#[derive(Clone, Copy)]
pub struct Span {
    pub odt: u16,
    pub odts: u16,
    pub entry: u16,
}
