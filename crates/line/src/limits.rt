// The wire's two special bytes, and how long things get.
pub const SYNC: u8 = 0x9A;

pub const ESC: u8 = 0x9B;

// The longest packet.
pub const MOST: usize = 64;

// LEN and CTR have WIDTH bytes each, the checksum SUM_WIDTH.
pub const WIDTH: usize = 1;

pub const SUM_WIDTH: usize = 1;

// Where the packet lies in its message.
pub const PACKET_AT: usize = WIDTH + WIDTH;

// The longest message: LEN, CTR, the longest packet, checksum.
pub const LONGEST: usize = PACKET_AT + MOST + SUM_WIDTH;

// The longest frame: a SYNC, and every byte of the longest message doubled.
pub const ROOM: usize = 1 + 2 * LONGEST;
