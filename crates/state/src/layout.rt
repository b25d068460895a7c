// Where everything lies in the lent state. docs/STATE.md says how each value reads.
ghost use Rattle.std.specs.Prelude.{◌≡◌};
ghost use Rattle.state.specs.Layout.{mode_at, selected_at, running_at, entries_at, sample_at, is_first, odt_most};

// The pool, for all lists together.
pub const LISTS: u8 = 8;

pub const ALL_ODTS: u8 = 16;

pub const ALL_ENTRIES: u8 = 128;

pub const EVENTS: u8 = 2;

// Most bytes of a packet, and of a sample in store, which is without its ODT's number.
pub const PACKET_MOST: u8 = line::MOST as u8;

pub const STORED_MOST: u8 = PACKET_MOST - 1;

// The clock before the bytes of a list's first ODT.
pub const CLOCK_SIZE: u8 = 2;

// Most bytes of an entry.
pub const ENTRY_MOST: u8 = 4;

// Most bytes of an UPLOAD, after FF.
pub const UPLOAD_MOST: u8 = PACKET_MOST - 1;

// Where the data lies in a DOWNLOAD, behind its code and count, and in a SHORT_DOWNLOAD, behind its address; and most bytes of it.
pub const DOWNLOAD_FROM: u8 = 2;

pub const SHORT_DOWNLOAD_FROM: u8 = 8;

pub const DOWNLOAD_MOST: u8 = PACKET_MOST - DOWNLOAD_FROM;

pub const SHORT_DOWNLOAD_MOST: u8 = PACKET_MOST - SHORT_DOWNLOAD_FROM;

// After so many wrong keys it stays shut.
pub const WRONG_MOST: u8 = 3;

// The first 4,096 bytes of a memory at most can be addressed.
pub const ADDRESSABLE: usize = 4096;

pub const CHECKSUM_MOST: u32 = ADDRESSABLE as u32;

// The room that the line asks for a frame.
pub const ROOM: usize = line::ROOM;

// The mark that power-up writes; it changes with every layout.
pub const MARK: u32 = 0x3550_4358;

pub const MARK_AT: usize = 0;

// What runs on across sessions.
pub const GENERATOR: usize = MARK_AT + 4;

// How many keys were wrong.
pub const WRONG_KEYS: usize = GENERATOR + 4;

pub const CTR: usize = WRONG_KEYS + 1;

// With which list the round begins.
pub const ROUND: usize = CTR + 1;

// Whether the last frame was an answer.
pub const LAST: usize = ROUND + 1;

// The reader's place with its message buffer, and the waiting answer: before the tables, side by side.
pub const PLACE: usize = LAST + 1;

pub const COUNT: usize = PLACE + 1;

pub const MESSAGE: usize = COUNT + 1;

pub const PACKET: usize = MESSAGE + 2;

// Its bytes after the code.
pub const PACKET_1: usize = PACKET + 1;

pub const PACKET_2: usize = PACKET + 2;

pub const PACKET_3: usize = PACKET + 3;

pub const PACKET_4: usize = PACKET + 4;

pub const PACKET_5: usize = PACKET + 5;

pub const PACKET_6: usize = PACKET + 6;

pub const PACKET_7: usize = PACKET + 7;

// The waiting answer: its length, and its bytes.
pub const ANSWER: usize = MESSAGE + line::LONGEST;

pub const ANSWER_BYTES: usize = ANSWER + 1;

// The second.
pub const ANSWER_1: usize = ANSWER_BYTES + 1;

// The session's own bytes: up to the count of lists they are written 0 when it closes, and what is behind it means nothing then.
pub const SESSION: usize = ANSWER_BYTES + line::MOST;

pub const OPEN: usize = SESSION;

pub const CALIBRATION: usize = OPEN + 1;

pub const LISTS_LOCK: usize = CALIBRATION + 1;

pub const SEED: usize = LISTS_LOCK + 1;

pub const MTA: usize = SEED + 1;

pub const ADDRESS: usize = MTA + 1;

// The list pointer: its list and ODT, and its entry.
pub const POINTER: usize = ADDRESS + 4;

pub const POINTER_ENTRY: usize = POINTER + 1;

// Whether the lists were freed, and how many there are since.
pub const PHASE: usize = POINTER_ENTRY + 1;

// Of each list: how many ODTs it has; of each ODT, by its absolute number: how many entries.
pub const ODTS: usize = PHASE + 1;

pub const COUNTS: usize = ODTS + LISTS as usize;

// Of each list: mode, selected, running.
pub const MODE: usize = COUNTS + ALL_ODTS as usize;

pub const LIST_SIZE: usize = 3;

// The entries, in the order of the ODTs and without gaps, each two bytes of size, extension and address.
pub const ENTRY: usize = MODE + LIST_SIZE * LISTS as usize;

pub const ENTRY_SIZE: usize = 2;

// Of each ODT: the length of its waiting packet without the number, and its bytes.
pub const SAMPLE: usize = ENTRY + ENTRY_SIZE * ALL_ENTRIES as usize;

pub const SAMPLE_SIZE: usize = 1 + STORED_MOST as usize;

pub const STATE: usize = SAMPLE + SAMPLE_SIZE * ALL_ODTS as usize;

pub const SESSION_SIZE: usize = ODTS - SESSION;

// Places are reckoned in 32 bits: a small processor has no product of 64. Each has a function of one line, under the name of its
// definition in specs/: one function for all would take as many casts at each call, and the size besides.

// ---- a list's bytes

pub fn mode_at(l: u16) -> usize
    ensures { result ≡ mode_at l }
{
    MODE + (LIST_SIZE as u32 * l as u32) as usize
}

pub fn selected_at(l: u16) -> usize
    ensures { result ≡ selected_at l }
{
    mode_at(l) + 1
}

pub fn running_at(l: u16) -> usize
    ensures { result ≡ running_at l }
{
    mode_at(l) + 2
}

// ---- storage by the entry's and the ODT's absolute number

pub fn entries_at(i: u16) -> usize
    ensures { result ≡ entries_at i }
{
    ENTRY + (ENTRY_SIZE as u32 * i as u32) as usize
}

// An ODT's waiting packet.
pub fn sample_at(k: u16) -> usize
    ensures { result ≡ sample_at k }
{
    SAMPLE + (SAMPLE_SIZE as u32 * k as u32) as usize
}

// Whether a list's ODT is its first.
pub fn is_first(odt: u16) -> bool
    ensures { result ≡ is_first odt }
{
    odt == 0
}

// Most bytes of a list's ODT in a packet.
pub fn odt_most(odt: u16) -> u16
    ensures { result ≡ odt_most odt }
{
    let most = if is_first(odt) {
        STORED_MOST - CLOCK_SIZE
    } else {
        STORED_MOST
    };
    most as u16
}
