// What the protocol's numbers mean: commands, their fewest bytes and locks, the reasons of a refusal, the
// number of each answer. Values only.
#![tactic(auto)]

pub mod commands;
pub mod extensions;
pub mod numbers;
pub mod reasons;
pub mod resources;

pub use numbers::Numbered;

// What a lock guards, by its bit in a mask.
#[derive(Clone, Copy)]
pub enum Resource {
    Calibration = 0x01,
    Lists = 0x04,
}

// Extension 0 and extension 1.
#[derive(Clone, Copy)]
pub enum Extension {
    Calibration,
    Measured,
}

// The transfer address. Document 01 asks for this form, and for that of the list pointer: Option would take it away.
#[derive(Clone, Copy)]
pub enum Mta {
    Unset,
    At(Extension, u32),
}

// The entry that WRITE_DAQ writes next.
#[derive(Clone, Copy)]
pub enum Pointer {
    Unset,
    At { list: u8, odt: u8, entry: u8 },
}

#[derive(Clone, Copy)]
pub enum Command {
    Unknown,
    Connect,
    Disconnect,
    GetStatus,
    Synch,
    GetSeed,
    Unlock,
    SetMta,
    Upload,
    ShortUpload,
    BuildChecksum,
    Download,
    ShortDownload,
    ClearDaqList,
    SetDaqPtr,
    WriteDaq,
    SetDaqListMode,
    StartStopDaqList,
    StartStopSynch,
    GetDaqProcessorInfo,
    GetDaqResolutionInfo,
    FreeDaq,
    AllocDaq,
    AllocOdt,
    AllocOdtEntry,
}

// Why a command is refused.
#[derive(Clone, Copy)]
pub enum Reason {
    Unknown,
    TooShort,
    Locked,
    Sequence,
    OutOfRange,
    DataMissing,
    ListRuns,
    ReadOnly,
    NotInside,
    CannotStart,
    PoolFull,
    WrongKey,
}

// What a received byte comes to.
#[derive(Clone, Copy)]
pub enum Heard {
    Nothing,
    Answered,
    Silent,
    BadLength,
    BadEscape,
    BadChecksum,
    Unread,
    CutOff,
}

// Of the lists that an event is for: how many sampled, and how many missed it.
#[derive(Clone, Copy)]
pub struct Counted {
    pub sampled: u8,
    pub missed: u8,
}

// Why a call is refused: the state that it was lent is none,
#[derive(Clone, Copy)]
pub struct NoState;

// or there is no such event,
#[derive(Clone, Copy)]
pub enum EventRefusal {
    BadEvent,
    NoState,
}

// or no room for a frame.
#[derive(Clone, Copy)]
pub enum SlotRefusal {
    NoRoom,
    NoState,
}
