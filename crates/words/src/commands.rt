// The commands: their codes, fewest bytes and locks.
ghost use Rattle.std.specs.Prelude.{◌≡◌};
ghost use Rattle.words.specs.Command.{command_of, fewest, needs_of};

use crate::{Command, Resource};

// The dispatch: every other code is unknown.
impl From<u8> for Command {
    ghost from_gives = { λ code command. command ≡ command_of code };

    #[tactic(auto, unfolding(crate::specs::Command::command_of))]
    fn from(code: u8) -> Command {
        match code {
            0xFF => Command::Connect,
            0xFE => Command::Disconnect,
            0xFD => Command::GetStatus,
            0xFC => Command::Synch,
            0xF9..=0xFB => Command::Unknown,
            0xF8 => Command::GetSeed,
            0xF7 => Command::Unlock,
            0xF6 => Command::SetMta,
            0xF5 => Command::Upload,
            0xF4 => Command::ShortUpload,
            0xF3 => Command::BuildChecksum,
            0xF1..=0xF2 => Command::Unknown,
            0xF0 => Command::Download,
            0xEE..=0xEF => Command::Unknown,
            0xED => Command::ShortDownload,
            0xE4..=0xEC => Command::Unknown,
            0xE3 => Command::ClearDaqList,
            0xE2 => Command::SetDaqPtr,
            0xE1 => Command::WriteDaq,
            0xE0 => Command::SetDaqListMode,
            0xDF => Command::Unknown,
            0xDE => Command::StartStopDaqList,
            0xDD => Command::StartStopSynch,
            0xDB..=0xDC => Command::Unknown,
            0xDA => Command::GetDaqProcessorInfo,
            0xD9 => Command::GetDaqResolutionInfo,
            0xD7..=0xD8 => Command::Unknown,
            0xD6 => Command::FreeDaq,
            0xD5 => Command::AllocDaq,
            0xD4 => Command::AllocOdt,
            0xD3 => Command::AllocOdtEntry,
            _ => Command::Unknown,
        }
    }
}

impl Command {
    // The fewest bytes of a command.
    pub fn fewest(self) -> u8
        ensures { result ≡ fewest self }
    {
        match self {
            Command::Unknown => 0,
            Command::Disconnect
            | Command::GetStatus
            | Command::Synch
            | Command::GetDaqProcessorInfo
            | Command::GetDaqResolutionInfo
            | Command::FreeDaq => 1,
            Command::Connect
            | Command::Unlock
            | Command::Upload
            | Command::Download
            | Command::StartStopSynch => 2,
            Command::GetSeed => 3,
            Command::ClearDaqList | Command::StartStopDaqList | Command::AllocDaq => 4,
            Command::AllocOdt => 5,
            Command::SetDaqPtr | Command::AllocOdtEntry => 6,
            Command::SetMta
            | Command::ShortUpload
            | Command::BuildChecksum
            | Command::ShortDownload
            | Command::WriteDaq
            | Command::SetDaqListMode => 8,
        }
    }

    // The lock that must be open for a command.
    pub fn needs(self) -> Option<Resource>
        ensures { result ≡ needs_of self }
    {
        match self {
            Command::Unknown
            | Command::Connect
            | Command::Disconnect
            | Command::GetStatus
            | Command::Synch
            | Command::GetSeed
            | Command::Unlock
            | Command::SetMta
            | Command::Upload
            | Command::ShortUpload
            | Command::BuildChecksum => None,
            Command::Download | Command::ShortDownload => Some(Resource::Calibration),
            Command::ClearDaqList
            | Command::SetDaqPtr
            | Command::WriteDaq
            | Command::SetDaqListMode
            | Command::StartStopDaqList
            | Command::StartStopSynch
            | Command::GetDaqProcessorInfo
            | Command::GetDaqResolutionInfo
            | Command::FreeDaq
            | Command::AllocDaq
            | Command::AllocOdt
            | Command::AllocOdtEntry => Some(Resource::Lists),
        }
    }
}
