//! How a run over frames ends.
ghost use Rattle.std.specs.Prelude.{◌≡◌};
ghost use Rattle.frame_pump.specs.Causes.{cause_of_next, cause_of_sink};
ghost use Rattle.frame_pump.specs.declared.outcome.BridgeError.TheVariants as cause;

use fuse_wire::frames::NextError;
use port_base::sink::{NoMemory, SinkFault};
use std::error::Error;
use std::fmt;

/// Every frame was answered, and the input ended at a frame's end.
#[derive(Clone, Copy, Debug, PartialEq, Eq)]
pub struct Pumped {
    /// How many frames were answered in whole.
    pub handled: u32,
    /// How many 9P messages were sent, up to 2^64 - 1.
    pub nine_frames: u64,
}

/// A run stopped before its end.
#[derive(Clone, Copy, Debug, PartialEq, Eq)]
pub struct Stopped {
    /// Why it stopped.
    pub cause: BridgeError,
    /// How many frames were answered in whole.
    pub handled: u32,
    /// How many 9P messages were sent, up to 2^64 - 1.
    pub nine_frames: u64,
}

/// Why a run stopped.
#[derive(Clone, Copy, Debug, PartialEq, Eq)]
pub enum BridgeError {
    /// There was no memory.
    NoMemory,
    /// The input failed.
    Read,
    /// The output failed.
    Write,
    /// The input ended within a frame.
    Torn,
    /// Four bytes told a length that no frame has.
    BadLength,
    /// Another byte followed the last frame for which there was a turn.
    TurnsSpent,
    /// The server's greatest message is smaller than a session needs.
    MsizeTooSmall,
    /// The mount was refused, with an error number of the system.
    Mount(u32),
    /// The share could not be attached to, with an error number of the system.
    Attach(u32),
    /// The mount could not be taken away.
    Unmount,
}

impl fmt::Display for BridgeError {
    fn fmt<W: fmt::Write>(&self, f: &mut fmt::Formatter<W>) -> fmt::Result {
        match self {
            BridgeError::NoMemory => write!(f, "out of memory"),
            BridgeError::Read => write!(f, "the input could not be read"),
            BridgeError::Write => write!(f, "the output could not be written"),
            BridgeError::Torn => write!(f, "the input ends within a frame"),
            BridgeError::BadLength => write!(f, "the input tells a length that no frame has"),
            BridgeError::TurnsSpent => write!(f, "the input has more frames than turns"),
            BridgeError::MsizeTooSmall => write!(f, "the server's messages are too small"),
            BridgeError::Mount(errno) => write!(f, "the mount was refused, errno {errno}"),
            BridgeError::Attach(errno) => write!(f, "the share's root was refused, errno {errno}"),
            BridgeError::Unmount => write!(f, "the mount could not be taken away"),
        }
    }
}

impl Error for BridgeError {}

impl From<NoMemory> for BridgeError {
    ghost from_gives = { λ _ e. e ≡ cause.NoMemory };

    fn from(_error: NoMemory) -> BridgeError {
        BridgeError::NoMemory
    }
}

impl From<NextError> for BridgeError {
    ghost from_gives = { λ error e. e ≡ cause_of_next error };

    fn from(error: NextError) -> BridgeError {
        match error {
            NextError::Read => BridgeError::Read,
            NextError::NoMemory => BridgeError::NoMemory,
        }
    }
}

impl From<SinkFault> for BridgeError {
    ghost from_gives = { λ fault e. e ≡ cause_of_sink fault };

    fn from(fault: SinkFault) -> BridgeError {
        match fault {
            SinkFault::Failed => BridgeError::Write,
            SinkFault::NoMemory => BridgeError::NoMemory,
        }
    }
}

/// The loop over frames stopped before the input's end.
#[derive(Clone, Copy, Debug, PartialEq, Eq)]
pub(crate) struct Halt {
    pub(crate) cause: BridgeError,
    // How many frames were answered in whole.
    pub(crate) handled: u32,
}
