//! How a run ended.
ghost use Rattle.std.specs.Prelude.{◌≡◌};
ghost use Rattle.mount9_run.specs.Verdicts.{nine_frames_of};

pub use frame_pump::outcome::{BridgeError, Stopped};

/// The input was read to its end, and every frame was answered.
#[derive(Clone, Copy, Debug, PartialEq, Eq)]
pub struct Served {
    /// The flags of the mount, as a number.
    pub flags: u64,
    /// How many frames were answered.
    pub handled: u32,
    /// How many 9P messages were sent, up to 2^64 - 1.
    pub nine_frames: u64,
}

/// How a run ended, and how many frames it answered.
#[derive(Clone, Copy, Debug, PartialEq, Eq)]
pub enum Verdict {
    /// The input was read to its end.
    Done(Served),
    /// The run stopped before.
    Halted(Stopped),
}

impl Verdict {
    /// How many 9P messages were sent.
    pub(crate) fn nine_frames(&self) -> u64
        ensures { result ≡ nine_frames_of self.now }
    {
        match self {
            Verdict::Done(served) => served.nine_frames,
            Verdict::Halted(stopped) => stopped.nine_frames,
        }
    }
}
