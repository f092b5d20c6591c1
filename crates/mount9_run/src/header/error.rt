//! Why a header is refused.
ghost use Rattle.std.specs.Prelude.{◌≡◌};
ghost use Rattle.mount9_run.specs.declared.header.error.HeaderError.TheVariants.{NoMemory};

use port_base::sink::NoMemory as MemoryWanted;
use std::alloc::{AllocError, AllocFailed};
use std::error::Error;
use std::fmt;

/// Why a header is refused.
#[derive(Clone, Copy, Debug, PartialEq, Eq)]
pub enum HeaderError {
    /// The line with this number, from 1 on, or 0 where no line `end` stands within the limit.
    Line(u64),
    /// There was no memory.
    NoMemory,
}

impl fmt::Display for HeaderError {
    fn fmt<W: fmt::Write>(&self, f: &mut fmt::Formatter<W>) -> fmt::Result {
        match self {
            HeaderError::Line(0) => write!(
                f,
                "the header has no line `end`; write one before the frames"
            ),
            HeaderError::Line(line) => write!(
                f,
                "line {line} of the header is not one that may stand there"
            ),
            HeaderError::NoMemory => write!(f, "out of memory at the header"),
        }
    }
}

impl Error for HeaderError {}

impl From<AllocError> for HeaderError {
    ghost from_gives = { λ _ e. e ≡ NoMemory };

    fn from(_error: AllocError) -> HeaderError {
        HeaderError::NoMemory
    }
}

impl<T: Drop> From<AllocFailed<T>> for HeaderError {
    ghost from_gives = { λ _ e. e ≡ NoMemory };

    fn from(_error: AllocFailed<T>) -> HeaderError {
        HeaderError::NoMemory
    }
}

impl From<MemoryWanted> for HeaderError {
    ghost from_gives = { λ _ e. e ≡ NoMemory };

    fn from(_error: MemoryWanted) -> HeaderError {
        HeaderError::NoMemory
    }
}
