//! Why an operation on mounts failed.
ghost use Rattle.std.specs.Prelude.{Some};
ghost use Rattle.libmount.specs.ErrorTexts.{cause_text, remount_error_text};
ghost use Rattle.libmount.specs.OperationTexts.{explained_text, failure_text, mount_error_text};
ghost use Rattle.libmount.specs.OperationTexts.{os_error_text};

use crate::operation::Operation;
use crate::texts::{Quoted, Shown};
use std::fmt;

/// What could not be read.
#[derive(Clone, Copy, Debug, PartialEq, Eq)]
pub enum IoCause {
    /// The current directory, which the probe did not tell.
    CurrentDir,
    /// The table of mounts, which the mounter did not print.
    MountInfo,
}

impl fmt::Display for IoCause {
    ghost output = { λ cause. Some (cause_text cause) };

    fn fmt<W: fmt::Write>(&self, f: &mut fmt::Formatter<W>) -> fmt::Result {
        match self {
            IoCause::CurrentDir => Ok(()),
            IoCause::MountInfo => f.write_str("Cannot read file: \"/proc/self/mountinfo\""),
        }
    }
}

/// Why the flags of a mount can't be told.
#[derive(Debug, Drop)]
pub enum RemountError {
    /// The probe or the mounter failed.
    Io(IoCause),
    /// A row of the table is refused, with what is wrong with it.
    ParseMountInfo(Vec<u8>),
    /// No row of the table has this path.
    UnknownMountPoint(Vec<u8>),
    NoMemory,
}

impl fmt::Display for RemountError {
    ghost output = { λ e. Some (remount_error_text e) };

    #[tactic(auto, unfolding(crate::specs::Texts::shown))]
    fn fmt<W: fmt::Write>(&self, f: &mut fmt::Formatter<W>) -> fmt::Result {
        match self {
            RemountError::Io(cause) => write!(f, "{cause}: errno 5"),
            RemountError::ParseMountInfo(message) => write!(f, "{}", Shown(message)),
            RemountError::UnknownMountPoint(path) => {
                write!(f, "Cannot find mount point: {}", Quoted(path))
            }
            RemountError::NoMemory => f.write_str("no memory"),
        }
    }
}

impl std::error::Error for RemountError {}

/// Why a mount failed.
#[derive(Debug, Drop)]
pub enum MountError {
    /// The mount was refused, with an error number of the system; 5 where the mounter failed.
    Io(u32),
    /// The mount whose flags are to change can't be told.
    Remount(RemountError),
    NoMemory,
}

impl fmt::Display for MountError {
    ghost output = { λ e. Some (mount_error_text e) };

    #[tactic(auto, unfolding(crate::specs::OperationTexts::mount_error_text))]
    fn fmt<W: fmt::Write>(&self, f: &mut fmt::Formatter<W>) -> fmt::Result {
        match self {
            MountError::Io(errno) => write!(f, "errno {errno}"),
            MountError::Remount(error) => write!(f, "{error}"),
            MountError::NoMemory => f.write_str("no memory"),
        }
    }
}

impl std::error::Error for MountError {}

/// An operation that failed, and why.
#[derive(Debug, Drop)]
pub struct OSError(pub MountError, pub Operation);

impl fmt::Display for OSError {
    ghost output = { λ e. Some (os_error_text e) };

    fn fmt<W: fmt::Write>(&self, f: &mut fmt::Formatter<W>) -> fmt::Result {
        write!(f, "{}: {}", self.1, self.0)
    }
}

impl std::error::Error for OSError {}

/// An operation that failed, why, and what a probe tells of its paths.
#[derive(Debug, Drop)]
pub struct Error(pub Operation, pub MountError, pub Vec<u8>);

impl fmt::Display for Error {
    ghost output = { λ e. Some (explained_text e) };

    #[tactic(auto, unfolding(crate::specs::Texts::shown))]
    fn fmt<W: fmt::Write>(&self, f: &mut fmt::Formatter<W>) -> fmt::Result {
        write!(f, "{}: {} ({})", self.0, self.1, Shown(&self.2))
    }
}

impl std::error::Error for Error {}

/// An operation that failed: explained, or as it was where there was no memory for the explanation.
#[derive(Debug, Drop)]
pub enum Failure {
    Explained(Error),
    Bare(OSError),
}

impl fmt::Display for Failure {
    ghost output = { λ failure. Some (failure_text failure) };

    fn fmt<W: fmt::Write>(&self, f: &mut fmt::Formatter<W>) -> fmt::Result {
        match self {
            Failure::Explained(error) => write!(f, "{error}"),
            Failure::Bare(error) => write!(f, "{error}"),
        }
    }
}

impl std::error::Error for Failure {}
