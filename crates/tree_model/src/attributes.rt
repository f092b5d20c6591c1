//! What is told of a file, and the bounds of a tree.
ghost use Rattle.std.specs.Prelude.{◌≡◌, Some};
ghost use Rattle.tree_model.specs.Attributes.{host_error_text};
ghost use Rattle.tree_model.specs.declared.attributes.HostError.TheVariants.{NoMemory};

use std::alloc::{AllocError, AllocFailed};
use std::fmt;

/// The inode number of the top directory.
pub const TOP: u64 = 1;

/// The size of a block in bytes, which 9P and FUSE both tell.
pub const BLOCK_SIZE: u32 = 4096;

/// The type byte of a directory's qid (9P2000.L).
pub const QTDIR: u8 = 0x80;

/// The type byte of a symbolic link's qid (9P2000.L).
pub const QTSYMLINK: u8 = 0x02;

/// The type byte of a regular file's qid (9P2000.L).
pub const QTFILE: u8 = 0x00;

/// The type of a directory in an entry of a listing (readdir(3), `d_type`).
pub const DT_DIR: u8 = 4;

/// The type of a regular file in an entry of a listing (readdir(3), `d_type`).
pub const DT_REG: u8 = 8;

/// The type of a symbolic link in an entry of a listing (readdir(3), `d_type`).
pub const DT_LNK: u8 = 10;

/// The number of a user or group that leaves it as it is (`chown(2)`).
pub const UNCHANGED_ID: u32 = 4294967295;

/// A moment: seconds since 1970 and nanoseconds, which are below 1000000000.
#[derive(Clone, Copy, Debug, PartialEq, Eq)]
pub struct Stamp {
    pub sec: u64,
    pub nsec: u32,
}

/// What a tree may hold: the bytes of a file, the entries of a directory, the links of a file.
#[derive(Clone, Copy, Debug, PartialEq, Eq)]
pub struct Limits {
    pub file: u64,
    pub entries: u64,
    pub links: u64,
}

/// What a record is: a regular file, a directory or a symbolic link.
#[derive(Clone, Copy, Debug, PartialEq, Eq)]
pub enum Kind {
    File,
    Directory,
    Link,
}

/// What a host tells of an inode. The mode is without its type bits; the size is in bytes, of a
/// link that
/// of its target, of a directory 0.
#[derive(Clone, Copy, Debug, PartialEq, Eq)]
pub struct Attr {
    pub ino: u64,
    pub kind: Kind,
    pub mode: u32,
    pub uid: u32,
    pub gid: u32,
    pub links: u64,
    pub size: u64,
    pub atime: Stamp,
    pub mtime: Stamp,
    pub ctime: Stamp,
}

/// What becomes of a time: it stays, it becomes the moment, or it is given.
#[derive(Clone, Copy, Debug, PartialEq, Eq)]
pub enum TimeSet {
    Keep,
    Now,
    At(Stamp),
}

/// What is told of a whole tree: the blocks of 4096 bytes that a file may have, and the entries
/// that a
/// directory may have.
#[derive(Clone, Copy, Debug, PartialEq, Eq)]
pub struct Statfs {
    pub blocks: u64,
    pub files: u64,
}

/// Why a call of a host failed.
#[derive(Clone, Copy, Debug, PartialEq, Eq)]
pub enum HostError {
    /// The call was refused, with an error number of Linux.
    Errno(u32),
    /// What the host stands on failed; the host counted it.
    Fault,
    /// There was no memory.
    NoMemory,
}

impl fmt::Display for HostError {
    ghost output = { λ error. Some (host_error_text error) };

    fn fmt<W: fmt::Write>(&self, f: &mut fmt::Formatter<W>) -> fmt::Result {
        match self {
            HostError::Errno(errno) => write!(f, "refused with error number {}", errno),
            HostError::Fault => f.write_str("the host failed"),
            HostError::NoMemory => f.write_str("out of memory"),
        }
    }
}

impl From<AllocError> for HostError {
    ghost from_gives = { λ _ e. e ≡ NoMemory };

    fn from(_error: AllocError) -> HostError {
        HostError::NoMemory
    }
}

impl<T: Drop> From<AllocFailed<T>> for HostError {
    ghost from_gives = { λ _ e. e ≡ NoMemory };

    fn from(_error: AllocFailed<T>) -> HostError {
        HostError::NoMemory
    }
}
