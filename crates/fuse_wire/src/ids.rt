//! Numbers that are told apart by their types.
use std::fmt;

/// An error number, as Linux has them (`errno(3)`).
#[derive(Clone, Copy, Debug, PartialEq, Eq)]
pub struct Errno(pub u32);

impl fmt::Display for Errno {
    fn fmt<W: fmt::Write>(&self, f: &mut fmt::Formatter<W>) -> fmt::Result {
        let number = self.0;
        write!(f, "errno {number}")
    }
}

/// A node id, `nodeid` of `fuse.h`.
#[derive(Clone, Copy, Debug, PartialEq, Eq)]
pub struct INodeNo(pub u64);

/// A handle of an open file, `fh` of `fuse.h`.
#[derive(Clone, Copy, Debug, PartialEq, Eq)]
pub struct FileHandle(pub u64);

/// The flags of an open, as `open(2)` has them.
#[derive(Clone, Copy, Debug, PartialEq, Eq)]
pub struct OpenFlags(pub u32);

/// The owner of a lock, `lock_owner` of `fuse.h`.
#[derive(Clone, Copy, Debug, PartialEq, Eq)]
pub struct LockOwner(pub u64);

/// How long something that was told is valid: seconds and nanoseconds.
#[derive(Clone, Copy, Debug, PartialEq, Eq)]
pub struct Ttl {
    pub secs: u64,
    pub nanos: u32,
}

/// A node's generation, which tells apart inodes that had one number.
#[derive(Clone, Copy, Debug, PartialEq, Eq)]
pub struct Generation(pub u64);

/// A request's number, `unique` of `fuse.h`. Its reply has the same.
#[derive(Clone, Copy, Debug, PartialEq, Eq)]
pub struct RequestId(pub u64);
