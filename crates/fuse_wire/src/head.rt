//! The head of a request.
ghost use Rattle.std.specs.Prelude.{◌≡◌, ◌≤◌, length};
ghost use Rattle.fuse_wire.specs.Head.{head_of};

use crate::fields::{u32_at, u64_at};

/// The size of a request's head, in bytes.
pub const IN_HEADER_SIZE: usize = 40;

/// The head of a request: `fuse_in_header` of `fuse.h`, whose last 4 bytes are ignored.
#[derive(Clone, Copy, Debug, PartialEq, Eq)]
pub struct Head {
    /// The frame's length in bytes, the head's included.
    pub len: u32,
    /// What is asked.
    pub opcode: u32,
    /// The request's number.
    pub unique: u64,
    /// The node that is asked of.
    pub nodeid: u64,
    /// The user that asks.
    pub uid: u32,
    /// The group that asks.
    pub gid: u32,
    /// The process that asks.
    pub pid: u32,
}

impl Head {
    /// The head of a frame.
    pub fn read(frame: &[u8]) -> Head
        requires { IN_HEADER_SIZE ≤ length frame.now }
        ensures { result ≡ head_of frame.now }
    {
        Head {
            len: u32_at(frame, 0),
            opcode: u32_at(frame, 4),
            unique: u64_at(frame, 8),
            nodeid: u64_at(frame, 16),
            uid: u32_at(frame, 24),
            gid: u32_at(frame, 28),
            pid: u32_at(frame, 32),
        }
    }
}
