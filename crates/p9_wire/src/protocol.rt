//! Numbers of 9P2000.L that crates above name.

/// The fid that stands for no fid, as `afid` of a Tattach without authentication (`P9_NOFID`).
pub const P9_NOFID: u32 = 0xffff_ffff;

/// The most names of one Twalk (`P9_MAXWELEM`).
pub const P9_MAXWELEM: usize = 16;

/// The attributes that every file has, mode to blocks, as Tgetattr's mask and Rgetattr's `valid`
/// name them (`P9_GETATTR_BASIC`).
pub const P9_GETATTR_BASIC: u64 = 0x7ff;

/// The least frame that a server can be made for or agree upon, in bytes.
pub const MIN_MESSAGE_SIZE: u32 = 256;

/// The bytes of an Rread or Rreaddir before its data: size 4, type 1, tag 2 and count 4.
pub const RREAD_HEADER_SIZE: u32 = 11;

/// The bytes of a Twrite before its data: size 4, type 1, tag 2, fid 4, offset 8 and count 4.
pub const TWRITE_HEADER_SIZE: u32 = 23;

/// The bytes of an Rreadlink before the target: size 4, type 1, tag 2 and the target's length 2.
pub const RREADLINK_HEADER_SIZE: u32 = 9;

/// The bytes of an Rgetlock but for the client's name: size 4, type 1, tag 2, the lock's type 1,
/// start 8, length 8 and process 4, and the name's length 2.
pub const RGETLOCK_HEADER_SIZE: u32 = 30;

/// The bytes of a directory entry before its name: qid 13, offset 8, type 1 and the name's
/// length 2.
pub const DIRENT_HEADER_SIZE: u32 = 24;
