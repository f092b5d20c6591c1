//! SETATTR's body, and the bits of its `valid` (`FATTR_` of `fuse.h`).

/// The mode is given.
pub const FATTR_MODE: u32 = 0x1;
/// The user is given.
pub const FATTR_UID: u32 = 0x2;
/// The group is given.
pub const FATTR_GID: u32 = 0x4;
/// The size is given, in bytes.
pub const FATTR_SIZE: u32 = 0x8;
/// The time of the last access becomes the given one.
pub const FATTR_ATIME: u32 = 0x10;
/// The time of the last change of the bytes becomes the given one.
pub const FATTR_MTIME: u32 = 0x20;
/// A handle is given.
pub const FATTR_FH: u32 = 0x40;
/// The time of the last access becomes the moment in place of the given one.
pub const FATTR_ATIME_NOW: u32 = 0x80;
/// The time of the last change of the bytes becomes the moment in place of the given one.
pub const FATTR_MTIME_NOW: u32 = 0x100;
/// The time of the last change of the attributes becomes the moment.
pub const FATTR_CTIME: u32 = 0x400;

/// What SETATTR asks (`fuse_setattr_in` of `fuse.h`): the bits of `valid` say which of it counts.
#[derive(Clone, Copy, Debug, PartialEq, Eq)]
pub struct SetAttrIn {
    pub valid: u32,
    pub fh: u64,
    pub size: u64,
    pub lock_owner: u64,
    pub atime: u64,
    pub mtime: u64,
    pub ctime: u64,
    pub atimensec: u32,
    pub mtimensec: u32,
    pub ctimensec: u32,
    pub mode: u32,
    pub uid: u32,
    pub gid: u32,
}
