//! Bits of Tsetattr's `valid` (9P2000.L).

/// The mode is given.
pub const P9_SETATTR_MODE: u32 = 0x1;

/// The user is given.
pub const P9_SETATTR_UID: u32 = 0x2;

/// The group is given.
pub const P9_SETATTR_GID: u32 = 0x4;

/// The size is given, in bytes.
pub const P9_SETATTR_SIZE: u32 = 0x8;

/// The time of the last access becomes the moment.
pub const P9_SETATTR_ATIME: u32 = 0x10;

/// The time of the last change of the bytes becomes the moment.
pub const P9_SETATTR_MTIME: u32 = 0x20;

/// The time of the last change of the attributes becomes the moment.
pub const P9_SETATTR_CTIME: u32 = 0x40;

/// The time of the last access becomes the given one in place of the moment.
pub const P9_SETATTR_ATIME_SET: u32 = 0x80;

/// The time of the last change of the bytes becomes the given one in place of the moment.
pub const P9_SETATTR_MTIME_SET: u32 = 0x100;

/// All bits that have a meaning; others are ignored.
pub const P9_SETATTR_NAMED: u32 = 0x1ff;
