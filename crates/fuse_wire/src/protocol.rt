//! The version and the limits of the FUSE protocol that is spoken here (Linux `fuse.h`).

/// The protocol's major number.
pub const FUSE_KERNEL_VERSION: u32 = 7;

/// The least minor number that is spoken.
pub const FUSE_LEAST_MINOR: u32 = 23;

/// The greatest minor number that is spoken. The session has the lesser of it and the kernel's.
pub const FUSE_KERNEL_MINOR_VERSION: u32 = 31;

/// The node id of the root.
pub const FUSE_ROOT_ID: u64 = 1;

/// The most bytes that one READ or READDIR gives.
pub const MAX_READ: u32 = 131072;
