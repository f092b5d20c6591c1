//! Limits of a session.

/// The least number that is drawn neither as a node id nor as a handle.
pub const NUMBER_LIMIT: u32 = u32::MAX;

/// The greatest length of a symbolic link's target, in bytes.
pub const TARGET_LIMIT: usize = 4000;
