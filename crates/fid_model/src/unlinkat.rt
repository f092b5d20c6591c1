//! The flag of a Tunlinkat, as 9P2000.L numbers it.

/// The name is that of a directory (`P9_DOTL_AT_REMOVEDIR`).
pub const P9_AT_REMOVEDIR: u32 = 0x200;
