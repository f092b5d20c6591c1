//! Numbers at places of a frame, the least byte first.
ghost use Rattle.std.specs.Prelude.{◌≡◌, ◌+◌, ◌≤◌, length};
ghost use Rattle.fuse_wire.specs.Fields.{u32_at, u64_at, given};

use port_base::oflag::has_flag;

/// The number in the 4 bytes from `at` on.
#[tactic(auto, unfolding(crate::specs::Fields::u32_at))]
pub(crate) fn u32_at(bytes: &[u8], at: usize) -> u32
    requires { at + 4 ≤ length bytes.now }
    ensures { result ≡ u32_at bytes.now at }
{
    let mut number = [0; 4];
    number.copy_from_slice(&bytes[at..at + 4]);
    u32::from_le_bytes(number)
}

/// The number in the 8 bytes from `at` on.
#[tactic(auto, unfolding(crate::specs::Fields::u64_at))]
pub(crate) fn u64_at(bytes: &[u8], at: usize) -> u64
    requires { at + 8 ≤ length bytes.now }
    ensures { result ≡ u64_at bytes.now at }
{
    let mut number = [0; 8];
    number.copy_from_slice(&bytes[at..at + 8]);
    u64::from_le_bytes(number)
}

/// A value that a flag says is given.
pub(crate) fn given(flags: u32, flag: u32, value: u64) -> Option<u64>
    ensures { result ≡ given flags flag value }
{
    if has_flag(flags, flag) {
        Some(value)
    } else {
        None
    }
}
