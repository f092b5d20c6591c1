//! Parts of a request's body.
ghost use Rattle.std.specs.Prelude.{◌≡◌, ◌<◌, ◌≤◌, length, position, IfSome};
ghost use Rattle.std.specs.Option.{option_map};
ghost use Rattle.fuse_wire.specs.Layouts.{is_zero, name_at, only_name, name_behind, two_names};
ghost use Rattle.fuse_wire.specs.Layouts.{two_names_behind, flags_of, read_in_of, handle_of};
ghost use Rattle.fuse_wire.specs.Layouts.{sync_in_of};

use crate::fields::{given, u32_at, u64_at};
use crate::opcode::FUSE_READ_LOCKOWNER;

/// The size of what INIT tells (`fuse_init_in` of `fuse.h` up to its flags), in bytes.
pub const INIT_IN_SIZE: usize = 16;
/// The size of GETATTR's body (`fuse_getattr_in` of `fuse.h`), in bytes.
pub const GETATTR_IN_SIZE: usize = 16;

/// The size of SETATTR's body (`fuse_setattr_in` of `fuse.h`), in bytes.
pub const SETATTR_IN_SIZE: usize = 88;
/// The size of OPEN's and of OPENDIR's body (`fuse_open_in` of `fuse.h`), in bytes.
pub const OPEN_IN_SIZE: usize = 8;
/// The size of READ's and of READDIR's body (`fuse_read_in` of `fuse.h`), in bytes.
pub const READ_IN_SIZE: usize = 40;
/// The size of WRITE's body before its bytes (`fuse_write_in` of `fuse.h`), in bytes.
pub const WRITE_IN_SIZE: usize = 40;
/// The size of the body of RELEASE, RELEASEDIR and FLUSH (`fuse_release_in`, `fuse_flush_in` of
/// `fuse.h`), in bytes.
pub const RELEASE_IN_SIZE: usize = 24;
/// The size of FSYNC's and of FSYNCDIR's body (`fuse_fsync_in` of `fuse.h`), in bytes.
pub const FSYNC_IN_SIZE: usize = 16;
/// The size of FORGET's body (`fuse_forget_in` of `fuse.h`), in bytes.
pub const FORGET_IN_SIZE: usize = 8;
/// The size of BATCH_FORGET's body before its pairs (`fuse_batch_forget_in` of `fuse.h`), in bytes.
pub const BATCH_FORGET_IN_SIZE: usize = 8;
/// The size of INTERRUPT's body (`fuse_interrupt_in` of `fuse.h`), in bytes.
pub const INTERRUPT_IN_SIZE: usize = 8;

/// The size of MKNOD's body before its name (`fuse_mknod_in` of `fuse.h`), in bytes.
pub const MKNOD_IN_SIZE: usize = 16;
/// The size of MKDIR's body before its name (`fuse_mkdir_in` of `fuse.h`), in bytes.
pub const MKDIR_IN_SIZE: usize = 8;
/// The size of LINK's body before its name (`fuse_link_in` of `fuse.h`), in bytes.
pub const LINK_IN_SIZE: usize = 8;
/// The size of CREATE's body before its name (`fuse_create_in` of `fuse.h`), in bytes.
pub const CREATE_IN_SIZE: usize = 16;
/// The size of RENAME's body before its names (`fuse_rename_in` of `fuse.h`), in bytes.
pub const RENAME_IN_SIZE: usize = 8;
/// The size of RENAME2's body before its names (`fuse_rename2_in` of `fuse.h`), in bytes.
pub const RENAME2_IN_SIZE: usize = 16;

/// What READ and READDIR ask (`fuse_read_in` of `fuse.h`).
#[derive(Clone, Copy)]
pub(crate) struct ReadIn {
    pub(crate) fh: u64,
    pub(crate) offset: u64,
    pub(crate) size: u32,
    pub(crate) flags: u32,
    pub(crate) lock: Option<u64>,
}

/// What FSYNC and FSYNCDIR ask (`fuse_fsync_in` of `fuse.h`).
#[derive(Clone, Copy)]
pub(crate) struct SyncIn {
    pub(crate) fh: u64,
    pub(crate) flags: u32,
}

/// Two names, one behind another.
#[derive(Clone, Copy)]
pub(crate) struct TwoNames<'a> {
    pub(crate) first: &'a [u8],
    pub(crate) second: &'a [u8],
}

// Where the first zero byte is.
fn zero_at(bytes: &[u8]) -> Option<usize>
    ensures found { result ≡ position is_zero bytes.now }
    ensures bound { IfSome result (λ i. i < length bytes.now) }
{
    bytes.iter().position(|byte| *byte == 0)
}

// A name at the front, and what follows its zero byte.
#[tactic(auto, unfolding(crate::specs::Layouts::name_at))]
fn name_at(bytes: &[u8]) -> Option<(&[u8], &[u8])>
    ensures { option_map (λ x. (x.0.now, x.1.now)) result ≡ name_at bytes.now }
{
    let end = zero_at(bytes)?;
    Some((&bytes[..end], &bytes[end + 1..]))
}

/// The name that is the whole body, with its zero byte.
#[tactic(auto, unfolding(crate::specs::Layouts::only_name))]
pub(crate) fn only_name(body: &[u8]) -> Option<&[u8]>
    ensures { option_map (λ name. name.now) result ≡ only_name body.now }
{
    let (name, rest) = name_at(body)?;
    if !rest.is_empty() {
        return None;
    }
    Some(name)
}

/// The name behind so many bytes.
#[tactic(auto, unfolding(crate::specs::Layouts::name_behind))]
pub(crate) fn name_behind(body: &[u8], size: usize) -> Option<&[u8]>
    ensures name { option_map (λ name. name.now) result ≡ name_behind size body.now }
    ensures long { IfSome result (λ _. size ≤ length body.now) }
{
    if body.len() < size {
        return None;
    }
    only_name(&body[size..])
}

/// The two names that are the whole body, each with its zero byte.
#[tactic(auto, unfolding(crate::specs::Layouts::two_names))]
pub(crate) fn two_names(body: &[u8]) -> Option<TwoNames<'_>>
    ensures { option_map (λ x. (x.first.now, x.second.now)) result ≡ two_names body.now }
{
    let (first, rest) = name_at(body)?;
    let second = only_name(rest)?;
    Some(TwoNames { first, second })
}

/// The two names behind so many bytes.
#[tactic(auto, unfolding(crate::specs::Layouts::two_names_behind))]
pub(crate) fn two_names_behind(body: &[u8], size: usize) -> Option<TwoNames<'_>>
    ensures names { option_map (λ x. (x.first.now, x.second.now)) result
        ≡ two_names_behind size body.now }
    ensures long { IfSome result (λ _. size ≤ length body.now) }
{
    if body.len() < size {
        return None;
    }
    two_names(&body[size..])
}

/// The flags that a body of OPEN or of OPENDIR tells.
#[tactic(auto, unfolding(crate::specs::Layouts::flags_of))]
pub(crate) fn flags_of(body: &[u8]) -> Option<u32>
    ensures { result ≡ flags_of body.now }
{
    if body.len() != OPEN_IN_SIZE {
        return None;
    }
    Some(u32_at(body, 0))
}

/// What a body of READ or of READDIR tells.
#[tactic(auto, unfolding(crate::specs::Layouts::read_in_of))]
pub(crate) fn read_in_of(body: &[u8]) -> Option<ReadIn>
    ensures { result ≡ read_in_of body.now }
{
    if body.len() != READ_IN_SIZE {
        return None;
    }
    let lock = given(u32_at(body, 20), FUSE_READ_LOCKOWNER, u64_at(body, 24));
    Some(ReadIn {
        fh: u64_at(body, 0),
        offset: u64_at(body, 8),
        size: u32_at(body, 16),
        flags: u32_at(body, 32),
        lock,
    })
}

/// The handle that a body of RELEASE, RELEASEDIR or FLUSH names.
#[tactic(auto, unfolding(crate::specs::Layouts::handle_of))]
pub(crate) fn handle_of(body: &[u8]) -> Option<u64>
    ensures { result ≡ handle_of body.now }
{
    if body.len() != RELEASE_IN_SIZE {
        return None;
    }
    Some(u64_at(body, 0))
}

/// What a body of FSYNC or of FSYNCDIR tells.
#[tactic(auto, unfolding(crate::specs::Layouts::sync_in_of))]
pub(crate) fn sync_in_of(body: &[u8]) -> Option<SyncIn>
    ensures { result ≡ sync_in_of body.now }
{
    if body.len() != FSYNC_IN_SIZE {
        return None;
    }
    Some(SyncIn {
        fh: u64_at(body, 0),
        flags: u32_at(body, 8),
    })
}
