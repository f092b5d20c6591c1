//! The bodies of requests, by their layouts.
ghost use Rattle.std.specs.Prelude.{◌≡◌};
ghost use Rattle.std.specs.Option.{option_map};
ghost use Rattle.fuse_wire.specs.Body.{plain};
ghost use Rattle.fuse_wire.specs.Layouts.{only_name, two_names, flags_of, read_in_of, handle_of};
ghost use Rattle.fuse_wire.specs.Layouts.{sync_in_of};
ghost use Rattle.fuse_wire.specs.Request.{init_of, getattr_of, rename_of, rename2_of, mknod_of};
ghost use Rattle.fuse_wire.specs.Request.{mkdir_of, setattr_of, write_of, link_of, create_of};
ghost use Rattle.fuse_wire.specs.Request.{forget_of, batch_forget_of, asks_read, asks_readdir};
ghost use Rattle.fuse_wire.specs.Request.{asks_fsync, asks_fsyncdir, asks_symlink, sized};
ghost use Rattle.fuse_wire.specs.Request.{lookup, unlink, rmdir, readlink, statfs, open_file};
ghost use Rattle.fuse_wire.specs.Request.{opendir, flush, release, releasedir, interrupt, destroy};

use crate::fields::{given, u32_at, u64_at};
use crate::layouts::{
    BATCH_FORGET_IN_SIZE, CREATE_IN_SIZE, FORGET_IN_SIZE, GETATTR_IN_SIZE, INIT_IN_SIZE,
    INTERRUPT_IN_SIZE, LINK_IN_SIZE, MKDIR_IN_SIZE, MKNOD_IN_SIZE, RENAME_IN_SIZE, RENAME2_IN_SIZE,
    SETATTR_IN_SIZE, WRITE_IN_SIZE, flags_of, handle_of, name_behind, only_name, read_in_of,
    sync_in_of, two_names, two_names_behind,
};
use crate::opcode::FUSE_GETATTR_FH;
use crate::request::{Body, FORGET_ONE_SIZE};
use crate::setattr::SetAttrIn;

#[tactic(auto, unfolding(crate::specs::Request::init_of))]
pub(crate) fn init_of(body: &[u8]) -> Option<Body<'_>>
    ensures { option_map plain result ≡ init_of body.now }
{
    if body.len() < INIT_IN_SIZE {
        return None;
    }
    Some(Body::Init {
        major: u32_at(body, 0),
        minor: u32_at(body, 4),
        max_readahead: u32_at(body, 8),
        flags: u32_at(body, 12),
    })
}

pub(crate) fn lookup_of(body: &[u8]) -> Option<Body<'_>>
    ensures { option_map plain result ≡ option_map lookup (only_name body.now) }
{
    let name = only_name(body)?;
    Some(Body::Lookup { name })
}

pub(crate) fn unlink_of(body: &[u8]) -> Option<Body<'_>>
    ensures { option_map plain result ≡ option_map unlink (only_name body.now) }
{
    let name = only_name(body)?;
    Some(Body::Unlink { name })
}

#[tactic(auto, unfolding(crate::specs::Request::getattr_of))]
pub(crate) fn getattr_of(body: &[u8]) -> Option<Body<'_>>
    ensures { option_map plain result ≡ getattr_of body.now }
{
    if body.len() != GETATTR_IN_SIZE {
        return None;
    }
    let flags = u32_at(body, 0);
    let handle = given(flags, FUSE_GETATTR_FH, u64_at(body, 8));
    Some(Body::GetAttr { handle })
}

#[tactic(auto, unfolding(crate::specs::Request::setattr_of))]
pub(crate) fn setattr_of(body: &[u8]) -> Option<Body<'_>>
    ensures { option_map plain result ≡ setattr_of body.now }
{
    if body.len() != SETATTR_IN_SIZE {
        return None;
    }
    Some(Body::SetAttr(SetAttrIn {
        valid: u32_at(body, 0),
        fh: u64_at(body, 8),
        size: u64_at(body, 16),
        lock_owner: u64_at(body, 24),
        atime: u64_at(body, 32),
        mtime: u64_at(body, 40),
        ctime: u64_at(body, 48),
        atimensec: u32_at(body, 56),
        mtimensec: u32_at(body, 60),
        ctimensec: u32_at(body, 64),
        mode: u32_at(body, 68),
        uid: u32_at(body, 76),
        gid: u32_at(body, 80),
    }))
}

pub(crate) fn open_of(body: &[u8]) -> Option<Body<'_>>
    ensures { option_map plain result ≡ option_map open_file (flags_of body.now) }
{
    let flags = flags_of(body)?;
    Some(Body::OpenFile { flags })
}

pub(crate) fn opendir_of(body: &[u8]) -> Option<Body<'_>>
    ensures { option_map plain result ≡ option_map opendir (flags_of body.now) }
{
    let flags = flags_of(body)?;
    Some(Body::OpenDir { flags })
}

pub(crate) fn read_of(body: &[u8]) -> Option<Body<'_>>
    ensures { option_map plain result ≡ option_map asks_read (read_in_of body.now) }
{
    let asked = read_in_of(body)?;
    Some(Body::Read {
        fh: asked.fh,
        offset: asked.offset,
        size: asked.size,
        flags: asked.flags,
        lock: asked.lock,
    })
}

pub(crate) fn readdir_of(body: &[u8]) -> Option<Body<'_>>
    ensures { option_map plain result ≡ option_map asks_readdir (read_in_of body.now) }
{
    let asked = read_in_of(body)?;
    Some(Body::ReadDir {
        fh: asked.fh,
        offset: asked.offset,
        size: asked.size,
        flags: asked.flags,
        lock: asked.lock,
    })
}

#[tactic(auto, unfolding(crate::specs::Request::write_of))]
pub(crate) fn write_of(body: &[u8]) -> Option<Body<'_>>
    ensures { option_map plain result ≡ write_of body.now }
{
    if body.len() < WRITE_IN_SIZE {
        return None;
    }
    let bytes = &body[WRITE_IN_SIZE..];
    let count = u32_at(body, 16) as usize;
    if bytes.len() != count {
        return None;
    }
    Some(Body::Write {
        fh: u64_at(body, 0),
        offset: u64_at(body, 8),
        bytes,
    })
}

pub(crate) fn flush_of(body: &[u8]) -> Option<Body<'_>>
    ensures { option_map plain result ≡ option_map flush (handle_of body.now) }
{
    let fh = handle_of(body)?;
    Some(Body::Flush { fh })
}

pub(crate) fn release_of(body: &[u8]) -> Option<Body<'_>>
    ensures { option_map plain result ≡ option_map release (handle_of body.now) }
{
    let fh = handle_of(body)?;
    Some(Body::Release { fh })
}

pub(crate) fn releasedir_of(body: &[u8]) -> Option<Body<'_>>
    ensures { option_map plain result ≡ option_map releasedir (handle_of body.now) }
{
    let fh = handle_of(body)?;
    Some(Body::ReleaseDir { fh })
}

#[tactic(auto, unfolding(crate::specs::Request::forget_of))]
pub(crate) fn forget_of(body: &[u8]) -> Option<Body<'_>>
    ensures { option_map plain result ≡ forget_of body.now }
{
    if body.len() != FORGET_IN_SIZE {
        return None;
    }
    Some(Body::Forget {
        nlookup: u64_at(body, 0),
    })
}

#[tactic(auto, unfolding(crate::specs::Request::batch_forget_of))]
pub(crate) fn batch_forget_of(body: &[u8]) -> Option<Body<'_>>
    ensures { option_map plain result ≡ batch_forget_of body.now }
{
    if body.len() < BATCH_FORGET_IN_SIZE {
        return None;
    }
    let pairs = &body[BATCH_FORGET_IN_SIZE..];
    let count = u32_at(body, 0) as usize;
    if pairs.len() != count * FORGET_ONE_SIZE {
        return None;
    }
    Some(Body::BatchForget { pairs })
}

pub(crate) fn rmdir_of(body: &[u8]) -> Option<Body<'_>>
    ensures { option_map plain result ≡ option_map rmdir (only_name body.now) }
{
    let name = only_name(body)?;
    Some(Body::RmDir { name })
}

#[tactic(auto, unfolding(crate::specs::Request::rename_of))]
pub(crate) fn rename_of(body: &[u8]) -> Option<Body<'_>>
    ensures { option_map plain result ≡ rename_of body.now }
{
    let names = two_names_behind(body, RENAME_IN_SIZE)?;
    Some(Body::Rename {
        newdir: u64_at(body, 0),
        old: names.first,
        new: names.second,
    })
}

#[tactic(auto, unfolding(crate::specs::Request::rename2_of))]
pub(crate) fn rename2_of(body: &[u8]) -> Option<Body<'_>>
    ensures { option_map plain result ≡ rename2_of body.now }
{
    let names = two_names_behind(body, RENAME2_IN_SIZE)?;
    Some(Body::Rename2 {
        newdir: u64_at(body, 0),
        flags: u32_at(body, 8),
        old: names.first,
        new: names.second,
    })
}

pub(crate) fn symlink_of(body: &[u8]) -> Option<Body<'_>>
    ensures { option_map plain result ≡ option_map asks_symlink (two_names body.now) }
{
    let names = two_names(body)?;
    Some(Body::Symlink {
        name: names.first,
        target: names.second,
    })
}

#[tactic(auto, unfolding(crate::specs::Request::mknod_of))]
pub(crate) fn mknod_of(body: &[u8]) -> Option<Body<'_>>
    ensures { option_map plain result ≡ mknod_of body.now }
{
    let name = name_behind(body, MKNOD_IN_SIZE)?;
    Some(Body::MkNod {
        mode: u32_at(body, 0),
        rdev: u32_at(body, 4),
        name,
    })
}

#[tactic(auto, unfolding(crate::specs::Request::mkdir_of))]
pub(crate) fn mkdir_of(body: &[u8]) -> Option<Body<'_>>
    ensures { option_map plain result ≡ mkdir_of body.now }
{
    let name = name_behind(body, MKDIR_IN_SIZE)?;
    Some(Body::MkDir {
        mode: u32_at(body, 0),
        name,
    })
}

#[tactic(auto, unfolding(crate::specs::Request::link_of))]
pub(crate) fn link_of(body: &[u8]) -> Option<Body<'_>>
    ensures { option_map plain result ≡ link_of body.now }
{
    let name = name_behind(body, LINK_IN_SIZE)?;
    Some(Body::Link {
        old: u64_at(body, 0),
        name,
    })
}

#[tactic(auto, unfolding(crate::specs::Request::create_of))]
pub(crate) fn create_of(body: &[u8]) -> Option<Body<'_>>
    ensures { option_map plain result ≡ create_of body.now }
{
    let name = name_behind(body, CREATE_IN_SIZE)?;
    Some(Body::Create {
        flags: u32_at(body, 0),
        mode: u32_at(body, 4),
        name,
    })
}

pub(crate) fn readlink_of(body: &[u8]) -> Option<Body<'_>>
    ensures { option_map plain result ≡ sized 0 readlink body.now }
{
    if !body.is_empty() {
        return None;
    }
    Some(Body::ReadLink)
}

pub(crate) fn statfs_of(body: &[u8]) -> Option<Body<'_>>
    ensures { option_map plain result ≡ sized 0 statfs body.now }
{
    if !body.is_empty() {
        return None;
    }
    Some(Body::StatFs)
}

pub(crate) fn fsync_of(body: &[u8]) -> Option<Body<'_>>
    ensures { option_map plain result ≡ option_map asks_fsync (sync_in_of body.now) }
{
    let asked = sync_in_of(body)?;
    Some(Body::FSync {
        fh: asked.fh,
        flags: asked.flags,
    })
}

pub(crate) fn fsyncdir_of(body: &[u8]) -> Option<Body<'_>>
    ensures { option_map plain result ≡ option_map asks_fsyncdir (sync_in_of body.now) }
{
    let asked = sync_in_of(body)?;
    Some(Body::FSyncDir {
        fh: asked.fh,
        flags: asked.flags,
    })
}

pub(crate) fn interrupt_of(body: &[u8]) -> Option<Body<'_>>
    ensures { option_map plain result ≡ sized INTERRUPT_IN_SIZE interrupt body.now }
{
    if body.len() != INTERRUPT_IN_SIZE {
        return None;
    }
    Some(Body::Interrupt)
}

pub(crate) fn destroy_of(body: &[u8]) -> Option<Body<'_>>
    ensures { option_map plain result ≡ sized 0 destroy body.now }
{
    if !body.is_empty() {
        return None;
    }
    Some(Body::Destroy)
}
