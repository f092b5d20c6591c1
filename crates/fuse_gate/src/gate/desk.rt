//! A desk, where a gate is asked as a file system is.
ghost use Rattle.std.specs.Prelude.{◌≡◌};

use crate::gate::Gate;
use fid_model::Nine;
use fuse_wire::answers::{FsFail, GetAttrResponse, LookupResponse};
use fuse_wire::context::RequestContext;
use fuse_wire::filesystem::AsyncFilesystem;
use fuse_wire::ids::{FileHandle, INodeNo, LockOwner, OpenFlags, Ttl};
use fuse_wire::listing::DirEntListBuilder;
use fuse_wire::protocol::MAX_READ;
use fuse_wire::reply::VALID_SECS;

/// How long what a desk tells is valid.
pub const VALID: Ttl = Ttl {
    secs: VALID_SECS,
    nanos: 0,
};

/// A gate and its server, asked in every phase of a session; who asks is of no matter.
#[derive(Drop)]
pub struct Desk<'a, N> {
    gate: &'a mut Gate,
    nine: &'a mut N,
}

impl<'a, N: Nine> Desk<'a, N> {
    /// A desk of this gate over this server.
    pub fn new(gate: &'a mut Gate, nine: &'a mut N) -> Desk<'a, N>
        ensures same_gate { result.gate.ghost_name ≡ gate.entry.ghost_name }
        ensures same_nine { result.nine.ghost_name ≡ nine.entry.ghost_name }
        ensures gate { result.gate.now ≡ gate.old }
        ensures nine { result.nine.now ≡ nine.old }
    {
        Desk { gate, nine }
    }
}

impl<N: Nine> AsyncFilesystem for Desk<'_, N> {
    ghost use Rattle.std.specs.Prelude.{◌≡◌, ℕ, min, None, IfOk, OnErr};
    ghost use Rattle.fuse_wire.specs.Request.{lookup, getattr, read, readdir};
    ghost use Rattle.fuse_wire.specs.declared.protocol.TheConstants.{MAX_READ};
    ghost use Rattle.fuse_gate.specs.Desks.{AnswersAs, IsFrontOf, IsValidEntry, listing_of};
    ghost use Rattle.fuse_gate.specs.Desks.{attributes_told, bytes_told, entry_told};
    ghost use Rattle.fuse_gate.specs.Standing.{IsInStep};
    ghost use Rattle.fuse_gate.specs.declared.gate.desk.TheConstants.{VALID};

    ghost ready = { λ desk. IsInStep desk.gate.now (N.at desk.nine.now).state };

    ghost looks_up = { λ old parent name result new.
        (new.gate.ghost_name ≡ old.gate.ghost_name) × (new.nine.ghost_name ≡ old.nine.ghost_name)
        × AnswersAs parent (lookup name) (entry_told result)
        (old.gate.now, N.at old.nine.now) (new.gate.now, N.at new.nine.now)
        × IfOk result IsValidEntry };

    ghost shows = { λ old node handle result new.
        (new.gate.ghost_name ≡ old.gate.ghost_name) × (new.nine.ghost_name ≡ old.nine.ghost_name)
        × AnswersAs node (getattr handle) (attributes_told result)
        (old.gate.now, N.at old.nine.now) (new.gate.now, N.at new.nine.now)
        × IfOk result (λ told. told.ttl ≡ VALID) };

    ghost reads = { λ old handle offset size bytes result new.
        (new.gate.ghost_name ≡ old.gate.ghost_name) × (new.nine.ghost_name ≡ old.nine.ghost_name)
        × AnswersAs 0 (read handle offset size 0 None) (bytes_told bytes result)
        (old.gate.now, N.at old.nine.now) (new.gate.now, N.at new.nine.now) };

    ghost lists = { λ old handle offset room bytes result new.
        (new.gate.ghost_name ≡ old.gate.ghost_name) × (new.nine.ghost_name ≡ old.nine.ghost_name)
        × ((size : ℕ) → min room MAX_READ ≡ min size MAX_READ →
        AnswersAs 0 (readdir handle offset size 0 None) (bytes_told bytes result)
        (old.gate.now, N.at old.nine.now) (new.gate.now, N.at new.nine.now))
        × OnErr result (IsFrontOf bytes
        (listing_of (N.at old.nine.now).state handle offset (min room MAX_READ))) };

    fn lookup(
        &mut self,
        _context: &RequestContext,
        parent: INodeNo,
        name: &[u8],
    ) -> Result<LookupResponse, FsFail> {
        self.gate.lookup(self.nine, parent.0, name)
    }

    fn getattr(
        &mut self,
        _context: &RequestContext,
        ino: INodeNo,
        file_handle: Option<FileHandle>,
    ) -> Result<GetAttrResponse, FsFail> {
        self.gate
            .getattr(self.nine, ino.0, file_handle.map(|handle| handle.0))
    }

    fn read(
        &mut self,
        _context: &RequestContext,
        _ino: INodeNo,
        file_handle: FileHandle,
        offset: u64,
        size: u32,
        _flags: OpenFlags,
        _lock: Option<LockOwner>,
        out_bytes: &mut Vec<u8>,
    ) -> Result<(), FsFail> {
        let before = out_bytes.len();
        let told = self
            .gate
            .read(self.nine, file_handle.0, offset, size, out_bytes);
        if told.is_err() {
            out_bytes.truncate(before);
        }
        told
    }

    fn readdir(
        &mut self,
        _context: &RequestContext,
        _ino: INodeNo,
        file_handle: FileHandle,
        offset: u64,
        builder: &mut DirEntListBuilder<'_>,
    ) -> Result<(), FsFail> {
        builder.limit(MAX_READ);
        self.gate.readdir(self.nine, file_handle.0, offset, builder)
    }
}
