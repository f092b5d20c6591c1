//! The calls of a file system.
ghost use Rattle.std.specs.Prelude.{⊤, ◌≡◌, ◌++◌, ◌-◌, ℕ, List, Option, Result, length};
ghost use Rattle.std.specs.Prelude.{option_map, OnErr};
ghost use Rattle.fuse_wire.specs.Answers.{OnTold, handle_number, listed_by, rest_of};
ghost use Rattle.fuse_wire.specs.declared.answers.FsFail.{FsFail};
ghost use Rattle.fuse_wire.specs.declared.answers.LookupResponse.{LookupResponse};
ghost use Rattle.fuse_wire.specs.declared.answers.GetAttrResponse.{GetAttrResponse};

use crate::answers::{FsFail, GetAttrResponse, LookupResponse};
use crate::context::RequestContext;
use crate::ids::{FileHandle, INodeNo, LockOwner, OpenFlags};
use crate::listing::DirEntListBuilder;

/// A file system, whose nodes and handles have numbers. Each call is refused with an error number
/// of the system, or lacks memory, and then no further call may be made.
pub trait AsyncFilesystem {
    /// Whether its calls may be made.
    ghost ready: { Self → Type 0 };

    /// What looking a name up in a node tells and leaves.
    ghost looks_up: { Self → ℕ → List ℕ → Result LookupResponse FsFail → Self → Type 0 };

    /// What asking for the attributes of a handle, else of a node, tells and leaves.
    ghost shows: { Self → ℕ → Option ℕ → Result GetAttrResponse FsFail → Self → Type 0 };

    /// What reading a handle's file from an offset on gives, at most so many bytes: those that it
    /// appends, the answer, and what it leaves.
    ghost reads: { Self → ℕ → ℕ → ℕ → List ℕ → Result ⊤ FsFail → Self → Type 0 };

    /// What listing a handle's directory behind an offset gives, in at most so many bytes: those
    /// that it adds, the answer, and what it leaves.
    ghost lists: { Self → ℕ → ℕ → ℕ → List ℕ → Result ⊤ FsFail → Self → Type 0 };

    /// Looks a name up in a directory.
    fn lookup(
        &mut self,
        context: &RequestContext,
        parent: INodeNo,
        name: &[u8],
    ) -> Result<LookupResponse, FsFail>
        requires { ready self.old }
        ensures told { looks_up self.old parent.0 name.now result self.new }
        ensures ready { OnTold result (ready self.new) };

    /// The attributes of a handle's file, or of a node.
    fn getattr(
        &mut self,
        context: &RequestContext,
        ino: INodeNo,
        file_handle: Option<FileHandle>,
    ) -> Result<GetAttrResponse, FsFail>
        requires { ready self.old }
        ensures told { shows self.old ino.0 (option_map handle_number file_handle) result self.new }
        ensures ready { OnTold result (ready self.new) };

    /// Appends at most `size` bytes of a handle's file from `offset` on. After an error nothing is
    /// appended.
    fn read(
        &mut self,
        context: &RequestContext,
        ino: INodeNo,
        file_handle: FileHandle,
        offset: u64,
        size: u32,
        flags: OpenFlags,
        lock: Option<LockOwner>,
        out_bytes: &mut Vec<u8>,
    ) -> Result<(), FsFail>
        requires { ready self.old }
        ensures appended { out_bytes.new.items ≡ out_bytes.old.items
            ++ rest_of out_bytes.old.items out_bytes.new.items }
        ensures unchanged { OnErr result (out_bytes.new.items ≡ out_bytes.old.items) }
        ensures told { reads self.old file_handle.0 offset size
            (rest_of out_bytes.old.items out_bytes.new.items) result self.new }
        ensures ready { OnTold result (ready self.new) };

    /// Adds the entries of a handle's directory behind `offset`, as many as have room. After an
    /// error some of them were added.
    fn readdir(
        &mut self,
        context: &RequestContext,
        ino: INodeNo,
        file_handle: FileHandle,
        offset: u64,
        builder: &mut DirEntListBuilder<'_>,
    ) -> Result<(), FsFail>
        requires { ready self.old }
        ensures same_reference { builder.new.entries.ghost_name ≡ builder.old.entries.ghost_name }
        ensures added { listed_by builder.new.entries.now ≡ listed_by builder.old.entries.now
            ++ rest_of (listed_by builder.old.entries.now) (listed_by builder.new.entries.now) }
        ensures told { lists self.old file_handle.0 offset
            (builder.old.end - length (listed_by builder.old.entries.now))
            (rest_of (listed_by builder.old.entries.now) (listed_by builder.new.entries.now))
            result self.new }
        ensures ready { OnTold result (ready self.new) };
}
