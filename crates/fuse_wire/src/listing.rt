//! Listings: the entries of a directory that READDIR's reply has.
ghost use Rattle.std.specs.Prelude.{◌≡◌, ◌+◌, ◌≤◌, ◌<◌, ◌^◌, ◌++◌, [], length, vec_len};
ghost use Rattle.std.specs.Prelude.{vec_capacity, IfOk};
ghost use Rattle.fuse_wire.specs.Listing.{padded_size, padding, dirent_bytes};

use crate::attr::FileType;
use crate::ids::INodeNo;
use crate::reply::{put, put_u32s, put_u64s};
use port_base::sink::NoMemory;
use std::alloc::Global;

/// The size of an entry before its name (`fuse_dirent` of `fuse.h`), in bytes.
pub const DIRENT_HEADER_SIZE: usize = 24;
/// The size of an entry is a multiple of so many bytes.
pub const DIRENT_ALIGNMENT: usize = 8;

// How many bytes an entry has whose name has so many.
fn padded_size(named: usize) -> usize
    requires { named < 2 ^ 63 }
    ensures { result ≡ padded_size named }
{
    (DIRENT_HEADER_SIZE + named + (DIRENT_ALIGNMENT - 1)) / DIRENT_ALIGNMENT * DIRENT_ALIGNMENT
}

// Appends an entry for which there is room.
fn put_entry(out: &mut Vec<u8>, ino: INodeNo, offset: u64, kind: FileType, name: &[u8])
    requires room { vec_len out.old + padded_size (length name.now) ≤ vec_capacity out.old }
    requires short { length name.now < 2 ^ 32 }
    ensures items { out.new.items ≡ out.old.items ++ dirent_bytes ino.0 offset kind name.now }
    ensures len { vec_len out.new ≡ vec_len out.old + padded_size (length name.now) }
    ensures capacity { vec_capacity out.old ≤ vec_capacity out.new }
{
    let padding = padded_size(name.len()) - DIRENT_HEADER_SIZE - name.len();
    put_u64s(out, &[ino.0, offset]);
    put_u32s(out, &[name.len() as u32, kind.number()]);
    put(out, name);
    put(out, &[0; DIRENT_ALIGNMENT][..padding]);
}

/// The entries of a directory that a reply has: whole ones, together at most `size` bytes.
#[derive(Drop)]
pub struct ReplyDirectory {
    bytes: Vec<u8>,
    size: u32,
    ghost small: { size < 2 ^ 32 },
    ghost room: { size ≤ vec_capacity bytes },
    ghost within: { vec_len bytes ≤ size },
}

impl ReplyDirectory {
    ghost use Rattle.std.specs.Prelude.{◌≡◌, [], IfOk, vec_len};
    ghost use Rattle.fuse_wire.specs.Listing.{dirent_bytes};
    ghost use Rattle.fuse_wire.specs.Adding.{Adds};

    /// Without an entry, with room for `size` bytes.
    pub fn new(alloc: Global, size: u32) -> Result<ReplyDirectory, NoMemory>
        ensures empty { IfOk result (λ d. d.bytes.items ≡ []) }
        ensures size { IfOk result (λ d. d.size ≡ size) }
    {
        match Vec::with_capacity(alloc, size as usize) {
            Ok(bytes) => Ok(ReplyDirectory { bytes, size }),
            Err(_) => Err(NoMemory),
        }
    }

    /// The bytes of its entries.
    pub fn as_bytes(&self) -> &[u8]
        ensures { result.now ≡ self.now.bytes.items }
    {
        self.bytes.as_slice()
    }

    /// The bytes of its entries, without a copy.
    pub fn into_bytes(self) -> Vec<u8>
        ensures { result.items ≡ self.bytes.items }
    {
        let ReplyDirectory { bytes, size: _ } = self;
        bytes
    }

    // How many bytes its entries have.
    fn len(&self) -> usize
        ensures { result ≡ vec_len self.now.bytes }
    {
        self.bytes.len()
    }

    /// Appends an entry; true exactly where it doesn't fit any more, and then nothing changes. It
    /// takes no memory.
    pub fn add(&mut self, ino: INodeNo, offset: u64, kind: FileType, name: &[u8]) -> bool
        ensures { Adds (dirent_bytes ino.0 offset kind name.now) self.old.size self.old self.new
            result }
    {
        if padded_size(name.len()) > self.size as usize - self.bytes.len() {
            return true;
        }
        put_entry(&mut self.bytes, ino, offset, kind, name);
        false
    }
}

/// What adds entries to a listing, in at most so many of its bytes.
#[derive(Drop)]
pub struct DirEntListBuilder<'a> {
    entries: &'a mut ReplyDirectory,
    // How many bytes the listing has at most in the end.
    end: u32,
    ghost inside: { end ≤ entries.now.size },
    ghost before: { vec_len entries.now.bytes ≤ end },
}

impl<'a> DirEntListBuilder<'a> {
    ghost use Rattle.std.specs.Prelude.{◌≡◌, ◌+◌, min, vec_len};
    ghost use Rattle.fuse_wire.specs.Listing.{dirent_bytes};
    ghost use Rattle.fuse_wire.specs.Adding.{Adds};

    /// Adds to these entries, as long as they have room.
    pub fn new(entries: &'a mut ReplyDirectory) -> DirEntListBuilder<'a>
        ensures same_reference { result.entries.ghost_name ≡ entries.entry.ghost_name }
        ensures entries { result.entries.now ≡ entries.old }
        ensures end { result.end ≡ entries.old.size }
    {
        let end = entries.size;
        DirEntListBuilder { entries, end }
    }

    /// Adds at most `size` bytes more from here on.
    pub fn limit(&mut self, size: u32)
        ensures same_reference { self.new.entries.ghost_name ≡ self.old.entries.ghost_name }
        ensures entries { self.new.entries.now ≡ self.old.entries.now }
        ensures end { self.new.end ≡ min self.old.end (vec_len self.old.entries.now.bytes + size) }
    {
        let len = self.entries.len() as u32;
        self.end = len + size.min(self.end - len);
    }

    /// Appends an entry; true exactly where it doesn't fit any more, and then nothing changes. It
    /// takes no memory.
    pub fn add(&mut self, ino: INodeNo, offset: u64, kind: FileType, name: &[u8]) -> bool
        ensures same_reference { self.new.entries.ghost_name ≡ self.old.entries.ghost_name }
        ensures added { Adds (dirent_bytes ino.0 offset kind name.now) self.old.end
            self.old.entries.now self.new.entries.now result }
        ensures end { self.new.end ≡ self.old.end }
    {
        if padded_size(name.len()) > self.end as usize - self.entries.len() {
            return true;
        }
        self.entries.add(ino, offset, kind, name)
    }
}
