//! The entries of a directory of a host, one by one.
ghost use Rattle.std.specs.Prelude.{◌≡◌, ◌<◌, IfErr, IfOk};
ghost use Rattle.tree_model.specs.Reading.{entry_after_of};
ghost use Rattle.tree_host.specs.Holds.{hold_count};
ghost use Rattle.tree_host.specs.Calls.{Caused};
ghost use Rattle.p9_server.specs.Paging.{Gives, Shows, as_answer, file_type};

use crate::pages::entry_type;
use p9_wire::text::P9String;
use std::alloc::Global;
use tree_host::{Entry, Host};
use tree_model::HostError;
use tree_model::attributes::{DT_DIR, DT_REG};

/// What a file is, by its mode.
#[derive(Clone, Copy, Debug, PartialEq, Eq)]
pub enum FileType {
    /// A regular file.
    Regular,
    /// A directory.
    Directory,
    /// A symbolic link, or what a tree doesn't have.
    Other,
}

impl FileType {
    /// The type that the type bits of a mode tell.
    pub fn from_mode(mode: u32) -> FileType
        ensures { result ≡ file_type mode }
    {
        let bits = mode / 4096 % 16;
        if bits == DT_REG as u32 {
            FileType::Regular
        } else if bits == DT_DIR as u32 {
            FileType::Directory
        } else {
            FileType::Other
        }
    }
}

/// An entry of a directory.
#[derive(Drop)]
pub struct DirEntry {
    /// The number of the inode that it names.
    pub ino: u64,
    /// The cookie to read on from after this entry.
    pub offset: u64,
    /// The type of the inode, as `d_type` of readdir(3) has it.
    pub kind_: u8,
    /// The name, without a slash.
    pub name: P9String,
}

// What is told of an entry, whose name is copied.
fn shown(alloc: Global, entry: &Entry) -> Result<DirEntry, HostError>
    ensures shows { IfOk result (λ d. Shows d entry.now) }
    ensures memory { IfErr result (λ e. e ≡ HostError.NoMemory) }
{
    // The name of an entry is a text.
    let name = P9String::new(alloc, &entry.name).map_err(|_| HostError::NoMemory)?;
    Ok(DirEntry {
        ino: entry.attr.ino,
        offset: entry.cookie,
        kind_: entry_type(entry.attr.kind),
        name,
    })
}

/// A reader of the entries of a directory, which stands behind the entry that it gave last.
#[derive(Drop)]
pub struct ReadDir<'a, H> {
    host: &'a mut H,
    dir: u64,
    cookie: u64,
}

/// A reader of the entries of a directory, which is held, above a cookie.
pub fn read_dir<'a, H: Host>(host: &'a mut H, dir: u64, offset: u64) -> ReadDir<'a, H>
    ensures same_reference { result.host.ghost_name ≡ host.entry.ghost_name }
    ensures host { result.host.now ≡ host.old }
    ensures directory { result.dir ≡ dir }
    ensures cookie { result.cookie ≡ offset }
{
    ReadDir {
        host,
        dir,
        cookie: offset,
    }
}

impl<'a, H: Host> ReadDir<'a, H> {
    /// The first entry above the cookie where the reader stands, behind which it stands then; none
    /// where none is above, and only there. After an error it stands where it stood: ENOTDIR for
    /// what is no directory; a fault of the host; out of memory.
    pub fn next(&mut self, alloc: Global) -> Option<Result<DirEntry, HostError>>
        requires { 0 < hold_count (H.holds self.old.host.now) self.old.dir }
        ensures gives { Gives (entry_after_of (H.tree self.old.host.now) self.old.dir
            self.old.cookie) self.old.cookie self.new.cookie result }
        ensures tree { H.tree self.new.host.now ≡ H.tree self.old.host.now }
        ensures holds { H.holds self.new.host.now ≡ H.holds self.old.host.now }
        ensures directory { self.new.dir ≡ self.old.dir }
        ensures caused { Caused (H.calls self.old.host.now) (H.calls self.new.host.now)
            (as_answer result) }
    {
        match self.host.entry_after(self.dir, self.cookie) {
            Ok(Some(entry)) => match shown(alloc, &entry) {
                Ok(told) => {
                    self.cookie = told.offset;
                    Some(Ok(told))
                }
                Err(e) => Some(Err(e)),
            },
            Ok(None) => None,
            Err(e) => Some(Err(e)),
        }
    }
}
