//! Records as they are kept in memory.
ghost use Rattle.std.specs.Prelude.{◌≡◌, ◌+◌, ◌-◌, ◌^◌, ◌<◌, ◌++◌, ◌∷◌, [], not, ◌==◌, Some, IfOk};
ghost use Rattle.std.specs.Prelude.{OnOk, OnErr, option_copied, option_and_then, bytes_eq, false};
ghost use Rattle.std.specs.Prelude.{length, take, drop};
ghost use Rattle.tree_model.specs.Tree.{is_directory};
ghost use Rattle.tree_model.specs.Finding.{entry_named, entries_of, ino_among};
ghost use Rattle.tree_model.specs.Attributes.{attr_of};
ghost use Rattle.tree_model.specs.Reading.{above, entry_above, bytes_of, part};
ghost use Rattle.tree_model.specs.Making.{next_cookie, new_name_refused};
ghost use Rattle.tree_host.specs.Host.{as_errno};
ghost use Rattle.tree_host.specs.Stored.{body_of};
ghost use Rattle.tree_host.specs.Kept.{put_by};

mod changes;
mod reads;
mod records;
mod removals;
mod stamps;

use crate::listing::{DirEntry, Listing};
pub use changes::fitting;
use port_base::errno::{EEXIST, ENOENT, ENOSPC, ENOTDIR};
use std::alloc::{AllocError, Global};
use std::marker::Model;
use tree_model::{Attr, HostError, Kind, Stamp};

// Copies what is there from an offset on and fits, and returns how many bytes.
fn copy_part(bytes: &[u8], offset: u64, buf: &mut [u8]) -> usize
    ensures count { result ≡ length (part bytes.now offset (length buf.old)) }
    ensures bytes { buf.new ≡ part bytes.now offset (length buf.old) ++ drop result buf.old }
{
    let start = bytes.len().min(offset as usize);
    let rest = &bytes[start..];
    let count = rest.len().min(buf.len());
    buf[..count].copy_from_slice(&rest[..count]);
    count
}

/// What a record holds: a file its bytes; a directory its names and the number of the directory
/// above; a link its target.
#[derive(Drop)]
pub enum Stored {
    Bytes(Vec<u8>),
    Names { listing: Listing, above: u64 },
    Target(Vec<u8>),
}

/// A record.
#[derive(Drop)]
pub struct Node {
    body: Stored,
    mode: u32,
    uid: u32,
    gid: u32,
    links: u64,
    atime: Stamp,
    mtime: Stamp,
    ctime: Stamp,
}

impl Model for Node {
    ghost use Rattle.tree_model.specs.Tree.{Record};
    ghost use Rattle.tree_host.specs.Stored.{body_of};

    ghost Value = { Record };

    ghost view = { λ a. record {
      body = body_of a.body;
      mode = a.mode;
      uid = a.uid;
      gid = a.gid;
      links = a.links;
      atime = a.atime;
      mtime = a.mtime;
      ctime = a.ctime;
    } };
}

impl Node {
    pub fn links(&self) -> u64
        ensures { result ≡ self.now.links }
    {
        self.links
    }

    pub fn is_directory(&self) -> bool
        ensures { result ≡ is_directory self.now.body }
    {
        match &self.body {
            Stored::Bytes(_) => false,
            Stored::Names { .. } => true,
            Stored::Target(_) => false,
        }
    }

    /// The inode that a name of this directory names.
    pub fn ino_of(&self, name: &[u8]) -> Result<u64, HostError>
        ensures { result ≡ as_errno (ino_among false name.now (entries_of self.now.body)) }
    {
        let Stored::Names { listing, .. } = &self.body else {
            return Err(HostError::Errno(ENOTDIR));
        };
        match listing.find(name) {
            Some(entry) => Ok(entry.ino()),
            None => Err(HostError::Errno(ENOENT)),
        }
    }

    /// What is told of this record, as inode `ino`.
    pub fn attr(&self, ino: u64) -> Attr
        ensures { result ≡ attr_of ino self.now }
    {
        let (kind, size) = match &self.body {
            Stored::Bytes(bytes) => (Kind::File, bytes.len() as u64),
            Stored::Names { .. } => (Kind::Directory, 0),
            Stored::Target(target) => (Kind::Link, target.len() as u64),
        };
        Attr {
            ino,
            kind,
            mode: self.mode,
            uid: self.uid,
            gid: self.gid,
            links: self.links,
            size,
            atime: self.atime,
            mtime: self.mtime,
            ctime: self.ctime,
        }
    }

    /// The number of the directory above, 0 for what is no directory.
    pub fn above(&self) -> u64
        ensures { result ≡ above self.now.body }
    {
        match &self.body {
            Stored::Bytes(_) => 0,
            Stored::Names { above, .. } => *above,
            Stored::Target(_) => 0,
        }
    }

    /// The cookie that the next entry gets, 0 for what is no directory.
    pub fn next_cookie(&self) -> u64
        ensures { result ≡ next_cookie self.now.body }
    {
        match &self.body {
            Stored::Bytes(_) => 0,
            Stored::Names { listing, .. } => listing.next_cookie(),
            Stored::Target(_) => 0,
        }
    }

    /// The first entry above a cookie.
    pub fn entry_above(&self, cookie: u64) -> Option<&DirEntry>
        ensures { option_copied result ≡ option_and_then (entry_above cookie)
            (entries_of self.now.body) }
    {
        match &self.body {
            Stored::Bytes(_) => None,
            Stored::Names { listing, .. } => listing.above(cookie),
            Stored::Target(_) => None,
        }
    }

    /// Copies the bytes of a file from an offset on, as many as there are and fit, and returns how
    /// many.
    pub fn read(&self, offset: u64, buf: &mut [u8]) -> usize
        ensures count { result ≡ length (part (bytes_of self.now.body) offset (length buf.old)) }
        ensures bytes { buf.new ≡ part (bytes_of self.now.body) offset (length buf.old) ++ drop
            result buf.old }
    {
        match &self.body {
            Stored::Bytes(bytes) => copy_part(bytes, offset, buf),
            Stored::Names { .. } => 0,
            Stored::Target(_) => 0,
        }
    }

    /// The first refusal of a new name in this directory.
    pub fn refusal(&self, name: &[u8], number: u64, limit: u64) -> Option<u32>
        ensures { result ≡ new_name_refused (not (self.now.links == 0)) limit number name.now
            (Some self.now.body) }
    {
        let Stored::Names { listing, .. } = &self.body else {
            return Some(ENOTDIR);
        };
        if self.links == 0 {
            return Some(ENOENT);
        }
        if listing.find(name).is_some() {
            return Some(EEXIST);
        }
        let cookie = listing.next_cookie();
        if listing.len() as u64 >= limit || number >= u64::MAX || cookie >= u64::MAX {
            return Some(ENOSPC);
        }
        None
    }

    /// Adds an entry in the place of the one that has its name, where there is memory for it.
    pub fn join(&mut self, alloc: Global, name: &[u8], ino: u64) -> Result<(), AllocError>
        requires room { next_cookie self.old.body < 2 ^ 64 - 1 }
        ensures ok { OnOk result (self.new ≡ put_by name.now ino self.old) }
        ensures err { OnErr result (self.new ≡ self.old) }
    {
        if let Stored::Names { listing, .. } = &mut self.body {
            listing.put(alloc, name, ino)?;
        }
        Ok(())
    }
}
