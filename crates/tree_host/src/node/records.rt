//! Records that are made and named.
ghost use Rattle.std.specs.Prelude.{◌≡◌, ◌-◌, ◌^◌, ◌<◌, not, ◌==◌, Some, IfOk};
ghost use Rattle.tree_model.specs.Making.{file_record, top_record};
ghost use Rattle.tree_model.specs.Placing.{directory_record, link_record, link_refused};
ghost use Rattle.tree_model.specs.Placing.{one_link_more};

use super::{Node, Stored};
use crate::listing::Listing;
use port_base::errno::{EEXIST, EMLINK, ENOENT, ENOSPC, ENOTDIR, EPERM};
use std::alloc::{AllocError, Global};
use tree_model::attributes::TOP;
use tree_model::{Limits, Stamp};

impl Node {
    /// The top directory, with no entries.
    pub fn top(alloc: Global, mode: u32, uid: u32, gid: u32, born: Stamp) -> Self
        ensures { result ≡ top_record born mode uid gid }
    {
        Node::directory(alloc, mode, uid, gid, TOP, born)
    }

    /// A directory with no entries, below the directory `above`.
    pub fn directory(alloc: Global, mode: u32, uid: u32, gid: u32, above: u64, born: Stamp) -> Self
        ensures { result ≡ directory_record born mode uid gid above }
    {
        Node {
            body: Stored::Names {
                listing: Listing::new(alloc),
                above,
            },
            mode,
            uid,
            gid,
            links: 2,
            atime: born,
            mtime: born,
            ctime: born,
        }
    }

    /// A file that one entry names.
    pub fn file(
        alloc: Global,
        mode: u32,
        uid: u32,
        gid: u32,
        bytes: &[u8],
        born: Stamp,
    ) -> Result<Self, AllocError>
        ensures { IfOk result (λ node. node ≡ file_record born
            (record { mode = mode; uid = uid; gid = gid; bytes = bytes.now })) }
    {
        let bytes = Vec::from_slice(alloc, bytes)?;
        Ok(Node {
            body: Stored::Bytes(bytes),
            mode,
            uid,
            gid,
            links: 1,
            atime: born,
            mtime: born,
            ctime: born,
        })
    }

    /// A symbolic link that one entry names, with mode 0777.
    pub fn link(
        alloc: Global,
        uid: u32,
        gid: u32,
        target: &[u8],
        born: Stamp,
    ) -> Result<Self, AllocError>
        ensures { IfOk result (λ node. node ≡ link_record born uid gid target.now) }
    {
        let target = Vec::from_slice(alloc, target)?;
        Ok(Node {
            body: Stored::Target(target),
            mode: 0o777,
            uid,
            gid,
            links: 1,
            atime: born,
            mtime: born,
            ctime: born,
        })
    }

    /// The first refusal of one more name of `node` in this directory.
    pub fn link_refusal(&self, name: &[u8], node: &Node, limits: Limits) -> Option<u32>
        ensures { result ≡ link_refused (not (self.now.links == 0)) limits name.now
            (Some self.now.body) (Some node.now) }
    {
        let Stored::Names { listing, .. } = &self.body else {
            return Some(ENOTDIR);
        };
        if node.is_directory() {
            return Some(EPERM);
        }
        if self.links == 0 || node.links == 0 {
            return Some(ENOENT);
        }
        if listing.find(name).is_some() {
            return Some(EEXIST);
        }
        if node.links >= limits.links {
            return Some(EMLINK);
        }
        if listing.len() as u64 >= limits.entries || listing.next_cookie() >= u64::MAX {
            return Some(ENOSPC);
        }
        None
    }

    /// One entry more names it.
    pub fn link_more(&mut self)
        requires { self.old.links < 2 ^ 64 - 1 }
        ensures { self.new ≡ one_link_more self.old }
    {
        self.links += 1;
    }
}
