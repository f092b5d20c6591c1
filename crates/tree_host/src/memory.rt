//! A tree that is kept in memory.
ghost use Rattle.tree_model.specs.Good.{IsGoodTree, IsGoodStamp};
ghost use Rattle.tree_model.specs.GoodLaws.{IsGoodTree-prop};
ghost use Rattle.tree_host.specs.Host.{IsHeldIn};
ghost use Rattle.tree_host.specs.Kept.{tree_from};

mod additions;
#[cfg(test)]
mod call_tests;
mod changes;
mod creations;
mod moves;
mod readers;
mod removals;
#[cfg(test)]
mod tests;
mod writes;

use crate::Entry;
use crate::change::Change;
use crate::holds::{hold, lower};
use crate::host::Host;
use crate::node::Node;
use crate::nodes::{
    entry_after, find_empty, find_file, find_in, open_check, read_link, sweep, walk,
};
use additions::NewFile;
use port_base::errno::ENOENT;
use port_base::failing::FailingCalls;
use port_base::sink::NoMemory;
use port_base::table::Table;
use std::alloc::Global;
use tree_model::attributes::{BLOCK_SIZE, TOP};
use tree_model::{Attr, HostError, Limits, Stamp, Statfs, TimeSet};

const BLOCK: u64 = BLOCK_SIZE as u64;

/// What is added to a tree in memory: a directory or a file with its permission bits and owners, a
/// symbolic link, or one more name of the file or link `ino`.
pub enum NewItem<'a> {
    Dir {
        mode: u32,
        uid: u32,
        gid: u32,
    },
    File {
        mode: u32,
        uid: u32,
        gid: u32,
        bytes: &'a [u8],
    },
    Link {
        uid: u32,
        gid: u32,
        target: &'a [u8],
    },
    Hard {
        ino: u64,
    },
}

/// A tree in memory. It faults exactly in the calls of `Host` that `fail_at` lists.
#[derive(Drop)]
pub struct TreeHost {
    alloc: Global,
    nodes: Table<Node>,
    holds: Table<u64>,
    next: u64,
    limits: Limits,
    moment: Stamp,
    born: Stamp,
    failing: FailingCalls,
    ghost good: { IsGoodTree (tree_from nodes next limits moment) } by { IsGoodTree-prop (tree_from nodes next limits moment) },
    ghost stored: { IsHeldIn (tree_from nodes next limits moment) holds },
    ghost timed: { IsGoodStamp born },
}

impl TreeHost {
    ghost use Rattle.std.specs.Prelude.{◌≡◌, ◌≢◌, ◌<◌, ◌++◌, [], IfOk, OnOk, OnErr, IsSome, true};
    ghost use Rattle.std.specs.Prelude.{None, Err};
    ghost use Rattle.port_base.specs.Failing.{first_calls};
    ghost use Rattle.port_base.specs.Names.{name_fault};
    ghost use Rattle.std.specs.FinMap as map;
    ghost use Rattle.tree_model.specs.Good.{IsGoodLimits, IsGoodStamp};
    ghost use Rattle.tree_model.specs.Making.{new_tree};
    ghost use Rattle.tree_host.specs.Calls.{scripted};
    ghost use Rattle.tree_host.specs.Host.{Leaves};
    ghost use Rattle.tree_host.specs.TreeHosts.{tree, holds, birth, calls, script, faults};
    ghost use Rattle.tree_host.specs.TreeHosts.{IsGoodItem, IsStoredItem, add_of};

    /// A tree of the top directory alone, inode 1, whose times are `born`. What is added is born
    /// then too, and what changes is stamped with `moment`.
    pub fn new(
        alloc: Global,
        limits: Limits,
        moment: Stamp,
        born: Stamp,
        mode: u32,
        uid: u32,
        gid: u32,
    ) -> Result<TreeHost, NoMemory>
        requires limits { IsGoodLimits limits }
        requires moment { IsGoodStamp moment }
        requires born { IsGoodStamp born }
        requires mode { mode < 4096 }
        ensures tree { IfOk result (λ host. tree host ≡ new_tree limits moment born mode uid gid) }
        ensures holds { IfOk result (λ host. holds host ≡ map.empty) }
        ensures born { IfOk result (λ host. birth host ≡ born) }
        ensures calls { IfOk result (λ host. calls host ≡ scripted (first_calls [])) }
    {
        let mut nodes = Table::new(alloc);
        match nodes.insert(TOP, Node::top(alloc, mode, uid, gid, born)) {
            Ok(()) => Ok(TreeHost {
                alloc,
                nodes,
                holds: Table::new(alloc),
                next: 2,
                limits,
                moment,
                born,
                failing: FailingCalls::none(alloc),
            }),
            Err(_) => Err(NoMemory),
        }
    }

    /// Adds a record with an entry in the directory `dir`, and answers its number. Its times are
    /// those that the tree is born with; the directory's times stay. ENOTDIR for what is no
    /// directory, ENOENT for a directory that no entry names, EEXIST for a name that is there,
    /// ENOSPC where the directory is full or no number or cookie is left, EFBIG for more bytes
    /// than a file may have. `Hard` adds an entry alone and answers `ino`: EPERM, after ENOTDIR,
    /// for a directory, ENOENT also for what no entry names, EMLINK, after EEXIST, for what has as
    /// many links as there may be. After an error nothing has changed. It never faults.
    pub fn add(&mut self, dir: u64, name: &[u8], item: NewItem<'_>) -> Result<u64, HostError>
        requires stored { IsSome (map.get (tree self.old).records dir) }
        requires named { name_fault name.now ≡ None }
        requires item { IsGoodItem item }
        requires there { IsStoredItem (tree self.old).records item }
        ensures leaves { Leaves (add_of (birth self.old) (tree self.old) dir name.now item.entry)
            (tree self.old) (tree self.new) result }
        ensures holds { holds self.new ≡ holds self.old }
        ensures fault { result ≢ Err HostError.Fault }
        ensures born { birth self.new ≡ birth self.old }
        ensures calls { calls self.new ≡ calls self.old }
    {
        match item {
            NewItem::Dir { mode, uid, gid } => self.add_directory(dir, name, mode, uid, gid),
            NewItem::File {
                mode,
                uid,
                gid,
                bytes,
            } => {
                let file = NewFile {
                    mode,
                    uid,
                    gid,
                    bytes,
                };
                self.add_file(dir, name, file)
            }
            NewItem::Link { uid, gid, target } => self.add_link(dir, name, uid, gid, target),
            NewItem::Hard { ino } => self.add_hard(dir, name, ino),
        }
    }

    /// Lets the calls of `Host` with these numbers fault, besides those that were listed before.
    /// Calls count from 0 on; `release` and the readers don't count. Once a number is listed it is
    /// no longer steady. Without memory nothing changes.
    pub fn fail_at(&mut self, fails: &[u64]) -> Result<(), NoMemory>
        ensures more { OnOk result
            ((script self.new).numbers ≡ (script self.old).numbers ++ fails.now) }
        ensures refused { OnErr result (script self.new ≡ script self.old) }
        ensures made { (script self.new).calls ≡ (script self.old).calls }
        ensures faults { faults self.new ≡ faults self.old }
        ensures tree { tree self.new ≡ tree self.old }
        ensures holds { holds self.new ≡ holds self.old }
        ensures born { birth self.new ≡ birth self.old }
    {
        self.failing.fail_at(fails)
    }
}

impl Host for TreeHost {
    ghost use Rattle.tree_host.specs.Calls.{scripted};

    ghost tree = { λ s. tree_from s.nodes s.next s.limits s.moment };

    ghost holds = { λ s. s.holds };

    ghost calls = { λ s. scripted s.failing };

    fn attach_path(&mut self, path: &[u8]) -> Result<u64, HostError> {
        if self.failing.count() {
            return Err(HostError::Fault);
        }
        let ino = walk(&self.nodes, path)?;
        hold(&mut self.holds, ino)?;
        Ok(ino)
    }

    fn lookup(&mut self, dir: u64, name: &[u8]) -> Result<u64, HostError> {
        if self.failing.count() {
            return Err(HostError::Fault);
        }
        let ino = find_in(&self.nodes, dir, name)?;
        hold(&mut self.holds, ino)?;
        Ok(ino)
    }

    fn hold_again(&mut self, ino: u64) -> Result<(), HostError> {
        if self.failing.count() {
            return Err(HostError::Fault);
        }
        match hold(&mut self.holds, ino) {
            Ok(()) => Ok(()),
            Err(_) => unreachable!(),
        }
    }

    fn release(&mut self, ino: u64) {
        lower(&mut self.holds, ino);
        sweep(&mut self.nodes, &self.holds, ino);
    }

    fn stat(&mut self, ino: u64) -> Result<Attr, HostError> {
        if self.failing.count() {
            return Err(HostError::Fault);
        }
        match self.nodes.get(ino) {
            Some(node) => Ok(node.attr(ino)),
            None => Err(HostError::Errno(ENOENT)),
        }
    }

    fn open_check(&mut self, ino: u64, flags: u32) -> Result<(), HostError> {
        if self.failing.count() {
            return Err(HostError::Fault);
        }
        open_check(&self.nodes, ino, flags)
    }

    fn read_at(&mut self, ino: u64, offset: u64, buf: &mut [u8]) -> Result<usize, HostError> {
        if self.failing.count() {
            return Err(HostError::Fault);
        }
        match self.nodes.get(ino) {
            Some(node) => node.read_at(offset, buf),
            None => Err(HostError::Errno(ENOENT)),
        }
    }

    fn write_at(&mut self, ino: u64, offset: u64, bytes: &[u8]) -> Result<usize, HostError> {
        self.write(ino, offset, bytes)
    }

    fn set_len(&mut self, ino: u64, len: u64) -> Result<(), HostError> {
        self.change(ino, Change::Len(len))
    }

    fn set_mode(&mut self, ino: u64, mode: u32) -> Result<(), HostError> {
        self.change(ino, Change::Mode(mode))
    }

    fn set_owner(&mut self, ino: u64, uid: Option<u32>, gid: Option<u32>) -> Result<(), HostError> {
        self.change(ino, Change::Owner(uid, gid))
    }

    fn set_times(&mut self, ino: u64, atime: TimeSet, mtime: TimeSet) -> Result<(), HostError> {
        self.change(ino, Change::Times(atime, mtime))
    }

    fn touch_ctime(&mut self, ino: u64) -> Result<(), HostError> {
        self.change(ino, Change::Ctime)
    }

    fn entry_after(&mut self, dir: u64, cookie: u64) -> Result<Option<Entry>, HostError> {
        if self.failing.count() {
            return Err(HostError::Fault);
        }
        entry_after(self.alloc, &self.nodes, dir, cookie)
    }

    fn create(&mut self, dir: u64, name: &[u8], mode: u32) -> Result<u64, HostError> {
        if self.failing.count() {
            return Err(HostError::Fault);
        }
        self.create_file(dir, name, mode)
    }

    fn mkdir(&mut self, dir: u64, name: &[u8], mode: u32) -> Result<Attr, HostError> {
        if self.failing.count() {
            return Err(HostError::Fault);
        }
        self.make_directory(dir, name, mode)
    }

    fn link(&mut self, ino: u64, dir: u64, name: &[u8]) -> Result<(), HostError> {
        if self.failing.count() {
            return Err(HostError::Fault);
        }
        self.link_name(ino, dir, name)
    }

    fn unlink(&mut self, dir: u64, name: &[u8]) -> Result<(), HostError> {
        if self.failing.count() {
            return Err(HostError::Fault);
        }
        let ino = find_file(&self.nodes, dir, name)?;
        self.remove(dir, name, ino);
        Ok(())
    }

    fn rmdir(&mut self, dir: u64, name: &[u8]) -> Result<(), HostError> {
        if self.failing.count() {
            return Err(HostError::Fault);
        }
        let ino = find_empty(&self.nodes, dir, name)?;
        self.remove(dir, name, ino);
        Ok(())
    }

    fn rename(
        &mut self,
        olddir: u64,
        oldname: &[u8],
        newdir: u64,
        newname: &[u8],
    ) -> Result<(), HostError> {
        if self.failing.count() {
            return Err(HostError::Fault);
        }
        self.rename_entry(olddir, oldname, newdir, newname)
    }

    fn readlink(&mut self, ino: u64) -> Result<Vec<u8>, HostError> {
        if self.failing.count() {
            return Err(HostError::Fault);
        }
        read_link(self.alloc, &self.nodes, ino)
    }

    fn statfs(&mut self, ino: u64) -> Result<Statfs, HostError> {
        if self.failing.count() {
            return Err(HostError::Fault);
        }
        Ok(Statfs {
            blocks: (self.limits.file + (BLOCK - 1)) / BLOCK,
            files: self.limits.entries,
        })
    }

    fn sync(&mut self, ino: u64) -> Result<(), HostError> {
        if self.failing.count() {
            return Err(HostError::Fault);
        }
        Ok(())
    }

    ghost good = { λ s. s.good };

    ghost stored = { λ s. s.stored };
}
