//! What is added to a tree in memory before it is served.
use super::TreeHost;
use crate::node::Node;
use crate::nodes::{add_name, add_node, link_refusal, refusal};
use port_base::errno::EFBIG;
use tree_model::HostError;

// A file that is added.
#[derive(Clone, Copy)]
pub(super) struct NewFile<'a> {
    pub(super) mode: u32,
    pub(super) uid: u32,
    pub(super) gid: u32,
    pub(super) bytes: &'a [u8],
}

impl TreeHost {
    ghost use Rattle.std.specs.Prelude.{◌≡◌, ◌≢◌, ◌<◌, IfOk, IfErr, None, Err};
    ghost use Rattle.std.specs.FinMap as map;
    ghost use Rattle.port_base.specs.Names.{name_fault};
    ghost use Rattle.tree_model.specs.Tree.{body_at, is_linked};
    ghost use Rattle.tree_model.specs.Good.{IsGoodTarget};
    ghost use Rattle.tree_model.specs.Making.{add_file_of};
    ghost use Rattle.tree_model.specs.Placing.{IsNew, with_record, placed, add_directory_of};
    ghost use Rattle.tree_model.specs.Placing.{add_link_of, add_hard_of, link_refused};
    ghost use Rattle.tree_model.specs.Making.{create_refused};
    ghost use Rattle.tree_host.specs.Host.{Leaves};
    ghost use Rattle.tree_host.specs.TreeHosts.{tree, birth, new_file, KeepsRest};

    // The first refusal of a new name in a directory.
    pub(super) fn create_refusal(&self, dir: u64, name: &[u8]) -> Option<u32>
        ensures { result ≡ create_refused (tree self.now) dir name.now }
    {
        refusal(&self.nodes, dir, name, self.next, self.limits.entries)
    }

    // Adds a record with an entry for it, where nothing refuses the name.
    fn place(&mut self, dir: u64, name: &[u8], node: Node) -> Result<u64, HostError>
        requires named { name_fault name.now ≡ None }
        requires free { create_refused (tree self.old) dir name.now ≡ None }
        requires new { IsNew dir node }
        ensures ok { IfOk result (λ ino. (ino ≡ (tree self.old).next) ×
            (tree self.new ≡ with_record (tree self.old) dir name.now node)) }
        ensures err { IfErr result (λ e. (e ≡ HostError.NoMemory) ×
            (tree self.new ≡ tree self.old)) }
        ensures rest { KeepsRest self.old self.new }
    {
        let ino = self.next;
        add_node(self.alloc, &mut self.nodes, dir, name, ino, node)?;
        self.next = ino + 1;
        Ok(ino)
    }

    // Adds a record with an entry for it, or tells the first refusal of the name.
    fn add_record(&mut self, dir: u64, name: &[u8], node: Node) -> Result<u64, HostError>
        requires named { name_fault name.now ≡ None }
        requires new { IsNew dir node }
        ensures leaves { Leaves (placed (tree self.old) dir name.now node)
            (tree self.old) (tree self.new) result }
        ensures fault { result ≢ Err HostError.Fault }
        ensures rest { KeepsRest self.old self.new }
    {
        if let Some(errno) = self.create_refusal(dir, name) {
            return Err(HostError::Errno(errno));
        }
        self.place(dir, name, node)
    }

    pub(super) fn add_directory(
        &mut self,
        dir: u64,
        name: &[u8],
        mode: u32,
        uid: u32,
        gid: u32,
    ) -> Result<u64, HostError>
        requires named { name_fault name.now ≡ None }
        requires mode { mode < 4096 }
        ensures leaves { Leaves (add_directory_of (birth self.old) (tree self.old) dir name.now
            mode uid gid) (tree self.old) (tree self.new) result }
        ensures fault { result ≢ Err HostError.Fault }
        ensures rest { KeepsRest self.old self.new }
    {
        let node = Node::directory(self.alloc, mode, uid, gid, dir, self.born);
        self.add_record(dir, name, node)
    }

    pub(super) fn add_file(
        &mut self,
        dir: u64,
        name: &[u8],
        file: NewFile<'_>,
    ) -> Result<u64, HostError>
        requires named { name_fault name.now ≡ None }
        requires mode { file.mode < 4096 }
        ensures leaves { Leaves (add_file_of (birth self.old) (tree self.old) dir name.now
            (new_file file.entry.mode file.entry.uid file.entry.gid file.entry.bytes.now))
            (tree self.old) (tree self.new) result }
        ensures fault { result ≢ Err HostError.Fault }
        ensures rest { KeepsRest self.old self.new }
    {
        if let Some(errno) = self.create_refusal(dir, name) {
            return Err(HostError::Errno(errno));
        }
        let NewFile {
            mode,
            uid,
            gid,
            bytes,
        } = file;
        if bytes.len() as u64 > self.limits.file {
            return Err(HostError::Errno(EFBIG));
        }
        let node = Node::file(self.alloc, mode, uid, gid, bytes, self.born)?;
        self.place(dir, name, node)
    }

    pub(super) fn add_link(
        &mut self,
        dir: u64,
        name: &[u8],
        uid: u32,
        gid: u32,
        target: &[u8],
    ) -> Result<u64, HostError>
        requires named { name_fault name.now ≡ None }
        requires target { IsGoodTarget target.now }
        ensures leaves { Leaves (add_link_of (birth self.old) (tree self.old) dir name.now uid gid
            target.now) (tree self.old) (tree self.new) result }
        ensures fault { result ≢ Err HostError.Fault }
        ensures rest { KeepsRest self.old self.new }
    {
        let node = Node::link(self.alloc, uid, gid, target, self.born)?;
        self.add_record(dir, name, node)
    }

    // The first refusal of one more name of a record.
    pub(super) fn name_refusal(&self, dir: u64, name: &[u8], ino: u64) -> Option<u32>
        ensures { result ≡ link_refused (is_linked (tree self.now).records dir)
            (tree self.now).limits name.now (body_at (tree self.now).records dir)
            (map.get (tree self.now).records ino) }
    {
        link_refusal(&self.nodes, dir, name, ino, self.limits)
    }

    pub(super) fn add_hard(&mut self, dir: u64, name: &[u8], ino: u64) -> Result<u64, HostError>
        requires named { name_fault name.now ≡ None }
        ensures leaves { Leaves (add_hard_of (tree self.old) dir name.now ino)
            (tree self.old) (tree self.new) result }
        ensures fault { result ≢ Err HostError.Fault }
        ensures rest { KeepsRest self.old self.new }
    {
        if let Some(errno) = self.name_refusal(dir, name, ino) {
            return Err(HostError::Errno(errno));
        }
        add_name(self.alloc, &mut self.nodes, dir, name, ino)?;
        Ok(ino)
    }
}
