//! Names that a tree in memory gets while it is served.
use super::TreeHost;
use crate::node::Node;
use crate::nodes::{NewName, create_node, link_node, make_node};
use tree_model::{Attr, HostError};

impl TreeHost {
    ghost use Rattle.std.specs.Prelude.{◌≡◌, ◌≢◌, None, IfOk, OnErr, Err};
    ghost use Rattle.port_base.specs.Names.{name_fault};
    ghost use Rattle.tree_model.specs.Creating.{create_of, mkdir_of, link_of};
    ghost use Rattle.tree_host.specs.Holds.{held_more};
    ghost use Rattle.tree_host.specs.Host.{Leaves};
    ghost use Rattle.tree_host.specs.TreeHosts.{tree, holds, KeepsCalls, KeepsRest};

    pub(super) fn create_file(&mut self, dir: u64, name: &[u8], mode: u32) -> Result<u64, HostError>
        requires { name_fault name.now ≡ None }
        ensures leaves { Leaves (create_of (tree self.old) dir name.now mode)
            (tree self.old) (tree self.new) result }
        ensures fault { result ≢ Err HostError.Fault }
        ensures held { IfOk result (λ ino. holds self.new ≡ held_more (holds self.old) ino) }
        ensures refused { OnErr result (holds self.new ≡ holds self.old) }
        ensures rest { KeepsCalls self.old self.new }
    {
        if let Some(errno) = self.create_refusal(dir, name) {
            return Err(HostError::Errno(errno));
        }
        let node = Node::empty_file(self.alloc, mode, self.moment);
        let ino = self.next;
        let new = NewName {
            dir,
            name,
            ino,
            moment: self.moment,
        };
        create_node(self.alloc, &mut self.nodes, &mut self.holds, new, node)?;
        self.next = ino + 1;
        Ok(ino)
    }

    pub(super) fn make_directory(
        &mut self,
        dir: u64,
        name: &[u8],
        mode: u32,
    ) -> Result<Attr, HostError>
        requires { name_fault name.now ≡ None }
        ensures leaves { Leaves (mkdir_of (tree self.old) dir name.now mode)
            (tree self.old) (tree self.new) result }
        ensures fault { result ≢ Err HostError.Fault }
        ensures rest { KeepsRest self.old self.new }
    {
        if let Some(errno) = self.create_refusal(dir, name) {
            return Err(HostError::Errno(errno));
        }
        let node = Node::empty_directory(self.alloc, mode, dir, self.moment);
        let ino = self.next;
        let attr = node.attr(ino);
        let new = NewName {
            dir,
            name,
            ino,
            moment: self.moment,
        };
        make_node(self.alloc, &mut self.nodes, new, node)?;
        self.next = ino + 1;
        Ok(attr)
    }

    pub(super) fn link_name(&mut self, ino: u64, dir: u64, name: &[u8]) -> Result<(), HostError>
        requires { name_fault name.now ≡ None }
        ensures leaves { Leaves (link_of (tree self.old) ino dir name.now)
            (tree self.old) (tree self.new) result }
        ensures fault { result ≢ Err HostError.Fault }
        ensures rest { KeepsRest self.old self.new }
    {
        if let Some(errno) = self.name_refusal(dir, name, ino) {
            return Err(HostError::Errno(errno));
        }
        let new = NewName {
            dir,
            name,
            ino,
            moment: self.moment,
        };
        link_node(self.alloc, &mut self.nodes, new)?;
        Ok(())
    }
}
