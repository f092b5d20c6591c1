//! A session's node ids and handles, each a fid of the server under its own number.
ghost use Rattle.std.specs.Prelude.{◌≡◌, ◌-◌, ◌<◌, ◌≤◌, ◌^◌, IsSome, OnOk};
ghost use Rattle.std.specs.FinMap as map;
ghost use Rattle.tree_machine.specs.State.{is_at_limit};
ghost use Rattle.fuse_gate.specs.Standing.{IsInStep, machine_of};
ghost use Rattle.fuse_gate.specs.Changes.{one_sent, counted_up, counted_down, with_node};
ghost use Rattle.fuse_gate.specs.Changes.{without_node, with_handle, without_handle};

mod attach;
mod create;
pub mod desk;
mod forget;
mod getattr;
mod init;
mod link;
mod lookup;
mod mkdir;
mod open;
mod opendir;
mod query;
mod read;
mod readdir;
mod release;
mod rename;
pub mod reply;
mod serve;
mod setattr;
mod show;
mod special;
mod step;
mod unlink;
mod write;

pub use attach::AttachError;
use fid_model::Nine;
use port_base::sink::NoMemory;
use port_base::table::Table;
use std::alloc::Global;
use tree_machine::limits::NUMBER_LIMIT;

/// The least `msize` that a gate works with: a frame with the longest name or target fits.
pub const LEAST_MSIZE: u32 = 4352;

/// The greatest size of a frame that a gate asks for.
pub const GREATEST_MSIZE: u32 = 65560;

/// Where a session is: before its INIT, in it, or after its DESTROY.
#[derive(Clone, Copy, Debug, PartialEq, Eq)]
pub enum Phase {
    New,
    Started,
    Over,
}

/// What a node id names: an inode, how often a look-up gave it, and its qid's type.
#[derive(Clone, Copy, Debug, PartialEq, Eq)]
pub struct Node {
    ino: u64,
    count: u64,
    kind: u8,
}

/// What a handle names: an inode, how it is open, and its qid's type.
#[derive(Clone, Copy, Debug, PartialEq, Eq)]
pub struct Handle {
    ino: u64,
    access: u32,
    append: bool,
    kind: u8,
}

/// A gate between FUSE and a 9P server.
#[derive(Drop)]
pub struct Gate {
    alloc: Global,
    phase: Phase,
    nodes: Table<Node>,
    handles: Table<Handle>,
    // The node of each inode that one names.
    ids: Table<u64>,
    // The next number that is drawn.
    next: u32,
    // How many node ids and handles there are.
    used: u64,
    nine_frames: u64,
}

impl Gate {
    /// How many messages were sent to the server, up to 2^64 - 1.
    pub fn nine_frames(&self) -> u64
        ensures { result ≡ self.now.nine_frames }
    {
        self.nine_frames
    }

    // Whether no further number can be drawn.
    fn is_full<N: Nine>(&self, nine: &N) -> bool
        requires { IsInStep self.now (N.at nine.now).state }
        ensures full { result ≡ is_at_limit (N.at nine.now).state.settings
            (machine_of self.now (N.at nine.now).state) }
        ensures small { (N.at nine.now).state.settings.limit < 2 ^ 32 }
    {
        self.used >= nine.fid_limit() as u64 || self.next >= NUMBER_LIMIT
    }

    // One more message was sent.
    fn count_message(&mut self)
        ensures { self.new ≡ one_sent self.old }
    {
        self.nine_frames = self.nine_frames.saturating_add(1);
    }

    // A node counts one more.
    fn count_up(&mut self, id: u64)
        ensures { self.new ≡ counted_up self.old id }
    {
        if let Some(node) = self.nodes.get(id).copied() {
            self.nodes.replace(
                id,
                Node {
                    ino: node.ino,
                    count: node.count.saturating_add(1),
                    kind: node.kind,
                },
            );
        }
    }

    // The next number becomes the node of an inode.
    fn add_node(&mut self, ino: u64, kind: u8) -> Result<(), NoMemory>
        requires next { self.old.next < NUMBER_LIMIT }
        requires used { self.old.used < 2 ^ 64 - 1 }
        ensures { OnOk result (self.new ≡ with_node self.old ino kind) }
    {
        let id = self.next as u64;
        let node = Node {
            ino,
            count: 1,
            kind,
        };
        self.nodes.insert(id, node).map_err(|_| NoMemory)?;
        self.ids.insert(ino, id).map_err(|_| NoMemory)?;
        self.next += 1;
        self.used += 1;
        Ok(())
    }

    // A node counts less.
    fn count_down(&mut self, id: u64, node: Node, number: u64)
        requires known { IsSome (map.get self.old.nodes id) }
        requires more { number < node.count }
        ensures { self.new ≡ counted_down self.old id node number }
    {
        self.nodes.replace(
            id,
            Node {
                ino: node.ino,
                count: node.count - number,
                kind: node.kind,
            },
        );
    }

    // A node of an inode goes.
    fn remove_node(&mut self, id: u64, ino: u64)
        requires { 1 ≤ self.old.used }
        ensures { self.new ≡ without_node self.old id ino }
    {
        self.nodes.remove(id);
        self.ids.remove(ino);
        self.used -= 1;
    }

    // The next number becomes a handle.
    fn add_handle(&mut self, handle: Handle) -> Result<(), NoMemory>
        requires next { self.old.next < NUMBER_LIMIT }
        requires used { self.old.used < 2 ^ 64 - 1 }
        ensures { OnOk result (self.new ≡ with_handle self.old handle) }
    {
        let id = self.next as u64;
        self.handles.insert(id, handle).map_err(|_| NoMemory)?;
        self.next += 1;
        self.used += 1;
        Ok(())
    }

    // A handle goes.
    fn remove_handle(&mut self, id: u64)
        requires { 1 ≤ self.old.used }
        ensures { self.new ≡ without_handle self.old id }
    {
        self.handles.remove(id);
        self.used -= 1;
    }
}
