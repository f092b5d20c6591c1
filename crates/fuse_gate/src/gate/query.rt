// STATFS, READLINK, FSYNC and FSYNCDIR.
ghost use Rattle.std.specs.Prelude.{◌≡◌, IfOk, OnErr};
ghost use Rattle.fuse_wire.specs.Request.{statfs, readlink, fsync};
ghost use Rattle.tree_machine.specs.Core.{bytes_reply};
ghost use Rattle.fid_model.specs.Moments.{Keeps, SameTree};
ghost use Rattle.fuse_gate.specs.Standing.{IsInStep};
ghost use Rattle.fuse_gate.specs.Replies.{reply_of};
ghost use Rattle.fuse_gate.specs.Steps.{ServesRequest};

use crate::gate::Gate;
use crate::gate::reply::Reply;
use fid_model::Nine;
use p9_client::{fsync, read_link, stat_fs};
use p9_wire::text::P9String;
use port_base::errno::{EBADF, ESTALE};
use port_base::sink::NoMemory;
use std::alloc::Global;

// The reply that tells a target, or the refusal.
fn target_reply(alloc: Global, told: Result<P9String, u32>) -> Result<Reply, NoMemory>
    ensures { IfOk result (λ reply. reply_of reply ≡ bytes_reply told) }
{
    match told {
        Ok(target) => match Vec::from_slice(alloc, target.as_bytes()) {
            Ok(bytes) => Ok(Reply::Bytes(bytes)),
            Err(_) => Err(NoMemory),
        },
        Err(errno) => Ok(Reply::Refused(errno)),
    }
}

impl Gate {
    // How much the tree of a node may have.
    pub(super) fn statfs<N: Nine>(&mut self, nine: &mut N, node: u64) -> Result<Reply, NoMemory>
        requires { IsInStep self.old (N.at nine.old).state }
        ensures served { IfOk result (λ reply. ServesRequest node (statfs)
            (self.old, N.at nine.old) (self.new, N.at nine.new) (reply_of reply)) }
        ensures unfinished { OnErr result (SameTree (N.at nine.old) (N.at nine.new)) }
        ensures kept { Keeps (N.at nine.old) (N.at nine.new) }
    {
        if !self.nodes.contains_key(node) {
            return Ok(Reply::Refused(ESTALE));
        }
        let told = stat_fs(self.alloc, nine, node as u32)?;
        self.count_message();
        match told {
            Ok(sizes) => Ok(Reply::Sizes {
                blocks: sizes.blocks,
                files: sizes.files,
            }),
            Err(errno) => Ok(Reply::Refused(errno)),
        }
    }

    // The target of a node, a symbolic link.
    pub(super) fn readlink<N: Nine>(&mut self, nine: &mut N, node: u64) -> Result<Reply, NoMemory>
        requires { IsInStep self.old (N.at nine.old).state }
        ensures served { IfOk result (λ reply. ServesRequest node (readlink)
            (self.old, N.at nine.old) (self.new, N.at nine.new) (reply_of reply)) }
        ensures unfinished { OnErr result (SameTree (N.at nine.old) (N.at nine.new)) }
        ensures kept { Keeps (N.at nine.old) (N.at nine.new) }
    {
        if !self.nodes.contains_key(node) {
            return Ok(Reply::Refused(ESTALE));
        }
        let told = read_link(self.alloc, nine, node as u32)?;
        self.count_message();
        target_reply(self.alloc, told)
    }

    // Keeps what was written by a handle, of whatever kind.
    pub(super) fn fsync<N: Nine>(&mut self, nine: &mut N, handle: u64) -> Result<Reply, NoMemory>
        requires { IsInStep self.old (N.at nine.old).state }
        ensures served { IfOk result (λ reply. ServesRequest 0 (fsync handle 0)
            (self.old, N.at nine.old) (self.new, N.at nine.new) (reply_of reply)) }
        ensures unfinished { OnErr result (SameTree (N.at nine.old) (N.at nine.new)) }
        ensures kept { Keeps (N.at nine.old) (N.at nine.new) }
    {
        if !self.handles.contains_key(handle) {
            return Ok(Reply::Refused(EBADF));
        }
        let told = fsync(self.alloc, nine, handle as u32)?;
        self.count_message();
        match told {
            Ok(()) => Ok(Reply::Done),
            Err(errno) => Ok(Reply::Refused(errno)),
        }
    }
}
