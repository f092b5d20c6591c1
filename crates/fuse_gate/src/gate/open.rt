// OPEN.
ghost use Rattle.std.specs.Prelude.{◌≡◌, IfOk, OnErr};
ghost use Rattle.fuse_wire.specs.Request.{open_file};
ghost use Rattle.fid_model.specs.Moments.{Keeps};
ghost use Rattle.fuse_gate.specs.Standing.{IsInStep};
ghost use Rattle.fuse_gate.specs.Replies.{reply_of};
ghost use Rattle.fuse_gate.specs.Steps.{ServesRequest, LeavesPartOf};
ghost use Rattle.fuse_gate.specs.Changes.{MayOpen, ServesOpening, LeavesOpening, handle_by};

use crate::gate::reply::Reply;
use crate::gate::{Gate, Handle, Node};
use fid_model::Nine;
use p9_client::{clunk, copy_fid, open_truncated};
use port_base::errno::{EISDIR, ENFILE, ESTALE};
use port_base::oflag::{O_APPEND, access_mode, has_flag};
use port_base::sink::NoMemory;
use tree_model::attributes::QTDIR;

// The handle of a node that is opened by these flags.
fn handle_by(node: Node, flags: u32) -> Handle
    ensures { result ≡ handle_by node flags }
{
    Handle {
        ino: node.ino,
        access: access_mode(flags),
        append: has_flag(flags, O_APPEND),
        kind: node.kind,
    }
}

impl Gate {
    // Opens a copy of a node's fid under the next number, which becomes a handle, or goes again.
    // The flags may have `O_TRUNC` among them, which empties the file.
    pub(super) fn open_node<N: Nine>(
        &mut self,
        nine: &mut N,
        id: u32,
        node: Node,
        flags: u32,
    ) -> Result<Reply, NoMemory>
        requires { MayOpen self.old (N.at nine.old).state id node flags }
        ensures served { IfOk result (λ reply. ServesOpening node flags
            (self.old, N.at nine.old) (self.new, N.at nine.new) (reply_of reply)) }
        ensures unfinished { OnErr result (LeavesOpening node flags
            (self.old, N.at nine.old) (N.at nine.new).state.tree) }
        ensures kept { Keeps (N.at nine.old) (N.at nine.new) }
    {
        let fresh = self.next;
        let copied = copy_fid(self.alloc, nine, id, fresh)?;
        self.count_message();
        if let Err(errno) = copied {
            return Ok(Reply::Refused(errno));
        }
        let opened = open_truncated(self.alloc, nine, fresh, flags)?;
        self.count_message();
        match opened {
            Ok(_) => {
                self.add_handle(handle_by(node, flags))?;
                Ok(Reply::Opened {
                    handle: fresh as u64,
                })
            }
            Err(errno) => {
                clunk(self.alloc, nine, fresh)?;
                self.count_message();
                Ok(Reply::Refused(errno))
            }
        }
    }

    // Opens a node that is no directory.
    pub(super) fn open<N: Nine>(
        &mut self,
        nine: &mut N,
        node: u64,
        flags: u32,
    ) -> Result<Reply, NoMemory>
        requires { IsInStep self.old (N.at nine.old).state }
        ensures served { IfOk result (λ reply. ServesRequest node (open_file flags)
            (self.old, N.at nine.old) (self.new, N.at nine.new) (reply_of reply)) }
        ensures unfinished { OnErr result (LeavesPartOf node (open_file flags)
            (self.old, N.at nine.old) (N.at nine.new)) }
        ensures kept { Keeps (N.at nine.old) (N.at nine.new) }
    {
        let Some(found) = self.nodes.get(node).copied() else {
            return Ok(Reply::Refused(ESTALE));
        };
        if self.is_full(nine) {
            return Ok(Reply::Refused(ENFILE));
        }
        if found.kind == QTDIR {
            return Ok(Reply::Refused(EISDIR));
        }
        self.open_node(nine, node as u32, found, flags)
    }
}
