// OPENDIR.
ghost use Rattle.std.specs.Prelude.{IfOk, OnErr};
ghost use Rattle.fuse_wire.specs.Request.{opendir};
ghost use Rattle.fid_model.specs.Moments.{Keeps, SameTree};
ghost use Rattle.fuse_gate.specs.Standing.{IsInStep};
ghost use Rattle.fuse_gate.specs.Replies.{reply_of};
ghost use Rattle.fuse_gate.specs.Steps.{ServesRequest};

use crate::gate::Gate;
use crate::gate::reply::Reply;
use fid_model::Nine;
use port_base::errno::{ENFILE, ENOTDIR, ESTALE};
use port_base::oflag::O_RDONLY;
use port_base::sink::NoMemory;
use tree_model::attributes::QTDIR;

impl Gate {
    // Opens a node, a directory, to list it.
    pub(super) fn opendir<N: Nine>(&mut self, nine: &mut N, node: u64) -> Result<Reply, NoMemory>
        requires { IsInStep self.old (N.at nine.old).state }
        ensures served { IfOk result (λ reply. ServesRequest node (opendir 0)
            (self.old, N.at nine.old) (self.new, N.at nine.new) (reply_of reply)) }
        ensures unfinished { OnErr result (SameTree (N.at nine.old) (N.at nine.new)) }
        ensures kept { Keeps (N.at nine.old) (N.at nine.new) }
    {
        let Some(found) = self.nodes.get(node).copied() else {
            return Ok(Reply::Refused(ESTALE));
        };
        if self.is_full(nine) {
            return Ok(Reply::Refused(ENFILE));
        }
        if found.kind != QTDIR {
            return Ok(Reply::Refused(ENOTDIR));
        }
        self.open_node(nine, node as u32, found, O_RDONLY)
    }
}
