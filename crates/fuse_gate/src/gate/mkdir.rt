// MKDIR.
ghost use Rattle.std.specs.Prelude.{IfOk, OnErr};
ghost use Rattle.fuse_wire.specs.Request.{mkdir};
ghost use Rattle.fid_model.specs.Moments.{Keeps};
ghost use Rattle.fuse_gate.specs.Standing.{IsInStep};
ghost use Rattle.fuse_gate.specs.Replies.{reply_of};
ghost use Rattle.fuse_gate.specs.Steps.{ServesRequest, LeavesPartOf};

use crate::gate::Gate;
use crate::gate::reply::{Reply, entry_reply};
use fid_model::Nine;
use p9_client::mkdir;
use port_base::errno::{ENFILE, ESTALE};
use port_base::names::name_fault;
use port_base::sink::NoMemory;

impl Gate {
    // Makes a directory in a node, a directory, and looks it up.
    pub(super) fn mkdir<N: Nine>(
        &mut self,
        nine: &mut N,
        node: u64,
        mode: u32,
        name: &[u8],
    ) -> Result<Reply, NoMemory>
        requires { IsInStep self.old (N.at nine.old).state }
        ensures served { IfOk result (λ reply. ServesRequest node (mkdir mode name.now)
            (self.old, N.at nine.old) (self.new, N.at nine.new) (reply_of reply)) }
        ensures unfinished { OnErr result (LeavesPartOf node (mkdir mode name.now)
            (self.old, N.at nine.old) (N.at nine.new)) }
        ensures kept { Keeps (N.at nine.old) (N.at nine.new) }
    {
        if !self.nodes.contains_key(node) {
            return Ok(Reply::Refused(ESTALE));
        }
        if let Some(errno) = name_fault(name) {
            return Ok(Reply::Refused(errno));
        }
        if self.is_full(nine) {
            return Ok(Reply::Refused(ENFILE));
        }
        let told = mkdir(self.alloc, nine, node as u32, name, mode)?;
        self.count_message();
        match told {
            Ok(_) => entry_reply(self.lookup(nine, node, name)),
            Err(errno) => Ok(Reply::Refused(errno)),
        }
    }
}
