// UNLINK and RMDIR.
ghost use Rattle.std.specs.Prelude.{IfOk, OnErr};
ghost use Rattle.fuse_wire.specs.Request.{unlink, rmdir};
ghost use Rattle.fid_model.specs.Moments.{Keeps};
ghost use Rattle.fuse_gate.specs.Standing.{IsInStep};
ghost use Rattle.fuse_gate.specs.Replies.{reply_of};
ghost use Rattle.fuse_gate.specs.Steps.{ServesRequest, LeavesPartOf};

use crate::gate::Gate;
use crate::gate::reply::Reply;
use fid_model::Nine;
use fid_model::unlinkat::P9_AT_REMOVEDIR;
use p9_client::unlink_at;
use port_base::errno::ESTALE;
use port_base::names::name_fault;
use port_base::sink::NoMemory;

impl Gate {
    // Takes the name of a file or of a link out of a node, a directory.
    pub(super) fn unlink<N: Nine>(
        &mut self,
        nine: &mut N,
        node: u64,
        name: &[u8],
    ) -> Result<Reply, NoMemory>
        requires { IsInStep self.old (N.at nine.old).state }
        ensures served { IfOk result (λ reply. ServesRequest node (unlink name.now)
            (self.old, N.at nine.old) (self.new, N.at nine.new) (reply_of reply)) }
        ensures unfinished { OnErr result (LeavesPartOf node (unlink name.now)
            (self.old, N.at nine.old) (N.at nine.new)) }
        ensures kept { Keeps (N.at nine.old) (N.at nine.new) }
    {
        if !self.nodes.contains_key(node) {
            return Ok(Reply::Refused(ESTALE));
        }
        if let Some(errno) = name_fault(name) {
            return Ok(Reply::Refused(errno));
        }
        let told = unlink_at(self.alloc, nine, node as u32, name, 0)?;
        self.count_message();
        match told {
            Ok(()) => Ok(Reply::Done),
            Err(errno) => Ok(Reply::Refused(errno)),
        }
    }

    // Takes the name of an empty directory out of a node, a directory.
    pub(super) fn rmdir<N: Nine>(
        &mut self,
        nine: &mut N,
        node: u64,
        name: &[u8],
    ) -> Result<Reply, NoMemory>
        requires { IsInStep self.old (N.at nine.old).state }
        ensures served { IfOk result (λ reply. ServesRequest node (rmdir name.now)
            (self.old, N.at nine.old) (self.new, N.at nine.new) (reply_of reply)) }
        ensures unfinished { OnErr result (LeavesPartOf node (rmdir name.now)
            (self.old, N.at nine.old) (N.at nine.new)) }
        ensures kept { Keeps (N.at nine.old) (N.at nine.new) }
    {
        if !self.nodes.contains_key(node) {
            return Ok(Reply::Refused(ESTALE));
        }
        if let Some(errno) = name_fault(name) {
            return Ok(Reply::Refused(errno));
        }
        let told = unlink_at(self.alloc, nine, node as u32, name, P9_AT_REMOVEDIR)?;
        self.count_message();
        match told {
            Ok(()) => Ok(Reply::Done),
            Err(errno) => Ok(Reply::Refused(errno)),
        }
    }
}
