// RENAME and RENAME2.
ghost use Rattle.std.specs.Prelude.{IfOk, OnErr};
ghost use Rattle.fuse_wire.specs.Request.{rename, rename2};
ghost use Rattle.fid_model.specs.Moments.{Keeps};
ghost use Rattle.fuse_gate.specs.Standing.{IsInStep};
ghost use Rattle.fuse_gate.specs.Replies.{reply_of};
ghost use Rattle.fuse_gate.specs.Steps.{ServesRequest, LeavesPartOf};

use crate::gate::Gate;
use crate::gate::reply::Reply;
use fid_model::Nine;
use p9_client::rename_at;
use port_base::errno::{EINVAL, ESTALE};
use port_base::names::name_fault;
use port_base::sink::NoMemory;

impl Gate {
    // Moves a name of a node, a directory, to a name of another.
    pub(super) fn rename<N: Nine>(
        &mut self,
        nine: &mut N,
        node: u64,
        newdir: u64,
        old: &[u8],
        new: &[u8],
    ) -> Result<Reply, NoMemory>
        requires { IsInStep self.old (N.at nine.old).state }
        ensures served { IfOk result (λ reply. ServesRequest node (rename newdir old.now new.now)
            (self.old, N.at nine.old) (self.new, N.at nine.new) (reply_of reply)) }
        ensures unfinished { OnErr result (LeavesPartOf node (rename newdir old.now new.now)
            (self.old, N.at nine.old) (N.at nine.new)) }
        ensures kept { Keeps (N.at nine.old) (N.at nine.new) }
    {
        if !self.nodes.contains_key(node) {
            return Ok(Reply::Refused(ESTALE));
        }
        if !self.nodes.contains_key(newdir) {
            return Ok(Reply::Refused(ESTALE));
        }
        if let Some(errno) = name_fault(old) {
            return Ok(Reply::Refused(errno));
        }
        if let Some(errno) = name_fault(new) {
            return Ok(Reply::Refused(errno));
        }
        let told = rename_at(self.alloc, nine, node as u32, old, newdir as u32, new)?;
        self.count_message();
        match told {
            Ok(()) => Ok(Reply::Done),
            Err(errno) => Ok(Reply::Refused(errno)),
        }
    }

    // The same, where there are no flags; none are taken.
    pub(super) fn rename2<N: Nine>(
        &mut self,
        nine: &mut N,
        node: u64,
        newdir: u64,
        flags: u32,
        old: &[u8],
        new: &[u8],
    ) -> Result<Reply, NoMemory>
        requires { IsInStep self.old (N.at nine.old).state }
        ensures served { IfOk result (λ reply. ServesRequest node
            (rename2 newdir flags old.now new.now)
            (self.old, N.at nine.old) (self.new, N.at nine.new) (reply_of reply)) }
        ensures unfinished { OnErr result (LeavesPartOf node (rename2 newdir flags old.now new.now)
            (self.old, N.at nine.old) (N.at nine.new)) }
        ensures kept { Keeps (N.at nine.old) (N.at nine.new) }
    {
        if flags != 0 {
            return Ok(Reply::Refused(EINVAL));
        }
        self.rename(nine, node, newdir, old, new)
    }
}
