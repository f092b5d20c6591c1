// LINK.
ghost use Rattle.std.specs.Prelude.{◌≡◌, IfOk, OnErr};
ghost use Rattle.fuse_wire.specs.Request.{link};
ghost use Rattle.fid_model.specs.Moments.{Keeps, SameTree};
ghost use Rattle.fuse_gate.specs.Standing.{IsInStep};
ghost use Rattle.fuse_gate.specs.Replies.{reply_of};
ghost use Rattle.fuse_gate.specs.Steps.{ServesRequest, LeavesPartOf};
ghost use Rattle.fuse_gate.specs.Linking.{MayEnterAgain, ServesAgain};

use crate::gate::Gate;
use crate::gate::reply::Reply;
use fid_model::Nine;
use p9_client::link;
use port_base::errno::{ENFILE, ESTALE};
use port_base::names::name_fault;
use port_base::sink::NoMemory;

impl Gate {
    // The entry of a node, which counts one more.
    fn enter_again<N: Nine>(&mut self, nine: &mut N, id: u64) -> Result<Reply, NoMemory>
        requires { MayEnterAgain self.old (N.at nine.old).state id }
        ensures served { IfOk result (λ reply. ServesAgain id
            (self.old, N.at nine.old) (self.new, N.at nine.new) (reply_of reply)) }
        ensures unfinished { OnErr result (SameTree (N.at nine.old) (N.at nine.new)) }
        ensures kept { Keeps (N.at nine.old) (N.at nine.new) }
    {
        match self.show(nine, id as u32)? {
            Ok(attr) => {
                self.count_up(id);
                Ok(Reply::Entry { node: id, attr })
            }
            Err(errno) => Ok(Reply::Refused(errno)),
        }
    }

    // Gives the file of a node one more name, in another node, a directory.
    pub(super) fn link<N: Nine>(
        &mut self,
        nine: &mut N,
        node: u64,
        old: u64,
        name: &[u8],
    ) -> Result<Reply, NoMemory>
        requires { IsInStep self.old (N.at nine.old).state }
        ensures served { IfOk result (λ reply. ServesRequest node (link old name.now)
            (self.old, N.at nine.old) (self.new, N.at nine.new) (reply_of reply)) }
        ensures unfinished { OnErr result (LeavesPartOf node (link old name.now)
            (self.old, N.at nine.old) (N.at nine.new)) }
        ensures kept { Keeps (N.at nine.old) (N.at nine.new) }
    {
        if !self.nodes.contains_key(old) {
            return Ok(Reply::Refused(ESTALE));
        }
        if !self.nodes.contains_key(node) {
            return Ok(Reply::Refused(ESTALE));
        }
        if let Some(errno) = name_fault(name) {
            return Ok(Reply::Refused(errno));
        }
        if self.is_full(nine) {
            return Ok(Reply::Refused(ENFILE));
        }
        let told = link(self.alloc, nine, node as u32, old as u32, name)?;
        self.count_message();
        match told {
            Ok(_) => self.enter_again(nine, old),
            Err(errno) => Ok(Reply::Refused(errno)),
        }
    }
}
