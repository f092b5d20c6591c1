// FLUSH, RELEASE and RELEASEDIR.
ghost use Rattle.std.specs.Prelude.{◌≡◌, IfOk, OnErr};
ghost use Rattle.fuse_wire.specs.Request.{flush, release};
ghost use Rattle.fid_model.specs.Fids.{IsGoodServer};
ghost use Rattle.fid_model.specs.Moments.{Moment, Keeps};
ghost use Rattle.fuse_gate.specs.Standing.{IsInStep};
ghost use Rattle.fuse_gate.specs.Replies.{reply_of};
ghost use Rattle.fuse_gate.specs.Steps.{ServesRequest, LeavesPartOf};

use crate::gate::Gate;
use crate::gate::reply::Reply;
use fid_model::Nine;
use p9_client::clunk;
use port_base::errno::EBADF;
use port_base::sink::NoMemory;

impl Gate {
    // Whether a handle is there.
    pub(super) fn flush(&mut self, handle: u64) -> Reply
        ensures same { self.new ≡ self.old }
        ensures served { (n : Moment) → IsInStep self.old n.state → IsGoodServer n.state →
            ServesRequest 0 (flush handle) (self.old, n) (self.new, n) (reply_of result) }
    {
        if self.handles.contains_key(handle) {
            Reply::Done
        } else {
            Reply::Refused(EBADF)
        }
    }

    // Ends a handle, of whatever kind.
    pub(super) fn release<N: Nine>(&mut self, nine: &mut N, handle: u64) -> Result<Reply, NoMemory>
        requires { IsInStep self.old (N.at nine.old).state }
        ensures served { IfOk result (λ reply. ServesRequest 0 (release handle)
            (self.old, N.at nine.old) (self.new, N.at nine.new) (reply_of reply)) }
        ensures unfinished { OnErr result (LeavesPartOf 0 (release handle)
            (self.old, N.at nine.old) (N.at nine.new)) }
        ensures kept { Keeps (N.at nine.old) (N.at nine.new) }
    {
        if !self.handles.contains_key(handle) {
            return Ok(Reply::Refused(EBADF));
        }
        clunk(self.alloc, nine, handle as u32)?;
        self.count_message();
        self.remove_handle(handle);
        Ok(Reply::Done)
    }
}
