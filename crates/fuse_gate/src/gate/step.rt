// One frame, and its reply.
ghost use Rattle.std.specs.Prelude.{◌≡◌, OnOk, OnErr};
ghost use Rattle.fuse_wire.specs.Cuts.{IsFrame};
ghost use Rattle.fid_model.specs.Moments.{Keeps};
ghost use Rattle.frame_pump.specs.Sessions.{AppendsAnswer};
ghost use Rattle.fuse_gate.specs.Standing.{IsInStep};
ghost use Rattle.fuse_gate.specs.Steps.{LeavesPartOfFrame};
ghost use Rattle.fuse_gate.specs.Pump.{session_of};

use crate::gate::Gate;
use crate::gate::reply::write_reply;
use fid_model::Nine;
use fuse_wire::head::Head;
use fuse_wire::ids::RequestId;
use fuse_wire::opcode::is_silent;
use port_base::sink::NoMemory;

impl Gate {
    /// Answers one whole frame, and appends its reply, if it has one: the step of the machine; or,
    /// only where the server's count of faults rose, the error EIO and what a fault leaves.
    ///
    /// `NoMemory`: the reply is unchanged, the tree is as the request was carried out in part, and
    /// the gate isn't used again.
    pub fn step<N: Nine>(
        &mut self,
        nine: &mut N,
        frame: &[u8],
        reply: &mut Vec<u8>,
    ) -> Result<(), NoMemory>
        requires frame { IsFrame frame.now }
        requires stands { IsInStep self.old (N.at nine.old).state }
        ensures stands { OnOk result (IsInStep self.new (N.at nine.new).state) }
        ensures ok { OnOk result (AppendsAnswer
            (session_of self.old (N.at nine.old)) (session_of self.new (N.at nine.new))
            frame.now reply.old.items reply.new.items) }
        ensures unwritten { OnErr result (reply.new.items ≡ reply.old.items) }
        ensures part { OnErr result (LeavesPartOfFrame frame.now
            (self.old, N.at nine.old) (N.at nine.new)) }
        ensures kept { Keeps (N.at nine.old) (N.at nine.new) }
    {
        let head = Head::read(frame);
        let answer = self.serve_frame(nine, head, frame)?;
        if is_silent(head.opcode) {
            return Ok(());
        }
        if reply.reserve(answer.size()).is_err() {
            return Err(NoMemory);
        }
        write_reply(reply, RequestId(head.unique), &answer);
        Ok(())
    }
}
