// INIT and DESTROY.
ghost use Rattle.fuse_wire.specs.Request.{init, destroy};
ghost use Rattle.fid_model.specs.Fids.{IsGoodServer};
ghost use Rattle.fid_model.specs.Moments.{Moment};
ghost use Rattle.fuse_gate.specs.Standing.{IsInStep};
ghost use Rattle.fuse_gate.specs.Replies.{reply_of};
ghost use Rattle.fuse_gate.specs.Steps.{ServesRequest};

use crate::gate::reply::Reply;
use crate::gate::{Gate, Phase};
use fuse_wire::protocol::{FUSE_KERNEL_MINOR_VERSION, FUSE_KERNEL_VERSION, FUSE_LEAST_MINOR};
use port_base::errno::EPROTO;

impl Gate {
    // Begins the session, with the lesser minor number.
    pub(super) fn init(&mut self, major: u32, minor: u32, max_readahead: u32) -> Reply
        ensures { (n : Moment) → IsInStep self.old n.state → IsGoodServer n.state →
            ServesRequest 0 (init major minor max_readahead 0)
            (self.old, n) (self.new, n) (reply_of result) }
    {
        if major != FUSE_KERNEL_VERSION || minor < FUSE_LEAST_MINOR {
            return Reply::Refused(EPROTO);
        }
        self.phase = Phase::Started;
        Reply::Granted {
            minor: minor.min(FUSE_KERNEL_MINOR_VERSION),
            max_readahead,
        }
    }

    // Ends the session. Node ids and handles stay.
    pub(super) fn destroy(&mut self) -> Reply
        ensures { (n : Moment) → IsInStep self.old n.state → IsGoodServer n.state →
            ServesRequest 0 destroy (self.old, n) (self.new, n) (reply_of result) }
    {
        self.phase = Phase::Over;
        Reply::Done
    }
}
