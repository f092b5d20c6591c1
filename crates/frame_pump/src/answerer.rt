//! What answers frames.
ghost use Rattle.std.specs.Prelude.{◌≡◌, OnOk, OnErr};
ghost use Rattle.fuse_wire.specs.Cuts.{IsFrame};
ghost use Rattle.frame_pump.specs.Sessions.{Session, AppendsAnswer, LeavesPart};

use port_base::sink::NoMemory;

/// Answers frames one at a time, over something below that it is handed at each call, as a gate
/// does over a 9P server.
pub trait Answerer<N> {
    /// What both show: the state of the machine, the settings, the bytes of a piece, and their
    /// counts.
    ghost session: { Self → N → Session };

    /// Whether both stand for a good state of the machine.
    ghost stands: { Self → N → Type 0 };

    /// What no answer changes.
    ghost Kept: { Type 0 };

    ghost kept: { Self → N → Kept };

    /// Answers one whole frame, and appends its reply, if it has one. `NoMemory`: the reply is
    /// unchanged, and no further frame may be answered.
    fn answer(&mut self, below: &mut N, frame: &[u8], reply: &mut Vec<u8>) -> Result<(), NoMemory>
        requires frame { IsFrame frame.now }
        requires stands { stands self.old below.old }
        ensures stands { OnOk result (stands self.new below.new) }
        ensures ok { OnOk result (AppendsAnswer
            (session self.old below.old) (session self.new below.new)
            frame.now reply.old.items reply.new.items) }
        ensures err { OnErr result (reply.new.items ≡ reply.old.items) }
        ensures part { OnErr result (LeavesPart
            (session self.old below.old) (session self.new below.new) frame.now) }
        ensures kept { kept self.new below.new ≡ kept self.old below.old };

    /// How many messages it sent to what stands below, up to 2^64 - 1.
    fn messages_sent(&self, below: &N) -> u64
        ensures { result ≡ (session self.now below.now).sent };
}
