//! A gate answers frames over a server, one at a time.
ghost use Rattle.std.specs.Prelude.{◌≡◌, ◌≤◌, ℕ, IfOk, IfErr, IfSome};
ghost use Rattle.std.specs.FinMap as map;
ghost use Rattle.fuse_gate.specs.Standing.{IsInStep};
ghost use Rattle.fuse_gate.specs.Pump.{Pumps, TellsMessages, session_of};
ghost use Rattle.fuse_wire.specs.Cuts.End.{done};
ghost use Rattle.fid_model.specs.Moments.{Keeps};
ghost use Rattle.frame_pump.specs.Turns.{streams};
ghost use Rattle.fuse_gate.specs.Playing.{PlaysTo, end_of};

use crate::gate::{AttachError, Gate, LEAST_MSIZE};
use fid_model::Nine;
use frame_pump::answerer::Answerer;
use frame_pump::outcome::{BridgeError, Pumped, Stopped};
use frame_pump::run::run_frames;
use port_base::sink::{NoMemory, Sink};
use port_base::source::Source;
use std::alloc::Global;

impl<N: Nine> Answerer<N> for Gate {
    ghost session = { λ g n. session_of g (N.at n) };

    ghost stands = { λ g n. IsInStep g (N.at n).state };

    ghost Kept = { ℕ };

    ghost kept = { λ g n. (N.at n).state.msize };

    fn answer(&mut self, below: &mut N, frame: &[u8], reply: &mut Vec<u8>) -> Result<(), NoMemory> {
        self.step(below, frame, reply)
    }

    fn messages_sent(&self, below: &N) -> u64 {
        self.nine_frames()
    }
}

/// Attaches to the root of a server's share, answers the frames of the input, at most so many, and
/// takes the server's fids away, whatever the answer.
///
/// `Ok`: the input ended at a frame's end. `Attach`: as `Gate::new` refuses, with nothing read or
/// written. `NoMemory`: no part of the unfinished reply was written. `Read`, `Write`: that stream
/// failed. `Torn`: the input ends within a frame. `BadLength`: a length that no frame has.
/// `TurnsSpent`: more bytes follow after so many frames. No other cause is told.
pub fn pump<N: Nine, S: Source, K: Sink>(
    alloc: Global,
    nine: &mut N,
    input: &mut S,
    out: &mut K,
    turns: u32,
) -> Result<Pumped, Stopped>
    requires { LEAST_MSIZE ≤ (N.at nine.old).state.msize }

    // Each answer and its cause.
    ensures pumps { Pumps (N.at nine.old) (N.at nine.new)
        (streams (S.left input.old) (K.sent out.old) (S.faults input.old) (K.faults out.old))
        (streams (S.left input.new) (K.sent out.new) (S.faults input.new) (K.faults out.new))
        turns result }

    // Where no fault of the server was counted, what was written, the tree that is left and the
    // number of messages are the machine's for the frames of the cut: for a whole input, and for
    // one that stopped at the end of its cut.
    ensures played { IfOk result (λ told. PlaysTo done told.handled told.nine_frames
        (N.at nine.old) (N.at nine.new)
        (streams (S.left input.old) (K.sent out.old) (S.faults input.old) (K.faults out.old))
        (streams (S.left input.new) (K.sent out.new) (S.faults input.new) (K.faults out.new))
        turns) }
    ensures stopped { IfErr result (λ told. IfSome (end_of told.cause) (λ end.
        PlaysTo end told.handled told.nine_frames (N.at nine.old) (N.at nine.new)
        (streams (S.left input.old) (K.sent out.old) (S.faults input.old) (K.faults out.old))
        (streams (S.left input.new) (K.sent out.new) (S.faults input.new) (K.faults out.new))
        turns)) }

    ensures kept { Keeps (N.at nine.old) (N.at nine.new) }
    ensures cleared { (N.at nine.new).state.fids ≡ map.empty }
    ensures messages { TellsMessages (N.at nine.old).asked (N.at nine.new).asked result }
    ensures input { S.kept input.new ≡ S.kept input.old }
    ensures lender { S.lender input.new ≡ S.lender input.old }
    ensures output { K.kept out.new ≡ K.kept out.old }
{
    match Gate::new(alloc, nine) {
        Ok(mut gate) => {
            let told = run_frames(alloc, &mut gate, nine, input, out, turns);
            nine.clear_fids();
            told
        }
        Err(AttachError::Errno(errno)) => Err(Stopped {
            cause: BridgeError::Attach(errno),
            handled: 0,
            nine_frames: 1,
        }),
        Err(AttachError::NoMemory) => Err(Stopped {
            cause: BridgeError::NoMemory,
            handled: 0,
            nine_frames: 0,
        }),
    }
}
