//! The loop over the frames of a source.
ghost use Rattle.std.specs.Prelude.{◌≡◌};
ghost use Rattle.frame_pump.specs.Turns.{Sends, Turn, Loops, Runs, streams};

use crate::answerer::Answerer;
use crate::outcome::{BridgeError, Halt, Pumped, Stopped};
use fuse_wire::frames::{Next, next_frame};
use port_base::sink::{Sink, SinkFault, write_all};
use port_base::source::{Source, read_full};
use std::alloc::Global;

// Sends a whole reply, or a front of it. Its room is reserved first, so that no part of it is sent
// where there is no memory.
fn send_reply<K: Sink>(out: &mut K, reply: &[u8]) -> Result<(), SinkFault>
    ensures sends { Sends
        (K.sent out.old) (K.sent out.new) (K.faults out.old) (K.faults out.new) reply.now result }
    ensures kept { K.kept out.new ≡ K.kept out.old }
{
    if out.reserve(reply.len()).is_err() {
        return Err(SinkFault::NoMemory);
    }
    match write_all(out, reply) {
        Ok(()) => Ok(()),
        Err(fault) => match fault {
            SinkFault::Failed => Err(SinkFault::Failed),
            SinkFault::NoMemory => unreachable!(),
        },
    }
}

// Takes one frame, answers it and sends the reply; false at the end of the input. The buffers are
// used again from turn to turn.
fn turn<A: Answerer<N>, N, S: Source, K: Sink>(
    answerer: &mut A,
    below: &mut N,
    input: &mut S,
    out: &mut K,
    frame: &mut Vec<u8>,
    reply: &mut Vec<u8>,
) -> Result<bool, BridgeError>
    requires { A.stands answerer.old below.old }
    ensures turn { Turn
        (A.session answerer.old below.old) (A.session answerer.new below.new)
        (A.stands answerer.new below.new)
        (streams (S.left input.old) (K.sent out.old) (S.faults input.old) (K.faults out.old))
        (streams (S.left input.new) (K.sent out.new) (S.faults input.new) (K.faults out.new))
        result }
    ensures kept { A.kept answerer.new below.new ≡ A.kept answerer.old below.old }
    ensures input { S.kept input.new ≡ S.kept input.old }
    ensures lender { S.lender input.new ≡ S.lender input.old }
    ensures output { K.kept out.new ≡ K.kept out.old }
{
    match next_frame(input, frame)? {
        Next::Frame => {}
        Next::AtEnd => return Ok(false),
        Next::Part => return Err(BridgeError::Torn),
        Next::OddLength => return Err(BridgeError::BadLength),
    }
    reply.clear();
    answerer.answer(below, frame, reply)?;
    send_reply(out, reply)?;
    Ok(true)
}

// Answers the frames of the input, at most so many, and returns how many there were.
fn handle_frames<A: Answerer<N>, N, S: Source, K: Sink>(
    alloc: Global,
    answerer: &mut A,
    below: &mut N,
    input: &mut S,
    out: &mut K,
    turns: u32,
) -> Result<u32, Halt>
    requires { A.stands answerer.old below.old }
    ensures loops { Loops
        (A.session answerer.old below.old) (A.session answerer.new below.new)
        (A.stands answerer.new below.new)
        (streams (S.left input.old) (K.sent out.old) (S.faults input.old) (K.faults out.old))
        (streams (S.left input.new) (K.sent out.new) (S.faults input.new) (K.faults out.new))
        turns result }
    ensures kept { A.kept answerer.new below.new ≡ A.kept answerer.old below.old }
    ensures input { S.kept input.new ≡ S.kept input.old }
    ensures lender { S.lender input.new ≡ S.lender input.old }
    ensures output { K.kept out.new ≡ K.kept out.old }
{
    let mut frame = Vec::new(alloc);
    let mut reply = Vec::new(alloc);
    for handled in 0..turns {
        match turn(answerer, below, input, out, &mut frame, &mut reply) {
            Ok(true) => {}
            Ok(false) => return Ok(handled),
            Err(cause) => return Err(Halt { cause, handled }),
        }
    }
    let mut next = [0; 1];
    match read_full(input, &mut next) {
        Ok(n) => {
            if n == 0 {
                Ok(turns)
            } else {
                Err(Halt {
                    cause: BridgeError::TurnsSpent,
                    handled: turns,
                })
            }
        }
        Err(_) => Err(Halt {
            cause: BridgeError::Read,
            handled: turns,
        }),
    }
}

/// Answers the frames of the input, at most so many, one after another: each reply is sent in
/// whole before the next frame is taken. `Ok`: the input ended at a frame's end. `NoMemory`: the
/// unfinished reply wasn't sent, and no further frame may be answered. `Read`, `Write`: that
/// stream failed. `Torn`: the input ends within a frame. `BadLength`: a length that no frame has.
/// `TurnsSpent`: more bytes follow after so many frames.
pub fn run_frames<A: Answerer<N>, N, S: Source, K: Sink>(
    alloc: Global,
    answerer: &mut A,
    below: &mut N,
    input: &mut S,
    out: &mut K,
    turns: u32,
) -> Result<Pumped, Stopped>
    requires { A.stands answerer.old below.old }
    ensures runs { Runs
        (A.session answerer.old below.old) (A.session answerer.new below.new)
        (A.stands answerer.new below.new)
        (streams (S.left input.old) (K.sent out.old) (S.faults input.old) (K.faults out.old))
        (streams (S.left input.new) (K.sent out.new) (S.faults input.new) (K.faults out.new))
        turns result }
    ensures kept { A.kept answerer.new below.new ≡ A.kept answerer.old below.old }
    ensures input { S.kept input.new ≡ S.kept input.old }
    ensures lender { S.lender input.new ≡ S.lender input.old }
    ensures output { K.kept out.new ≡ K.kept out.old }
{
    let handled = handle_frames(alloc, answerer, below, input, out, turns);
    let nine_frames = answerer.messages_sent(below);
    match handled {
        Ok(handled) => Ok(Pumped {
            handled,
            nine_frames,
        }),
        Err(halt) => Err(Stopped {
            cause: halt.cause,
            handled: halt.handled,
            nine_frames,
        }),
    }
}
