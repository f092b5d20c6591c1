ghost use Rattle.std.specs.Prelude.{◌≡◌, ◌++◌, false, [], OnOk, OnErr};
ghost use Rattle.port_base.specs.declared.errno.TheConstants.{EIO};
ghost use Rattle.fuse_wire.specs.Cuts.{IsFrame};
ghost use Rattle.tree_machine.specs.Replies.{answer_bytes};
ghost use Rattle.tree_machine.specs.Replies.Reply.{Refused};
ghost use Rattle.std.specs.FinMap as map;
ghost use Rattle.tree_machine.specs.State.{begun};

use crate::answerer::Answerer;
use crate::outcome::{BridgeError, Pumped, Stopped};
use crate::run::run_frames;
use fuse_wire::head::Head;
use fuse_wire::ids::{Errno, RequestId};
use fuse_wire::opcode::is_silent;
use fuse_wire::reply::{OUT_HEADER_SIZE, reply_error};
use port_base::errno::EIO;
use port_base::memory::{MemSink, SliceSource};
use port_base::sink::NoMemory;
use std::test::Fail;

// Answers each frame as a gate does over a server that fails at each message.
#[derive(Drop)]
struct Failing {
    failed: u64,
}

// Appends the error EIO, where the request gets a reply.
fn reply_failed(frame: &[u8], reply: &mut Vec<u8>) -> Result<(), NoMemory>
    requires { IsFrame frame.now }
    ensures ok { OnOk result
        (reply.new.items ≡ reply.old.items ++ answer_bytes frame.now (Refused EIO)) }
    ensures err { OnErr result (reply.new.items ≡ reply.old.items) }
{
    let head = Head::read(frame);
    if is_silent(head.opcode) {
        return Ok(());
    }
    reply.reserve(OUT_HEADER_SIZE).map_err(|_| NoMemory)?;
    reply_error(reply, RequestId(head.unique), Errno(EIO));
    Ok(())
}

impl Answerer<()> for Failing {
    ghost session = { λ f below. record {
      state =
          begun
          (record {
            records = map.empty;
            next = 2;
            limits =
                record { file = 0; entries = 0; links = 1 };
            moment = record { sec = 0; nsec = 0 };
          }) 1;
      settings = record {
        root = [];
        uid_map = map.empty;
        gid_map = map.empty;
        casefold =
            false;
        limit = 1;
      };
      piece = 1;
      faults = f.failed;
      steady = false;
      sent = f.failed;
      asked = f.failed;
    } };

    ghost stands = { λ f below. Unit {0} };

    ghost Kept = { Unit {0} };

    ghost kept = { λ f below. tt };

    fn answer(
        &mut self,
        below: &mut (),
        frame: &[u8],
        reply: &mut Vec<u8>,
    ) -> Result<(), NoMemory> {
        reply_failed(frame, reply)?;
        self.failed = self.failed.saturating_add(1);
        Ok(())
    }

    fn messages_sent(&self, below: &()) -> u64 {
        self.failed
    }
}

// GETATTR of request 7, an empty LOOKUP of request 8, and a length that no frame has.
const INPUT: [u8; 85] = [
    40, 0, 0, 0, 3, 0, 0, 0, 7, 0, 0, 0, 0, 0, 0, 0, 1, 0, 0, 0, 0, 0, 0, 0, 0, 0, 0, 0, 0, 0, 0,
    0, 0, 0, 0, 0, 0, 0, 0, 0, 41, 0, 0, 0, 1, 0, 0, 0, 8, 0, 0, 0, 0, 0, 0, 0, 1, 0, 0, 0, 0, 0,
    0, 0, 0, 0, 0, 0, 0, 0, 0, 0, 0, 0, 0, 0, 0, 0, 0, 0, 0, 39, 0, 0, 0,
];

// The errors of both requests.
const REPLIES: [u8; 32] = [
    16, 0, 0, 0, 0xfb, 0xff, 0xff, 0xff, 7, 0, 0, 0, 0, 0, 0, 0, 16, 0, 0, 0, 0xfb, 0xff, 0xff,
    0xff, 8, 0, 0, 0, 0, 0, 0, 0,
];

#[test]
fn each_end_of_the_input(rt: HostRuntime) -> Result<(), Fail> {
    // How many bytes of the input are there, and how many turns; how many frames are answered, and
    // the cause.
    let cases = [
        (0, 0, 0, None),
        (81, 2, 2, None),
        (81, 9, 2, None),
        (85, 9, 2, Some(BridgeError::BadLength)),
        (84, 9, 2, Some(BridgeError::Torn)),
        (80, 9, 1, Some(BridgeError::Torn)),
        (43, 9, 1, Some(BridgeError::Torn)),
        (40, 0, 0, Some(BridgeError::TurnsSpent)),
        (81, 1, 1, Some(BridgeError::TurnsSpent)),
    ];
    for (size, turns, handled, end) in cases {
        let mut answerer = Failing { failed: 0 };
        let mut input = SliceSource::new(&INPUT[..size]);
        let mut out = MemSink::new(rt.alloc());
        let told = run_frames(
            rt.alloc(),
            &mut answerer,
            &mut (),
            &mut input,
            &mut out,
            turns,
        );
        let nine_frames = u64::from(handled);
        let want = match end {
            None => Ok(Pumped {
                handled,
                nine_frames,
            }),
            Some(cause) => Err(Stopped {
                cause,
                handled,
                nine_frames,
            }),
        };
        assert_eq!(rt; told, want);
        assert_eq!(rt; out.as_bytes(), &REPLIES[..16 * handled as usize]);
    }
    Ok(())
}

#[test]
fn causes_are_printed(rt: HostRuntime) -> Result<(), Fail> {
    let spent = BridgeError::TurnsSpent.to_string(rt.alloc())?;
    assert_eq!(rt; spent.as_str(), "the input has more frames than turns");
    let refused = BridgeError::Attach(20).to_string(rt.alloc())?;
    assert_eq!(rt; refused.as_str(), "the share's root was refused, errno 20");
    Ok(())
}
