// One message and its reply.
ghost use Rattle.std.specs.Prelude.{◌≡◌, ◌+◌, ◌<◌, ◌^◌, ℕ, length, IfOk, OnErr};
ghost use Rattle.p9_tmsg.specs.Messages.{Message, message_of, MessageSpells, message_spelling};
ghost use Rattle.p9_tmsg.specs.Frames.{message_frame};
ghost use Rattle.p9_rmsg.specs.Replies.{Reply, reply_of, ReplySpells, IsReadableReply};
ghost use Rattle.p9_rmsg.specs.Frames.{reply_frame};
ghost use Rattle.fid_model.specs.Moments.{AskedOne, Keeps};
ghost use Rattle.fid_model.specs.Handling.{IsLeft};
ghost use Rattle.p9_client.specs.Asking.{IsAskable, IsRequest, IsRepliedBy, IsExchanged};
ghost use Rattle.p9_client.specs.Asking.{IsUnfinishedAt};
ghost use Rattle.p9_client.specs.Asking.{IsReplyFrame};
ghost use Rattle.p9_client.specs.Changing.{done};

use fid_model::Nine;
use p9_rmsg::Rmessage;
use p9_tmsg::Tmessage;
use p9_wire::error::WireError;
use p9_wire::frame::Framed;
use port_base::memory::{MemSink, SliceSource};
use port_base::sink::NoMemory;
use std::alloc::Global;

// The tag of every message: one is asked at a time.
const TAG: u16 = 0;

// The message in its frame.
fn frame_of(alloc: Global, message: &Tmessage) -> Result<MemSink, NoMemory>
    requires spells { MessageSpells (message_of message.now) }
    requires short { 7 + length (message_spelling (message_of message.now)) < 2 ^ 32 }
    ensures { IfOk result (λ s. s.bytes.items ≡ message_frame 0 (message_of message.now)) }
{
    let mut sink = MemSink::new(alloc);
    message.send_frame(TAG, &mut sink).map_err(|_| NoMemory)?;
    Ok(sink)
}

// What the server answers to a frame.
fn reply_to<N: Nine>(alloc: Global, nine: &mut N, frame: &[u8]) -> Result<MemSink, NoMemory>
    ensures reply { (m : Message) → IsRequest frame.now m (N.at nine.old).state →
        IfOk result (λ s. IsRepliedBy m (N.at nine.old) (N.at nine.new) s.bytes.items) }
    ensures left { (m : Message) → IsRequest frame.now m (N.at nine.old).state →
        OnErr result (IsLeft (N.at nine.old).state m (N.at nine.new).state) }
    ensures asked { AskedOne (N.at nine.old) (N.at nine.new) }
    ensures kept { (m : Message) → IsRequest frame.now m (N.at nine.old).state →
        Keeps (N.at nine.old) (N.at nine.new) }
{
    let mut reader = SliceSource::new(frame);
    let mut writer = MemSink::new(alloc);
    let Ok(()) = nine.handle_message(&mut reader, &mut writer) else {
        return Err(NoMemory);
    };
    Ok(writer)
}

// The message that a reply's frame spells.
fn reply_in(alloc: Global, frame: &[u8]) -> Result<Rmessage, NoMemory>
    requires { IsReplyFrame frame.now }
    ensures { (tag : ℕ) (r : Reply) → frame.now ≡ reply_frame tag r → ReplySpells r →
        IsReadableReply r → IfOk result (λ m. reply_of m ≡ r) }
{
    let mut source = SliceSource::new(&frame[7..]);
    match Rmessage::decode_body(alloc, &mut source, frame[4]) {
        Ok(message) => Ok(message),
        Err(fault) => match fault {
            WireError::NoMemory => Err(NoMemory),
            _ => unreachable!(),
        },
    }
}

/// Sends a server one message. Its only error is out of memory: then the state is as a front part
/// of the message, or the whole of it, left it.
pub fn exchange<N: Nine>(
    alloc: Global,
    nine: &mut N,
    message: &Tmessage,
) -> Result<Rmessage, NoMemory>
    requires { IsAskable (N.at nine.old).state (message_of message.now) }
    ensures outcome { IfOk result (λ r.
        IsExchanged (message_of message.now) (reply_of r) (N.at nine.old) (N.at nine.new)) }
    ensures err { OnErr result
        (IsUnfinishedAt (message_of message.now) (N.at nine.old) (N.at nine.new)) }
    ensures kept { Keeps (N.at nine.old) (N.at nine.new) }
{
    let request = frame_of(alloc, message)?;
    let reply = reply_to(alloc, nine, request.as_bytes())?;
    reply_in(alloc, reply.as_bytes())
}

/// That all was done, of a message whose reply has no fields, or its refusal.
pub fn done(reply: Rmessage) -> Result<(), u32>
    ensures { result ≡ done (reply_of reply) }
{
    match reply {
        Rmessage::Lerror(error) => Err(error.ecode),
        _ => Ok(()),
    }
}
