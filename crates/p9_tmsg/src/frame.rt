// Frames with the messages that a client sends.
ghost use Rattle.std.specs.Prelude.{◌≡◌, ◌+◌, ◌-◌, ◌<◌, ◌^◌, ℕ, List, length, Result, IfErr};
ghost use Rattle.p9_wire.specs.declared.error.WireError.{WireError};
ghost use Rattle.p9_wire.specs.Reading.{Always, Decodes, TookOfFrame};
ghost use Rattle.p9_wire.specs.Sending.{Sends};
ghost use Rattle.p9_wire.specs.Frames.{IsWhole};
ghost use Rattle.p9_wire.specs.FrameLaws.{marked_lawful};
ghost use Rattle.p9_tmsg.specs.Messages.{Message, message_of, message_kind, message_spelling};
ghost use Rattle.p9_tmsg.specs.Messages.{MessageSpells, IsReadableMessage, message_reading};
ghost use Rattle.p9_tmsg.specs.MessageLaws.{messages_lawful};
ghost use Rattle.p9_tmsg.specs.Frames.{message_frame, frame_of, frame_within, frame_reading};
ghost use Rattle.p9_tmsg.specs.Frames.{TframeSpells, tframe_spelling, IsReadableTframe};

use crate::message::Tmessage;
use p9_wire::error::WireError;
use p9_wire::format::WireFormat;
use p9_wire::frame::{decode_frame, fits_frame, frame_size, send_frame};
use port_base::sink::{Sink, SinkFault};
use port_base::source::Source;
use std::alloc::Global;

/// A message behind its size, type and tag. `msg` is `Err` where a frame was read whose body is
/// malformed.
#[derive(Debug, Drop)]
pub struct Tframe {
    pub tag: u16,
    pub msg: Result<Tmessage, WireError>,
}

impl Tmessage {
    /// Sends the message in a frame with this tag.
    pub fn send_frame<K: Sink>(&self, tag: u16, sink: &mut K) -> Result<(), SinkFault>
        requires spells { MessageSpells (message_of self.now) }
        requires short { 7 + length (message_spelling (message_of self.now)) < 2 ^ 32 }
        ensures sends { Sends (message_frame tag (message_of self.now)) (K.sent sink.old)
            (K.sent sink.new)
            (K.room sink.old) (K.room sink.new) (K.faults sink.old) (K.faults sink.new) result }
        ensures kept { K.kept sink.new ≡ K.kept sink.old }
    {
        send_frame(self, tag, sink)
    }
}

impl Tframe {
    /// Reads a frame of at most `limit` bytes to its end. A malformed body is told in `msg`.
    ///
    /// `InvalidData`: a size below 7 or above `limit`, whose four bytes were taken.
    /// `UnexpectedEof`: the source ended before the frame did, and all its bytes were taken.
    pub fn decode_within<S: Source>(
        alloc: Global,
        source: &mut S,
        limit: u32,
    ) -> Result<Tframe, WireError>
        ensures decodes { Decodes frame_of (frame_within limit) (S.left source.old)
            (S.left source.new)
            (S.faults source.old) (S.faults source.new) result }
        ensures took { IfErr result (TookOfFrame (S.left source.old) (S.left source.new)) }
        ensures kept { S.kept source.new ≡ S.kept source.old }
        ensures lender { S.lender source.new ≡ S.lender source.old }
    {
        let (tag, msg) = decode_frame(alloc, source, limit)?;
        Ok(Tframe { tag, msg })
    }
}

impl WireFormat for Tframe {
    ghost Plain = { ℕ × Result Message WireError };

    ghost view = { frame_of };

    ghost Spells = { TframeSpells };

    ghost spelling = { tframe_spelling };

    ghost IsSound = { IsWhole Always };

    ghost IsReadable = { IsReadableTframe };

    ghost reading = { frame_reading };

    ghost lawful = { marked_lawful message_kind MessageSpells message_spelling IsReadableMessage
        message_reading messages_lawful };

    fn fits(&self) -> bool {
        let _tag = self.tag;
        match &self.msg {
            Ok(message) => fits_frame(message),
            Err(_) => false,
        }
    }

    fn byte_size(&self) -> u32 {
        match &self.msg {
            Ok(message) => frame_size(message),
            Err(_) => unreachable!(),
        }
    }

    fn send<K: Sink>(&self, sink: &mut K) -> Result<(), SinkFault> {
        match &self.msg {
            Ok(message) => message.send_frame(self.tag, sink),
            Err(_) => unreachable!(),
        }
    }

    fn decode<S: Source>(alloc: Global, source: &mut S) -> Result<Self, WireError>
        ensures decodes { Decodes frame_of frame_reading (S.left source.old) (S.left source.new)
            (S.faults source.old) (S.faults source.new) result }
        ensures took { IfErr result (TookOfFrame (S.left source.old) (S.left source.new)) }
        ensures kept { S.kept source.new ≡ S.kept source.old }
        ensures lender { S.lender source.new ≡ S.lender source.old }
    {
        Tframe::decode_within(alloc, source, u32::MAX)
    }
}
