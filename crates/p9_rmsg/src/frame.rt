// Frames with the messages that a server answers.
ghost use Rattle.std.specs.Prelude.{◌≡◌, ◌+◌, ◌-◌, ◌<◌, ◌^◌, ℕ, List, length, IfErr};
ghost use Rattle.p9_wire.specs.Reading.{Always, Decodes};
ghost use Rattle.p9_wire.specs.Sending.{Sends};
ghost use Rattle.p9_wire.specs.Frames.{Drains};
ghost use Rattle.p9_wire.specs.FrameLaws.{sound_lawful};
ghost use Rattle.p9_rmsg.specs.Replies.{Reply, reply_of, reply_kind, reply_spelling, ReplySpells};
ghost use Rattle.p9_rmsg.specs.Replies.{IsReadableReply, reply_reading};
ghost use Rattle.p9_rmsg.specs.ReplyLaws.{replies_lawful};
ghost use Rattle.p9_rmsg.specs.Frames.{reply_frame, frame_of, reply_frame_within};
ghost use Rattle.p9_rmsg.specs.Frames.{reply_frame_reading, RframeSpells, rframe_spelling};
ghost use Rattle.p9_rmsg.specs.Frames.{IsReadableRframe};

use crate::message::Rmessage;
use p9_wire::error::WireError;
use p9_wire::format::WireFormat;
use p9_wire::frame::{decode_sound_frame, fits_frame, frame_size, send_frame};
use port_base::sink::{Sink, SinkFault};
use port_base::source::Source;
use std::alloc::Global;

/// A message behind its size, type and tag.
#[derive(Debug, Drop)]
pub struct Rframe {
    pub tag: u16,
    pub msg: Rmessage,
}

impl Rmessage {
    /// Sends the message in a frame with this tag.
    pub fn send_frame<K: Sink>(&self, tag: u16, sink: &mut K) -> Result<(), SinkFault>
        requires spells { ReplySpells (reply_of self.now) }
        requires short { 7 + length (reply_spelling (reply_of self.now)) < 2 ^ 32 }
        ensures sends { Sends (reply_frame tag (reply_of self.now)) (K.sent sink.old)
            (K.sent sink.new) (K.room sink.old) (K.room sink.new) (K.faults sink.old)
            (K.faults sink.new) result }
        ensures kept { K.kept sink.new ≡ K.kept sink.old }
    {
        send_frame(self, tag, sink)
    }
}

impl WireFormat for Rframe {
    ghost Plain = { ℕ × Reply };

    ghost view = { frame_of };

    ghost Spells = { RframeSpells };

    ghost spelling = { rframe_spelling };

    ghost IsSound = { Always };

    ghost IsReadable = { IsReadableRframe };

    ghost reading = { reply_frame_reading };

    ghost lawful = { sound_lawful reply_kind ReplySpells reply_spelling IsReadableReply
        reply_reading replies_lawful };

    fn fits(&self) -> bool {
        let _tag = self.tag;
        fits_frame(&self.msg)
    }

    fn byte_size(&self) -> u32 {
        frame_size(&self.msg)
    }

    fn send<K: Sink>(&self, sink: &mut K) -> Result<(), SinkFault> {
        self.msg.send_frame(self.tag, sink)
    }

    // Where the body is malformed the source is at the frame's end.
    fn decode<S: Source>(alloc: Global, source: &mut S) -> Result<Self, WireError>
        ensures decodes { Decodes frame_of reply_frame_reading (S.left source.old)
            (S.left source.new) (S.faults source.old) (S.faults source.new) result }
        ensures drains { IfErr result (Drains reply_reading (2 ^ 32 - 1) (S.left source.old)
            (S.left source.new)) }
        ensures kept { S.kept source.new ≡ S.kept source.old }
        ensures lender { S.lender source.new ≡ S.lender source.old }
    {
        let (tag, msg) = decode_sound_frame(alloc, source, u32::MAX)?;
        Ok(Rframe { tag, msg })
    }
}
