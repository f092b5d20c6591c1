//! The server as what serves a tree by 9P2000.L.
ghost use Rattle.std.specs.Prelude.{◌≡◌};
ghost use Rattle.p9_server.specs.Steps.{server_state};
ghost use Rattle.p9_server.specs.Handling.{ReadsFrame};

use super::Server;
use crate::fids::release_all;
use crate::replies::{REPLY_ROOM, make_room, reserve_long, send_reply};
use fid_model::Nine;
use p9_tmsg::Tframe;
use p9_wire::error::WireError;
use port_base::sink::Sink;
use port_base::source::Source;
use std::alloc::Global;
use tree_host::Host;

// Reads a frame of at most so many bytes.
fn read_frame<S: Source>(alloc: Global, reader: &mut S, limit: u32) -> Result<Tframe, WireError>
    ensures frame { ReadsFrame limit (S.left reader.old) (S.left reader.new) (S.faults reader.old)
        (S.faults reader.new) result }
    ensures kept { S.kept reader.new ≡ S.kept reader.old }
    ensures lender { S.lender reader.new ≡ S.lender reader.old }
{
    match Tframe::decode_within(alloc, reader, limit) {
        Ok(frame) => Ok(frame),
        Err(WireError::InvalidInput) => Err(WireError::InvalidData),
        Err(fault) => Err(fault),
    }
}

impl<H: Host> Nine for Server<H> {
    ghost use Rattle.p9_server.specs.GoodServer.{server_good};

    ghost at = { λ s. record {
      state = server_state (H.tree s.host) s.fids s.msize s.share;
      faults = (H.calls s.host).faults;
      steady = (H.calls s.host).steady;
      asked = s.asked;
    } };

    fn handle_message<S: Source, K: Sink>(
        &mut self,
        reader: &mut S,
        writer: &mut K,
    ) -> Result<(), WireError> {
        self.asked = self.asked.saturating_add(1);
        let frame = read_frame(self.alloc, reader, self.msize)?;
        make_room(writer, REPLY_ROOM)?;
        let reply = self.answer(frame.msg)?;
        reserve_long(&reply, writer)?;
        send_reply(&reply, frame.tag, writer)
    }

    fn msize(&self) -> u32 {
        self.msize
    }

    fn fid_limit(&self) -> u32 {
        self.share.fid_limit()
    }

    fn fid_count(&self) -> u32 {
        self.fids.len() as u32
    }

    fn clear_fids(&mut self) {
        release_all(&mut self.host, &mut self.fids);
    }

    ghost good = { λ s. server_good (H.tree s.host) (H.holds s.host) s.fids s.msize s.share s.sound
        (H.good s.host) (H.stored s.host) };
}
