// Fields of the answers on open files.
ghost use Rattle.p9_wire.specs.Reading.{Always};
ghost use Rattle.p9_wire.specs.Numbers.{law32, law64, law8};
ghost use Rattle.p9_wire.specs.Values.{IsReadableData, data_law, qid_law, text_law, then_law};

use crate::message::{Rgetlock, Rlcreate, Rlock, Rlopen, Rread, Rwrite};
use p9_wire::data::Data;
use p9_wire::error::WireError;
use p9_wire::fields::Fields;
use p9_wire::format::WireFormat;
use p9_wire::qid::Qid;
use p9_wire::text::P9String;
use port_base::sink::{Sink, SinkFault};
use port_base::source::Source;
use std::alloc::Global;

type LopenFields = (Qid, u32);

impl WireFormat for Rlopen {
    ghost Plain = { ⟦<LopenFields as WireFormat>⟧.Plain };

    ghost view = { λ m. ⟦<LopenFields as WireFormat>⟧.view (m.qid, m.iounit) };

    ghost Spells = { ⟦<LopenFields as WireFormat>⟧.Spells };

    ghost spelling = { ⟦<LopenFields as WireFormat>⟧.spelling };

    ghost IsSound = { Always };

    ghost IsReadable = { Always };

    ghost reading = { ⟦<LopenFields as WireFormat>⟧.reading };

    ghost lawful = { then_law qid_law law32 };

    fn fits(&self) -> bool {
        (&self.qid, &self.iounit).fits()
    }

    fn byte_size(&self) -> u32 {
        (&self.qid, &self.iounit).byte_size()
    }

    fn send<K: Sink>(&self, sink: &mut K) -> Result<(), SinkFault> {
        (&self.qid, &self.iounit).send(sink)
    }

    fn decode<S: Source>(alloc: Global, source: &mut S) -> Result<Self, WireError> {
        let (qid, iounit) = LopenFields::decode(alloc, source)?;
        Ok(Rlopen { qid, iounit })
    }
}

type LcreateFields = (Qid, u32);

impl WireFormat for Rlcreate {
    ghost Plain = { ⟦<LcreateFields as WireFormat>⟧.Plain };

    ghost view = { λ m. ⟦<LcreateFields as WireFormat>⟧.view (m.qid, m.iounit) };

    ghost Spells = { ⟦<LcreateFields as WireFormat>⟧.Spells };

    ghost spelling = { ⟦<LcreateFields as WireFormat>⟧.spelling };

    ghost IsSound = { Always };

    ghost IsReadable = { Always };

    ghost reading = { ⟦<LcreateFields as WireFormat>⟧.reading };

    ghost lawful = { then_law qid_law law32 };

    fn fits(&self) -> bool {
        (&self.qid, &self.iounit).fits()
    }

    fn byte_size(&self) -> u32 {
        (&self.qid, &self.iounit).byte_size()
    }

    fn send<K: Sink>(&self, sink: &mut K) -> Result<(), SinkFault> {
        (&self.qid, &self.iounit).send(sink)
    }

    fn decode<S: Source>(alloc: Global, source: &mut S) -> Result<Self, WireError> {
        let (qid, iounit) = LcreateFields::decode(alloc, source)?;
        Ok(Rlcreate { qid, iounit })
    }
}

impl WireFormat for Rread {
    ghost Plain = { ⟦<Data as WireFormat>⟧.Plain };

    ghost view = { λ m. ⟦<Data as WireFormat>⟧.view m.payload };

    ghost Spells = { ⟦<Data as WireFormat>⟧.Spells };

    ghost spelling = { ⟦<Data as WireFormat>⟧.spelling };

    ghost IsSound = { Always };

    ghost IsReadable = { λ p. IsReadableData p };

    ghost reading = { ⟦<Data as WireFormat>⟧.reading };

    ghost lawful = { data_law };

    fn fits(&self) -> bool {
        self.payload.fits()
    }

    fn byte_size(&self) -> u32 {
        self.payload.byte_size()
    }

    fn send<K: Sink>(&self, sink: &mut K) -> Result<(), SinkFault> {
        self.payload.send(sink)
    }

    fn decode<S: Source>(alloc: Global, source: &mut S) -> Result<Self, WireError> {
        let payload = Data::decode(alloc, source)?;
        Ok(Rread { payload })
    }
}

impl WireFormat for Rwrite {
    ghost Plain = { ⟦<u32 as WireFormat>⟧.Plain };

    ghost view = { λ m. ⟦<u32 as WireFormat>⟧.view m.count };

    ghost Spells = { ⟦<u32 as WireFormat>⟧.Spells };

    ghost spelling = { ⟦<u32 as WireFormat>⟧.spelling };

    ghost IsSound = { Always };

    ghost IsReadable = { Always };

    ghost reading = { ⟦<u32 as WireFormat>⟧.reading };

    ghost lawful = { law32 };

    fn fits(&self) -> bool {
        self.count.fits()
    }

    fn byte_size(&self) -> u32 {
        self.count.byte_size()
    }

    fn send<K: Sink>(&self, sink: &mut K) -> Result<(), SinkFault> {
        self.count.send(sink)
    }

    fn decode<S: Source>(alloc: Global, source: &mut S) -> Result<Self, WireError> {
        let count = u32::decode(alloc, source)?;
        Ok(Rwrite { count })
    }
}

impl WireFormat for Rlock {
    ghost Plain = { ⟦<u8 as WireFormat>⟧.Plain };

    ghost view = { λ m. ⟦<u8 as WireFormat>⟧.view m.status };

    ghost Spells = { ⟦<u8 as WireFormat>⟧.Spells };

    ghost spelling = { ⟦<u8 as WireFormat>⟧.spelling };

    ghost IsSound = { Always };

    ghost IsReadable = { Always };

    ghost reading = { ⟦<u8 as WireFormat>⟧.reading };

    ghost lawful = { law8 };

    fn fits(&self) -> bool {
        self.status.fits()
    }

    fn byte_size(&self) -> u32 {
        self.status.byte_size()
    }

    fn send<K: Sink>(&self, sink: &mut K) -> Result<(), SinkFault> {
        self.status.send(sink)
    }

    fn decode<S: Source>(alloc: Global, source: &mut S) -> Result<Self, WireError> {
        let status = u8::decode(alloc, source)?;
        Ok(Rlock { status })
    }
}

type GetLockFields = (u8, (u64, (u64, (u32, P9String))));

impl WireFormat for Rgetlock {
    ghost Plain = { ⟦<GetLockFields as WireFormat>⟧.Plain };

    ghost view = { λ m. ⟦<GetLockFields as WireFormat>⟧.view
        (m.kind_, (m.start, (m.length, (m.proc_id, m.client_id)))) };

    ghost Spells = { ⟦<GetLockFields as WireFormat>⟧.Spells };

    ghost spelling = { ⟦<GetLockFields as WireFormat>⟧.spelling };

    ghost IsSound = { Always };

    ghost IsReadable = { Always };

    ghost reading = { ⟦<GetLockFields as WireFormat>⟧.reading };

    ghost lawful = { then_law law8 (then_law law64 (then_law law64 (then_law law32 text_law))) };

    fn fits(&self) -> bool {
        (
            &self.kind_,
            (
                &self.start,
                (&self.length, (&self.proc_id, &self.client_id)),
            ),
        )
            .fits()
    }

    fn byte_size(&self) -> u32 {
        (
            &self.kind_,
            (
                &self.start,
                (&self.length, (&self.proc_id, &self.client_id)),
            ),
        )
            .byte_size()
    }

    fn send<K: Sink>(&self, sink: &mut K) -> Result<(), SinkFault> {
        (
            &self.kind_,
            (
                &self.start,
                (&self.length, (&self.proc_id, &self.client_id)),
            ),
        )
            .send(sink)
    }

    fn decode<S: Source>(alloc: Global, source: &mut S) -> Result<Self, WireError> {
        let (kind_, (start, (length, (proc_id, client_id)))) = GetLockFields::decode(
            alloc, source,
        )?;
        Ok(Rgetlock {
            kind_,
            start,
            length,
            proc_id,
            client_id,
        })
    }
}
