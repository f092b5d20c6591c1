// Fields of the messages on open files.
ghost use Rattle.p9_wire.specs.Reading.{Always};
ghost use Rattle.p9_wire.specs.Numbers.{law32, law64, law8};
ghost use Rattle.p9_wire.specs.Values.{IsReadableData, data_law, text_law, then_law};

use crate::message::{Tfsync, Tgetlock, Tlcreate, Tlock, Tlopen, Tread, Twrite};
use p9_wire::data::Data;
use p9_wire::error::WireError;
use p9_wire::fields::Fields;
use p9_wire::format::WireFormat;
use p9_wire::text::P9String;
use port_base::sink::{Sink, SinkFault};
use port_base::source::Source;
use std::alloc::Global;

type LopenFields = (u32, u32);

impl WireFormat for Tlopen {
    ghost Plain = { ⟦<LopenFields as WireFormat>⟧.Plain };

    ghost view = { λ m. ⟦<LopenFields as WireFormat>⟧.view (m.fid, m.flags) };

    ghost Spells = { ⟦<LopenFields as WireFormat>⟧.Spells };

    ghost spelling = { ⟦<LopenFields as WireFormat>⟧.spelling };

    ghost IsSound = { Always };

    ghost IsReadable = { Always };

    ghost reading = { ⟦<LopenFields as WireFormat>⟧.reading };

    ghost lawful = { then_law law32 law32 };

    fn fits(&self) -> bool {
        (&self.fid, &self.flags).fits()
    }

    fn byte_size(&self) -> u32 {
        (&self.fid, &self.flags).byte_size()
    }

    fn send<K: Sink>(&self, sink: &mut K) -> Result<(), SinkFault> {
        (&self.fid, &self.flags).send(sink)
    }

    fn decode<S: Source>(alloc: Global, source: &mut S) -> Result<Self, WireError> {
        let (fid, flags) = LopenFields::decode(alloc, source)?;
        Ok(Tlopen { fid, flags })
    }
}

type LcreateFields = (u32, (P9String, (u32, (u32, u32))));

impl WireFormat for Tlcreate {
    ghost Plain = { ⟦<LcreateFields as WireFormat>⟧.Plain };

    ghost view = { λ m. ⟦<LcreateFields as WireFormat>⟧.view
        (m.fid, (m.name, (m.flags, (m.mode, m.gid)))) };

    ghost Spells = { ⟦<LcreateFields as WireFormat>⟧.Spells };

    ghost spelling = { ⟦<LcreateFields as WireFormat>⟧.spelling };

    ghost IsSound = { Always };

    ghost IsReadable = { Always };

    ghost reading = { ⟦<LcreateFields as WireFormat>⟧.reading };

    ghost lawful = { then_law law32 (then_law text_law (then_law law32 (then_law law32 law32))) };

    fn fits(&self) -> bool {
        (
            &self.fid,
            (&self.name, (&self.flags, (&self.mode, &self.gid))),
        )
            .fits()
    }

    fn byte_size(&self) -> u32 {
        (
            &self.fid,
            (&self.name, (&self.flags, (&self.mode, &self.gid))),
        )
            .byte_size()
    }

    fn send<K: Sink>(&self, sink: &mut K) -> Result<(), SinkFault> {
        (
            &self.fid,
            (&self.name, (&self.flags, (&self.mode, &self.gid))),
        )
            .send(sink)
    }

    fn decode<S: Source>(alloc: Global, source: &mut S) -> Result<Self, WireError> {
        let (fid, (name, (flags, (mode, gid)))) = LcreateFields::decode(alloc, source)?;
        Ok(Tlcreate {
            fid,
            name,
            flags,
            mode,
            gid,
        })
    }
}

type ReadFields = (u32, (u64, u32));

impl WireFormat for Tread {
    ghost Plain = { ⟦<ReadFields as WireFormat>⟧.Plain };

    ghost view = { λ m. ⟦<ReadFields as WireFormat>⟧.view (m.fid, (m.offset, m.count)) };

    ghost Spells = { ⟦<ReadFields as WireFormat>⟧.Spells };

    ghost spelling = { ⟦<ReadFields as WireFormat>⟧.spelling };

    ghost IsSound = { Always };

    ghost IsReadable = { Always };

    ghost reading = { ⟦<ReadFields as WireFormat>⟧.reading };

    ghost lawful = { then_law law32 (then_law law64 law32) };

    fn fits(&self) -> bool {
        (&self.fid, (&self.offset, &self.count)).fits()
    }

    fn byte_size(&self) -> u32 {
        (&self.fid, (&self.offset, &self.count)).byte_size()
    }

    fn send<K: Sink>(&self, sink: &mut K) -> Result<(), SinkFault> {
        (&self.fid, (&self.offset, &self.count)).send(sink)
    }

    fn decode<S: Source>(alloc: Global, source: &mut S) -> Result<Self, WireError> {
        let (fid, (offset, count)) = ReadFields::decode(alloc, source)?;
        Ok(Tread { fid, offset, count })
    }
}

type WriteFields = (u32, (u64, Data));

impl WireFormat for Twrite {
    ghost Plain = { ⟦<WriteFields as WireFormat>⟧.Plain };

    ghost view = { λ m. ⟦<WriteFields as WireFormat>⟧.view (m.fid, (m.offset, m.payload)) };

    ghost Spells = { ⟦<WriteFields as WireFormat>⟧.Spells };

    ghost spelling = { ⟦<WriteFields as WireFormat>⟧.spelling };

    ghost IsSound = { Always };

    ghost IsReadable = { λ p. IsReadableData p.1.1 };

    ghost reading = { ⟦<WriteFields as WireFormat>⟧.reading };

    ghost lawful = { then_law law32 (then_law law64 data_law) };

    fn fits(&self) -> bool {
        (&self.fid, (&self.offset, &self.payload)).fits()
    }

    fn byte_size(&self) -> u32 {
        (&self.fid, (&self.offset, &self.payload)).byte_size()
    }

    fn send<K: Sink>(&self, sink: &mut K) -> Result<(), SinkFault> {
        (&self.fid, (&self.offset, &self.payload)).send(sink)
    }

    fn decode<S: Source>(alloc: Global, source: &mut S) -> Result<Self, WireError> {
        let (fid, (offset, payload)) = WriteFields::decode(alloc, source)?;
        Ok(Twrite {
            fid,
            offset,
            payload,
        })
    }
}

type FsyncFields = (u32, u32);

impl WireFormat for Tfsync {
    ghost Plain = { ⟦<FsyncFields as WireFormat>⟧.Plain };

    ghost view = { λ m. ⟦<FsyncFields as WireFormat>⟧.view (m.fid, m.datasync) };

    ghost Spells = { ⟦<FsyncFields as WireFormat>⟧.Spells };

    ghost spelling = { ⟦<FsyncFields as WireFormat>⟧.spelling };

    ghost IsSound = { Always };

    ghost IsReadable = { Always };

    ghost reading = { ⟦<FsyncFields as WireFormat>⟧.reading };

    ghost lawful = { then_law law32 law32 };

    fn fits(&self) -> bool {
        (&self.fid, &self.datasync).fits()
    }

    fn byte_size(&self) -> u32 {
        (&self.fid, &self.datasync).byte_size()
    }

    fn send<K: Sink>(&self, sink: &mut K) -> Result<(), SinkFault> {
        (&self.fid, &self.datasync).send(sink)
    }

    fn decode<S: Source>(alloc: Global, source: &mut S) -> Result<Self, WireError> {
        let (fid, datasync) = FsyncFields::decode(alloc, source)?;
        Ok(Tfsync { fid, datasync })
    }
}

type LockFields = ((u32, (u8, u32)), (u64, (u64, (u32, P9String))));

impl WireFormat for Tlock {
    ghost Plain = { ⟦<LockFields as WireFormat>⟧.Plain };

    ghost view = { λ m. ⟦<LockFields as WireFormat>⟧.view
        ((m.fid, (m.kind_, m.flags)), (m.start, (m.length, (m.proc_id, m.client_id)))) };

    ghost Spells = { ⟦<LockFields as WireFormat>⟧.Spells };

    ghost spelling = { ⟦<LockFields as WireFormat>⟧.spelling };

    ghost IsSound = { Always };

    ghost IsReadable = { Always };

    ghost reading = { ⟦<LockFields as WireFormat>⟧.reading };

    ghost lawful = { then_law (then_law law32 (then_law law8 law32))
        (then_law law64 (then_law law64 (then_law law32 text_law))) };

    fn fits(&self) -> bool {
        (
            (&self.fid, (&self.kind_, &self.flags)),
            (
                &self.start,
                (&self.length, (&self.proc_id, &self.client_id)),
            ),
        )
            .fits()
    }

    fn byte_size(&self) -> u32 {
        (
            (&self.fid, (&self.kind_, &self.flags)),
            (
                &self.start,
                (&self.length, (&self.proc_id, &self.client_id)),
            ),
        )
            .byte_size()
    }

    fn send<K: Sink>(&self, sink: &mut K) -> Result<(), SinkFault> {
        (
            (&self.fid, (&self.kind_, &self.flags)),
            (
                &self.start,
                (&self.length, (&self.proc_id, &self.client_id)),
            ),
        )
            .send(sink)
    }

    fn decode<S: Source>(alloc: Global, source: &mut S) -> Result<Self, WireError> {
        let ((fid, (kind_, flags)), (start, (length, (proc_id, client_id)))) = LockFields::decode(
            alloc, source,
        )?;
        Ok(Tlock {
            fid,
            kind_,
            flags,
            start,
            length,
            proc_id,
            client_id,
        })
    }
}

type GetLockFields = (u32, (u8, (u64, (u64, (u32, P9String)))));

impl WireFormat for Tgetlock {
    ghost Plain = { ⟦<GetLockFields as WireFormat>⟧.Plain };

    ghost view = { λ m. ⟦<GetLockFields as WireFormat>⟧.view
        (m.fid, (m.kind_, (m.start, (m.length, (m.proc_id, m.client_id))))) };

    ghost Spells = { ⟦<GetLockFields as WireFormat>⟧.Spells };

    ghost spelling = { ⟦<GetLockFields as WireFormat>⟧.spelling };

    ghost IsSound = { Always };

    ghost IsReadable = { Always };

    ghost reading = { ⟦<GetLockFields as WireFormat>⟧.reading };

    ghost lawful = { then_law law32 (then_law law8 (then_law law64
        (then_law law64 (then_law law32 text_law)))) };

    fn fits(&self) -> bool {
        (
            &self.fid,
            (
                &self.kind_,
                (
                    &self.start,
                    (&self.length, (&self.proc_id, &self.client_id)),
                ),
            ),
        )
            .fits()
    }

    fn byte_size(&self) -> u32 {
        (
            &self.fid,
            (
                &self.kind_,
                (
                    &self.start,
                    (&self.length, (&self.proc_id, &self.client_id)),
                ),
            ),
        )
            .byte_size()
    }

    fn send<K: Sink>(&self, sink: &mut K) -> Result<(), SinkFault> {
        (
            &self.fid,
            (
                &self.kind_,
                (
                    &self.start,
                    (&self.length, (&self.proc_id, &self.client_id)),
                ),
            ),
        )
            .send(sink)
    }

    fn decode<S: Source>(alloc: Global, source: &mut S) -> Result<Self, WireError> {
        let (fid, (kind_, (start, (length, (proc_id, client_id))))) = GetLockFields::decode(
            alloc, source,
        )?;
        Ok(Tgetlock {
            fid,
            kind_,
            start,
            length,
            proc_id,
            client_id,
        })
    }
}
