// Fields of the messages on attributes and file systems.
ghost use Rattle.p9_wire.specs.Reading.{Always};
ghost use Rattle.p9_wire.specs.Numbers.{law32, law64};
ghost use Rattle.p9_wire.specs.Values.{text_law, then_law};

use crate::message::{Tgetattr, Tsetattr, Tstatfs, Txattrcreate, Txattrwalk};
use p9_wire::error::WireError;
use p9_wire::fields::Fields;
use p9_wire::format::WireFormat;
use p9_wire::text::P9String;
use port_base::sink::{Sink, SinkFault};
use port_base::source::Source;
use std::alloc::Global;

impl WireFormat for Tstatfs {
    ghost Plain = { ⟦<u32 as WireFormat>⟧.Plain };

    ghost view = { λ m. ⟦<u32 as WireFormat>⟧.view m.fid };

    ghost Spells = { ⟦<u32 as WireFormat>⟧.Spells };

    ghost spelling = { ⟦<u32 as WireFormat>⟧.spelling };

    ghost IsSound = { Always };

    ghost IsReadable = { Always };

    ghost reading = { ⟦<u32 as WireFormat>⟧.reading };

    ghost lawful = { law32 };

    fn fits(&self) -> bool {
        self.fid.fits()
    }

    fn byte_size(&self) -> u32 {
        self.fid.byte_size()
    }

    fn send<K: Sink>(&self, sink: &mut K) -> Result<(), SinkFault> {
        self.fid.send(sink)
    }

    fn decode<S: Source>(alloc: Global, source: &mut S) -> Result<Self, WireError> {
        let fid = u32::decode(alloc, source)?;
        Ok(Tstatfs { fid })
    }
}

type GetAttrFields = (u32, u64);

impl WireFormat for Tgetattr {
    ghost Plain = { ⟦<GetAttrFields as WireFormat>⟧.Plain };

    ghost view = { λ m. ⟦<GetAttrFields as WireFormat>⟧.view (m.fid, m.request_mask) };

    ghost Spells = { ⟦<GetAttrFields as WireFormat>⟧.Spells };

    ghost spelling = { ⟦<GetAttrFields as WireFormat>⟧.spelling };

    ghost IsSound = { Always };

    ghost IsReadable = { Always };

    ghost reading = { ⟦<GetAttrFields as WireFormat>⟧.reading };

    ghost lawful = { then_law law32 law64 };

    fn fits(&self) -> bool {
        (&self.fid, &self.request_mask).fits()
    }

    fn byte_size(&self) -> u32 {
        (&self.fid, &self.request_mask).byte_size()
    }

    fn send<K: Sink>(&self, sink: &mut K) -> Result<(), SinkFault> {
        (&self.fid, &self.request_mask).send(sink)
    }

    fn decode<S: Source>(alloc: Global, source: &mut S) -> Result<Self, WireError> {
        let (fid, request_mask) = GetAttrFields::decode(alloc, source)?;
        Ok(Tgetattr { fid, request_mask })
    }
}

type SetAttrFields = (
    (u32, (u32, (u32, (u32, (u32, u64))))),
    (u64, (u64, (u64, u64))),
);

impl WireFormat for Tsetattr {
    ghost Plain = { ⟦<SetAttrFields as WireFormat>⟧.Plain };

    ghost view = { λ m. ⟦<SetAttrFields as WireFormat>⟧.view (
      (m.fid, (m.valid, (m.mode, (m.uid, (m.gid, m.size))))),
      (m.atime_sec, (m.atime_nsec, (m.mtime_sec, m.mtime_nsec))),
    ) };

    ghost Spells = { ⟦<SetAttrFields as WireFormat>⟧.Spells };

    ghost spelling = { ⟦<SetAttrFields as WireFormat>⟧.spelling };

    ghost IsSound = { Always };

    ghost IsReadable = { Always };

    ghost reading = { ⟦<SetAttrFields as WireFormat>⟧.reading };

    ghost lawful = { then_law (then_law law32 (then_law law32
        (then_law law32 (then_law law32 (then_law law32 law64)))))
        (then_law law64 (then_law law64 (then_law law64 law64))) };

    fn fits(&self) -> bool {
        (
            (
                &self.fid,
                (
                    &self.valid,
                    (&self.mode, (&self.uid, (&self.gid, &self.size))),
                ),
            ),
            (
                &self.atime_sec,
                (&self.atime_nsec, (&self.mtime_sec, &self.mtime_nsec)),
            ),
        )
            .fits()
    }

    fn byte_size(&self) -> u32 {
        (
            (
                &self.fid,
                (
                    &self.valid,
                    (&self.mode, (&self.uid, (&self.gid, &self.size))),
                ),
            ),
            (
                &self.atime_sec,
                (&self.atime_nsec, (&self.mtime_sec, &self.mtime_nsec)),
            ),
        )
            .byte_size()
    }

    fn send<K: Sink>(&self, sink: &mut K) -> Result<(), SinkFault> {
        (
            (
                &self.fid,
                (
                    &self.valid,
                    (&self.mode, (&self.uid, (&self.gid, &self.size))),
                ),
            ),
            (
                &self.atime_sec,
                (&self.atime_nsec, (&self.mtime_sec, &self.mtime_nsec)),
            ),
        )
            .send(sink)
    }

    fn decode<S: Source>(alloc: Global, source: &mut S) -> Result<Self, WireError> {
        let (
            (fid, (valid, (mode, (uid, (gid, size))))),
            (atime_sec, (atime_nsec, (mtime_sec, mtime_nsec))),
        ) = SetAttrFields::decode(alloc, source)?;
        Ok(Tsetattr {
            fid,
            valid,
            mode,
            uid,
            gid,
            size,
            atime_sec,
            atime_nsec,
            mtime_sec,
            mtime_nsec,
        })
    }
}

type XattrWalkFields = (u32, (u32, P9String));

impl WireFormat for Txattrwalk {
    ghost Plain = { ⟦<XattrWalkFields as WireFormat>⟧.Plain };

    ghost view = { λ m. ⟦<XattrWalkFields as WireFormat>⟧.view (m.fid, (m.newfid, m.name)) };

    ghost Spells = { ⟦<XattrWalkFields as WireFormat>⟧.Spells };

    ghost spelling = { ⟦<XattrWalkFields as WireFormat>⟧.spelling };

    ghost IsSound = { Always };

    ghost IsReadable = { Always };

    ghost reading = { ⟦<XattrWalkFields as WireFormat>⟧.reading };

    ghost lawful = { then_law law32 (then_law law32 text_law) };

    fn fits(&self) -> bool {
        (&self.fid, (&self.newfid, &self.name)).fits()
    }

    fn byte_size(&self) -> u32 {
        (&self.fid, (&self.newfid, &self.name)).byte_size()
    }

    fn send<K: Sink>(&self, sink: &mut K) -> Result<(), SinkFault> {
        (&self.fid, (&self.newfid, &self.name)).send(sink)
    }

    fn decode<S: Source>(alloc: Global, source: &mut S) -> Result<Self, WireError> {
        let (fid, (newfid, name)) = XattrWalkFields::decode(alloc, source)?;
        Ok(Txattrwalk { fid, newfid, name })
    }
}

type XattrCreateFields = (u32, (P9String, (u64, u32)));

impl WireFormat for Txattrcreate {
    ghost Plain = { ⟦<XattrCreateFields as WireFormat>⟧.Plain };

    ghost view = { λ m. ⟦<XattrCreateFields as WireFormat>⟧.view
        (m.fid, (m.name, (m.attr_size, m.flags))) };

    ghost Spells = { ⟦<XattrCreateFields as WireFormat>⟧.Spells };

    ghost spelling = { ⟦<XattrCreateFields as WireFormat>⟧.spelling };

    ghost IsSound = { Always };

    ghost IsReadable = { Always };

    ghost reading = { ⟦<XattrCreateFields as WireFormat>⟧.reading };

    ghost lawful = { then_law law32 (then_law text_law (then_law law64 law32)) };

    fn fits(&self) -> bool {
        (&self.fid, (&self.name, (&self.attr_size, &self.flags))).fits()
    }

    fn byte_size(&self) -> u32 {
        (&self.fid, (&self.name, (&self.attr_size, &self.flags))).byte_size()
    }

    fn send<K: Sink>(&self, sink: &mut K) -> Result<(), SinkFault> {
        (&self.fid, (&self.name, (&self.attr_size, &self.flags))).send(sink)
    }

    fn decode<S: Source>(alloc: Global, source: &mut S) -> Result<Self, WireError> {
        let (fid, (name, (attr_size, flags))) = XattrCreateFields::decode(alloc, source)?;
        Ok(Txattrcreate {
            fid,
            name,
            attr_size,
            flags,
        })
    }
}
