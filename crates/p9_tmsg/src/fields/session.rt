// Fields of the messages that begin and end a session, and that name files.
ghost use Rattle.p9_wire.specs.Reading.{Always};
ghost use Rattle.p9_wire.specs.Numbers.{law16, law32};
ghost use Rattle.p9_wire.specs.Values.{text_law, texts_law, then_law};

use crate::message::{Tattach, Tauth, Tclunk, Tflush, Tremove, Tversion, Twalk};
use p9_wire::error::WireError;
use p9_wire::fields::Fields;
use p9_wire::format::WireFormat;
use p9_wire::text::P9String;
use port_base::sink::{Sink, SinkFault};
use port_base::source::Source;
use std::alloc::Global;

type VersionFields = (u32, P9String);

impl WireFormat for Tversion {
    ghost Plain = { ⟦<VersionFields as WireFormat>⟧.Plain };

    ghost view = { λ m. ⟦<VersionFields as WireFormat>⟧.view (m.msize, m.version) };

    ghost Spells = { ⟦<VersionFields as WireFormat>⟧.Spells };

    ghost spelling = { ⟦<VersionFields as WireFormat>⟧.spelling };

    ghost IsSound = { Always };

    ghost IsReadable = { Always };

    ghost reading = { ⟦<VersionFields as WireFormat>⟧.reading };

    ghost lawful = { then_law law32 text_law };

    fn fits(&self) -> bool {
        (&self.msize, &self.version).fits()
    }

    fn byte_size(&self) -> u32 {
        (&self.msize, &self.version).byte_size()
    }

    fn send<K: Sink>(&self, sink: &mut K) -> Result<(), SinkFault> {
        (&self.msize, &self.version).send(sink)
    }

    fn decode<S: Source>(alloc: Global, source: &mut S) -> Result<Self, WireError> {
        let (msize, version) = VersionFields::decode(alloc, source)?;
        Ok(Tversion { msize, version })
    }
}

type AuthFields = (u32, (P9String, (P9String, u32)));

impl WireFormat for Tauth {
    ghost Plain = { ⟦<AuthFields as WireFormat>⟧.Plain };

    ghost view = { λ m. ⟦<AuthFields as WireFormat>⟧.view
        (m.afid, (m.uname, (m.aname, m.n_uname))) };

    ghost Spells = { ⟦<AuthFields as WireFormat>⟧.Spells };

    ghost spelling = { ⟦<AuthFields as WireFormat>⟧.spelling };

    ghost IsSound = { Always };

    ghost IsReadable = { Always };

    ghost reading = { ⟦<AuthFields as WireFormat>⟧.reading };

    ghost lawful = { then_law law32 (then_law text_law (then_law text_law law32)) };

    fn fits(&self) -> bool {
        (&self.afid, (&self.uname, (&self.aname, &self.n_uname))).fits()
    }

    fn byte_size(&self) -> u32 {
        (&self.afid, (&self.uname, (&self.aname, &self.n_uname))).byte_size()
    }

    fn send<K: Sink>(&self, sink: &mut K) -> Result<(), SinkFault> {
        (&self.afid, (&self.uname, (&self.aname, &self.n_uname))).send(sink)
    }

    fn decode<S: Source>(alloc: Global, source: &mut S) -> Result<Self, WireError> {
        let (afid, (uname, (aname, n_uname))) = AuthFields::decode(alloc, source)?;
        Ok(Tauth {
            afid,
            uname,
            aname,
            n_uname,
        })
    }
}

type AttachFields = (u32, (u32, (P9String, (P9String, u32))));

impl WireFormat for Tattach {
    ghost Plain = { ⟦<AttachFields as WireFormat>⟧.Plain };

    ghost view = { λ m. ⟦<AttachFields as WireFormat>⟧.view
        (m.fid, (m.afid, (m.uname, (m.aname, m.n_uname)))) };

    ghost Spells = { ⟦<AttachFields as WireFormat>⟧.Spells };

    ghost spelling = { ⟦<AttachFields as WireFormat>⟧.spelling };

    ghost IsSound = { Always };

    ghost IsReadable = { Always };

    ghost reading = { ⟦<AttachFields as WireFormat>⟧.reading };

    ghost lawful = { then_law law32 (then_law law32 (then_law text_law (then_law text_law law32))) };

    fn fits(&self) -> bool {
        (
            &self.fid,
            (&self.afid, (&self.uname, (&self.aname, &self.n_uname))),
        )
            .fits()
    }

    fn byte_size(&self) -> u32 {
        (
            &self.fid,
            (&self.afid, (&self.uname, (&self.aname, &self.n_uname))),
        )
            .byte_size()
    }

    fn send<K: Sink>(&self, sink: &mut K) -> Result<(), SinkFault> {
        (
            &self.fid,
            (&self.afid, (&self.uname, (&self.aname, &self.n_uname))),
        )
            .send(sink)
    }

    fn decode<S: Source>(alloc: Global, source: &mut S) -> Result<Self, WireError> {
        let (fid, (afid, (uname, (aname, n_uname)))) = AttachFields::decode(alloc, source)?;
        Ok(Tattach {
            fid,
            afid,
            uname,
            aname,
            n_uname,
        })
    }
}

impl WireFormat for Tflush {
    ghost Plain = { ⟦<u16 as WireFormat>⟧.Plain };

    ghost view = { λ m. ⟦<u16 as WireFormat>⟧.view m.oldtag };

    ghost Spells = { ⟦<u16 as WireFormat>⟧.Spells };

    ghost spelling = { ⟦<u16 as WireFormat>⟧.spelling };

    ghost IsSound = { Always };

    ghost IsReadable = { Always };

    ghost reading = { ⟦<u16 as WireFormat>⟧.reading };

    ghost lawful = { law16 };

    fn fits(&self) -> bool {
        self.oldtag.fits()
    }

    fn byte_size(&self) -> u32 {
        self.oldtag.byte_size()
    }

    fn send<K: Sink>(&self, sink: &mut K) -> Result<(), SinkFault> {
        self.oldtag.send(sink)
    }

    fn decode<S: Source>(alloc: Global, source: &mut S) -> Result<Self, WireError> {
        let oldtag = u16::decode(alloc, source)?;
        Ok(Tflush { oldtag })
    }
}

impl WireFormat for Tclunk {
    ghost Plain = { ⟦<u32 as WireFormat>⟧.Plain };

    ghost view = { λ m. ⟦<u32 as WireFormat>⟧.view m.fid };

    ghost Spells = { ⟦<u32 as WireFormat>⟧.Spells };

    ghost spelling = { ⟦<u32 as WireFormat>⟧.spelling };

    ghost IsSound = { Always };

    ghost IsReadable = { Always };

    ghost reading = { ⟦<u32 as WireFormat>⟧.reading };

    ghost lawful = { law32 };

    fn fits(&self) -> bool {
        self.fid.fits()
    }

    fn byte_size(&self) -> u32 {
        self.fid.byte_size()
    }

    fn send<K: Sink>(&self, sink: &mut K) -> Result<(), SinkFault> {
        self.fid.send(sink)
    }

    fn decode<S: Source>(alloc: Global, source: &mut S) -> Result<Self, WireError> {
        let fid = u32::decode(alloc, source)?;
        Ok(Tclunk { fid })
    }
}

impl WireFormat for Tremove {
    ghost Plain = { ⟦<u32 as WireFormat>⟧.Plain };

    ghost view = { λ m. ⟦<u32 as WireFormat>⟧.view m.fid };

    ghost Spells = { ⟦<u32 as WireFormat>⟧.Spells };

    ghost spelling = { ⟦<u32 as WireFormat>⟧.spelling };

    ghost IsSound = { Always };

    ghost IsReadable = { Always };

    ghost reading = { ⟦<u32 as WireFormat>⟧.reading };

    ghost lawful = { law32 };

    fn fits(&self) -> bool {
        self.fid.fits()
    }

    fn byte_size(&self) -> u32 {
        self.fid.byte_size()
    }

    fn send<K: Sink>(&self, sink: &mut K) -> Result<(), SinkFault> {
        self.fid.send(sink)
    }

    fn decode<S: Source>(alloc: Global, source: &mut S) -> Result<Self, WireError> {
        let fid = u32::decode(alloc, source)?;
        Ok(Tremove { fid })
    }
}

type WalkFields = (u32, (u32, Vec<P9String>));

impl WireFormat for Twalk {
    ghost Plain = { ⟦<WalkFields as WireFormat>⟧.Plain };

    ghost view = { λ m. ⟦<WalkFields as WireFormat>⟧.view (m.fid, (m.newfid, m.wnames)) };

    ghost Spells = { ⟦<WalkFields as WireFormat>⟧.Spells };

    ghost spelling = { ⟦<WalkFields as WireFormat>⟧.spelling };

    ghost IsSound = { Always };

    ghost IsReadable = { Always };

    ghost reading = { ⟦<WalkFields as WireFormat>⟧.reading };

    ghost lawful = { then_law law32 (then_law law32 texts_law) };

    fn fits(&self) -> bool {
        (&self.fid, (&self.newfid, &self.wnames)).fits()
    }

    fn byte_size(&self) -> u32 {
        (&self.fid, (&self.newfid, &self.wnames)).byte_size()
    }

    fn send<K: Sink>(&self, sink: &mut K) -> Result<(), SinkFault> {
        (&self.fid, (&self.newfid, &self.wnames)).send(sink)
    }

    fn decode<S: Source>(alloc: Global, source: &mut S) -> Result<Self, WireError> {
        let (fid, (newfid, wnames)) = WalkFields::decode(alloc, source)?;
        Ok(Twalk {
            fid,
            newfid,
            wnames,
        })
    }
}
