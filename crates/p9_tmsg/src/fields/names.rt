// Fields of the messages on names in directories.
ghost use Rattle.p9_wire.specs.Reading.{Always};
ghost use Rattle.p9_wire.specs.Numbers.{law32, law64};
ghost use Rattle.p9_wire.specs.Values.{text_law, then_law};

use crate::message::{
    Tlink, Tmkdir, Tmknod, Treaddir, Treadlink, Trename, Trenameat, Tsymlink, Tunlinkat,
};
use p9_wire::error::WireError;
use p9_wire::fields::Fields;
use p9_wire::format::WireFormat;
use p9_wire::text::P9String;
use port_base::sink::{Sink, SinkFault};
use port_base::source::Source;
use std::alloc::Global;

type SymlinkFields = (u32, (P9String, (P9String, u32)));

impl WireFormat for Tsymlink {
    ghost Plain = { ⟦<SymlinkFields as WireFormat>⟧.Plain };

    ghost view = { λ m. ⟦<SymlinkFields as WireFormat>⟧.view (m.fid, (m.name, (m.symtgt, m.gid))) };

    ghost Spells = { ⟦<SymlinkFields as WireFormat>⟧.Spells };

    ghost spelling = { ⟦<SymlinkFields as WireFormat>⟧.spelling };

    ghost IsSound = { Always };

    ghost IsReadable = { Always };

    ghost reading = { ⟦<SymlinkFields as WireFormat>⟧.reading };

    ghost lawful = { then_law law32 (then_law text_law (then_law text_law law32)) };

    fn fits(&self) -> bool {
        (&self.fid, (&self.name, (&self.symtgt, &self.gid))).fits()
    }

    fn byte_size(&self) -> u32 {
        (&self.fid, (&self.name, (&self.symtgt, &self.gid))).byte_size()
    }

    fn send<K: Sink>(&self, sink: &mut K) -> Result<(), SinkFault> {
        (&self.fid, (&self.name, (&self.symtgt, &self.gid))).send(sink)
    }

    fn decode<S: Source>(alloc: Global, source: &mut S) -> Result<Self, WireError> {
        let (fid, (name, (symtgt, gid))) = SymlinkFields::decode(alloc, source)?;
        Ok(Tsymlink {
            fid,
            name,
            symtgt,
            gid,
        })
    }
}

type MknodFields = (u32, (P9String, (u32, (u32, (u32, u32)))));

impl WireFormat for Tmknod {
    ghost Plain = { ⟦<MknodFields as WireFormat>⟧.Plain };

    ghost view = { λ m. ⟦<MknodFields as WireFormat>⟧.view
        (m.dfid, (m.name, (m.mode, (m.major, (m.minor, m.gid))))) };

    ghost Spells = { ⟦<MknodFields as WireFormat>⟧.Spells };

    ghost spelling = { ⟦<MknodFields as WireFormat>⟧.spelling };

    ghost IsSound = { Always };

    ghost IsReadable = { Always };

    ghost reading = { ⟦<MknodFields as WireFormat>⟧.reading };

    ghost lawful = { then_law law32 (then_law text_law
        (then_law law32 (then_law law32 (then_law law32 law32)))) };

    fn fits(&self) -> bool {
        (
            &self.dfid,
            (
                &self.name,
                (&self.mode, (&self.major, (&self.minor, &self.gid))),
            ),
        )
            .fits()
    }

    fn byte_size(&self) -> u32 {
        (
            &self.dfid,
            (
                &self.name,
                (&self.mode, (&self.major, (&self.minor, &self.gid))),
            ),
        )
            .byte_size()
    }

    fn send<K: Sink>(&self, sink: &mut K) -> Result<(), SinkFault> {
        (
            &self.dfid,
            (
                &self.name,
                (&self.mode, (&self.major, (&self.minor, &self.gid))),
            ),
        )
            .send(sink)
    }

    fn decode<S: Source>(alloc: Global, source: &mut S) -> Result<Self, WireError> {
        let (dfid, (name, (mode, (major, (minor, gid))))) = MknodFields::decode(alloc, source)?;
        Ok(Tmknod {
            dfid,
            name,
            mode,
            major,
            minor,
            gid,
        })
    }
}

type RenameFields = (u32, (u32, P9String));

impl WireFormat for Trename {
    ghost Plain = { ⟦<RenameFields as WireFormat>⟧.Plain };

    ghost view = { λ m. ⟦<RenameFields as WireFormat>⟧.view (m.fid, (m.dfid, m.name)) };

    ghost Spells = { ⟦<RenameFields as WireFormat>⟧.Spells };

    ghost spelling = { ⟦<RenameFields as WireFormat>⟧.spelling };

    ghost IsSound = { Always };

    ghost IsReadable = { Always };

    ghost reading = { ⟦<RenameFields as WireFormat>⟧.reading };

    ghost lawful = { then_law law32 (then_law law32 text_law) };

    fn fits(&self) -> bool {
        (&self.fid, (&self.dfid, &self.name)).fits()
    }

    fn byte_size(&self) -> u32 {
        (&self.fid, (&self.dfid, &self.name)).byte_size()
    }

    fn send<K: Sink>(&self, sink: &mut K) -> Result<(), SinkFault> {
        (&self.fid, (&self.dfid, &self.name)).send(sink)
    }

    fn decode<S: Source>(alloc: Global, source: &mut S) -> Result<Self, WireError> {
        let (fid, (dfid, name)) = RenameFields::decode(alloc, source)?;
        Ok(Trename { fid, dfid, name })
    }
}

impl WireFormat for Treadlink {
    ghost Plain = { ⟦<u32 as WireFormat>⟧.Plain };

    ghost view = { λ m. ⟦<u32 as WireFormat>⟧.view m.fid };

    ghost Spells = { ⟦<u32 as WireFormat>⟧.Spells };

    ghost spelling = { ⟦<u32 as WireFormat>⟧.spelling };

    ghost IsSound = { Always };

    ghost IsReadable = { Always };

    ghost reading = { ⟦<u32 as WireFormat>⟧.reading };

    ghost lawful = { law32 };

    fn fits(&self) -> bool {
        self.fid.fits()
    }

    fn byte_size(&self) -> u32 {
        self.fid.byte_size()
    }

    fn send<K: Sink>(&self, sink: &mut K) -> Result<(), SinkFault> {
        self.fid.send(sink)
    }

    fn decode<S: Source>(alloc: Global, source: &mut S) -> Result<Self, WireError> {
        let fid = u32::decode(alloc, source)?;
        Ok(Treadlink { fid })
    }
}

type ReaddirFields = (u32, (u64, u32));

impl WireFormat for Treaddir {
    ghost Plain = { ⟦<ReaddirFields as WireFormat>⟧.Plain };

    ghost view = { λ m. ⟦<ReaddirFields as WireFormat>⟧.view (m.fid, (m.offset, m.count)) };

    ghost Spells = { ⟦<ReaddirFields as WireFormat>⟧.Spells };

    ghost spelling = { ⟦<ReaddirFields as WireFormat>⟧.spelling };

    ghost IsSound = { Always };

    ghost IsReadable = { Always };

    ghost reading = { ⟦<ReaddirFields as WireFormat>⟧.reading };

    ghost lawful = { then_law law32 (then_law law64 law32) };

    fn fits(&self) -> bool {
        (&self.fid, (&self.offset, &self.count)).fits()
    }

    fn byte_size(&self) -> u32 {
        (&self.fid, (&self.offset, &self.count)).byte_size()
    }

    fn send<K: Sink>(&self, sink: &mut K) -> Result<(), SinkFault> {
        (&self.fid, (&self.offset, &self.count)).send(sink)
    }

    fn decode<S: Source>(alloc: Global, source: &mut S) -> Result<Self, WireError> {
        let (fid, (offset, count)) = ReaddirFields::decode(alloc, source)?;
        Ok(Treaddir { fid, offset, count })
    }
}

type LinkFields = (u32, (u32, P9String));

impl WireFormat for Tlink {
    ghost Plain = { ⟦<LinkFields as WireFormat>⟧.Plain };

    ghost view = { λ m. ⟦<LinkFields as WireFormat>⟧.view (m.dfid, (m.fid, m.name)) };

    ghost Spells = { ⟦<LinkFields as WireFormat>⟧.Spells };

    ghost spelling = { ⟦<LinkFields as WireFormat>⟧.spelling };

    ghost IsSound = { Always };

    ghost IsReadable = { Always };

    ghost reading = { ⟦<LinkFields as WireFormat>⟧.reading };

    ghost lawful = { then_law law32 (then_law law32 text_law) };

    fn fits(&self) -> bool {
        (&self.dfid, (&self.fid, &self.name)).fits()
    }

    fn byte_size(&self) -> u32 {
        (&self.dfid, (&self.fid, &self.name)).byte_size()
    }

    fn send<K: Sink>(&self, sink: &mut K) -> Result<(), SinkFault> {
        (&self.dfid, (&self.fid, &self.name)).send(sink)
    }

    fn decode<S: Source>(alloc: Global, source: &mut S) -> Result<Self, WireError> {
        let (dfid, (fid, name)) = LinkFields::decode(alloc, source)?;
        Ok(Tlink { dfid, fid, name })
    }
}

type MkdirFields = (u32, (P9String, (u32, u32)));

impl WireFormat for Tmkdir {
    ghost Plain = { ⟦<MkdirFields as WireFormat>⟧.Plain };

    ghost view = { λ m. ⟦<MkdirFields as WireFormat>⟧.view (m.dfid, (m.name, (m.mode, m.gid))) };

    ghost Spells = { ⟦<MkdirFields as WireFormat>⟧.Spells };

    ghost spelling = { ⟦<MkdirFields as WireFormat>⟧.spelling };

    ghost IsSound = { Always };

    ghost IsReadable = { Always };

    ghost reading = { ⟦<MkdirFields as WireFormat>⟧.reading };

    ghost lawful = { then_law law32 (then_law text_law (then_law law32 law32)) };

    fn fits(&self) -> bool {
        (&self.dfid, (&self.name, (&self.mode, &self.gid))).fits()
    }

    fn byte_size(&self) -> u32 {
        (&self.dfid, (&self.name, (&self.mode, &self.gid))).byte_size()
    }

    fn send<K: Sink>(&self, sink: &mut K) -> Result<(), SinkFault> {
        (&self.dfid, (&self.name, (&self.mode, &self.gid))).send(sink)
    }

    fn decode<S: Source>(alloc: Global, source: &mut S) -> Result<Self, WireError> {
        let (dfid, (name, (mode, gid))) = MkdirFields::decode(alloc, source)?;
        Ok(Tmkdir {
            dfid,
            name,
            mode,
            gid,
        })
    }
}

type RenameAtFields = (u32, (P9String, (u32, P9String)));

impl WireFormat for Trenameat {
    ghost Plain = { ⟦<RenameAtFields as WireFormat>⟧.Plain };

    ghost view = { λ m. ⟦<RenameAtFields as WireFormat>⟧.view
        (m.olddirfid, (m.oldname, (m.newdirfid, m.newname))) };

    ghost Spells = { ⟦<RenameAtFields as WireFormat>⟧.Spells };

    ghost spelling = { ⟦<RenameAtFields as WireFormat>⟧.spelling };

    ghost IsSound = { Always };

    ghost IsReadable = { Always };

    ghost reading = { ⟦<RenameAtFields as WireFormat>⟧.reading };

    ghost lawful = { then_law law32 (then_law text_law (then_law law32 text_law)) };

    fn fits(&self) -> bool {
        (
            &self.olddirfid,
            (&self.oldname, (&self.newdirfid, &self.newname)),
        )
            .fits()
    }

    fn byte_size(&self) -> u32 {
        (
            &self.olddirfid,
            (&self.oldname, (&self.newdirfid, &self.newname)),
        )
            .byte_size()
    }

    fn send<K: Sink>(&self, sink: &mut K) -> Result<(), SinkFault> {
        (
            &self.olddirfid,
            (&self.oldname, (&self.newdirfid, &self.newname)),
        )
            .send(sink)
    }

    fn decode<S: Source>(alloc: Global, source: &mut S) -> Result<Self, WireError> {
        let (olddirfid, (oldname, (newdirfid, newname))) = RenameAtFields::decode(alloc, source)?;
        Ok(Trenameat {
            olddirfid,
            oldname,
            newdirfid,
            newname,
        })
    }
}

type UnlinkAtFields = (u32, (P9String, u32));

impl WireFormat for Tunlinkat {
    ghost Plain = { ⟦<UnlinkAtFields as WireFormat>⟧.Plain };

    ghost view = { λ m. ⟦<UnlinkAtFields as WireFormat>⟧.view (m.dirfd, (m.name, m.flags)) };

    ghost Spells = { ⟦<UnlinkAtFields as WireFormat>⟧.Spells };

    ghost spelling = { ⟦<UnlinkAtFields as WireFormat>⟧.spelling };

    ghost IsSound = { Always };

    ghost IsReadable = { Always };

    ghost reading = { ⟦<UnlinkAtFields as WireFormat>⟧.reading };

    ghost lawful = { then_law law32 (then_law text_law law32) };

    fn fits(&self) -> bool {
        (&self.dirfd, (&self.name, &self.flags)).fits()
    }

    fn byte_size(&self) -> u32 {
        (&self.dirfd, (&self.name, &self.flags)).byte_size()
    }

    fn send<K: Sink>(&self, sink: &mut K) -> Result<(), SinkFault> {
        (&self.dirfd, (&self.name, &self.flags)).send(sink)
    }

    fn decode<S: Source>(alloc: Global, source: &mut S) -> Result<Self, WireError> {
        let (dirfd, (name, flags)) = UnlinkAtFields::decode(alloc, source)?;
        Ok(Tunlinkat { dirfd, name, flags })
    }
}
