// Fields of the answers that begin a session or name files, and of refusals.
ghost use Rattle.p9_wire.specs.Reading.{Always};
ghost use Rattle.p9_wire.specs.Numbers.{law32};
ghost use Rattle.p9_wire.specs.Values.{qid_law, qids_law, text_law, then_law};

use crate::message::{Rattach, Rauth, Rlerror, Rversion, Rwalk};
use p9_wire::error::WireError;
use p9_wire::fields::Fields;
use p9_wire::format::WireFormat;
use p9_wire::qid::Qid;
use p9_wire::text::P9String;
use port_base::sink::{Sink, SinkFault};
use port_base::source::Source;
use std::alloc::Global;

impl WireFormat for Rlerror {
    ghost Plain = { ⟦<u32 as WireFormat>⟧.Plain };

    ghost view = { λ m. ⟦<u32 as WireFormat>⟧.view m.ecode };

    ghost Spells = { ⟦<u32 as WireFormat>⟧.Spells };

    ghost spelling = { ⟦<u32 as WireFormat>⟧.spelling };

    ghost IsSound = { Always };

    ghost IsReadable = { Always };

    ghost reading = { ⟦<u32 as WireFormat>⟧.reading };

    ghost lawful = { law32 };

    fn fits(&self) -> bool {
        self.ecode.fits()
    }

    fn byte_size(&self) -> u32 {
        self.ecode.byte_size()
    }

    fn send<K: Sink>(&self, sink: &mut K) -> Result<(), SinkFault> {
        self.ecode.send(sink)
    }

    fn decode<S: Source>(alloc: Global, source: &mut S) -> Result<Self, WireError> {
        let ecode = u32::decode(alloc, source)?;
        Ok(Rlerror { ecode })
    }
}

type VersionFields = (u32, P9String);

impl WireFormat for Rversion {
    ghost Plain = { ⟦<VersionFields as WireFormat>⟧.Plain };

    ghost view = { λ m. ⟦<VersionFields as WireFormat>⟧.view (m.msize, m.version) };

    ghost Spells = { ⟦<VersionFields as WireFormat>⟧.Spells };

    ghost spelling = { ⟦<VersionFields as WireFormat>⟧.spelling };

    ghost IsSound = { Always };

    ghost IsReadable = { Always };

    ghost reading = { ⟦<VersionFields as WireFormat>⟧.reading };

    ghost lawful = { then_law law32 text_law };

    fn fits(&self) -> bool {
        (&self.msize, &self.version).fits()
    }

    fn byte_size(&self) -> u32 {
        (&self.msize, &self.version).byte_size()
    }

    fn send<K: Sink>(&self, sink: &mut K) -> Result<(), SinkFault> {
        (&self.msize, &self.version).send(sink)
    }

    fn decode<S: Source>(alloc: Global, source: &mut S) -> Result<Self, WireError> {
        let (msize, version) = VersionFields::decode(alloc, source)?;
        Ok(Rversion { msize, version })
    }
}

impl WireFormat for Rauth {
    ghost Plain = { ⟦<Qid as WireFormat>⟧.Plain };

    ghost view = { λ m. ⟦<Qid as WireFormat>⟧.view m.aqid };

    ghost Spells = { ⟦<Qid as WireFormat>⟧.Spells };

    ghost spelling = { ⟦<Qid as WireFormat>⟧.spelling };

    ghost IsSound = { Always };

    ghost IsReadable = { Always };

    ghost reading = { ⟦<Qid as WireFormat>⟧.reading };

    ghost lawful = { qid_law };

    fn fits(&self) -> bool {
        self.aqid.fits()
    }

    fn byte_size(&self) -> u32 {
        self.aqid.byte_size()
    }

    fn send<K: Sink>(&self, sink: &mut K) -> Result<(), SinkFault> {
        self.aqid.send(sink)
    }

    fn decode<S: Source>(alloc: Global, source: &mut S) -> Result<Self, WireError> {
        let aqid = Qid::decode(alloc, source)?;
        Ok(Rauth { aqid })
    }
}

impl WireFormat for Rattach {
    ghost Plain = { ⟦<Qid as WireFormat>⟧.Plain };

    ghost view = { λ m. ⟦<Qid as WireFormat>⟧.view m.qid };

    ghost Spells = { ⟦<Qid as WireFormat>⟧.Spells };

    ghost spelling = { ⟦<Qid as WireFormat>⟧.spelling };

    ghost IsSound = { Always };

    ghost IsReadable = { Always };

    ghost reading = { ⟦<Qid as WireFormat>⟧.reading };

    ghost lawful = { qid_law };

    fn fits(&self) -> bool {
        self.qid.fits()
    }

    fn byte_size(&self) -> u32 {
        self.qid.byte_size()
    }

    fn send<K: Sink>(&self, sink: &mut K) -> Result<(), SinkFault> {
        self.qid.send(sink)
    }

    fn decode<S: Source>(alloc: Global, source: &mut S) -> Result<Self, WireError> {
        let qid = Qid::decode(alloc, source)?;
        Ok(Rattach { qid })
    }
}

impl WireFormat for Rwalk {
    ghost Plain = { ⟦<Vec<Qid> as WireFormat>⟧.Plain };

    ghost view = { λ m. ⟦<Vec<Qid> as WireFormat>⟧.view m.wqids };

    ghost Spells = { ⟦<Vec<Qid> as WireFormat>⟧.Spells };

    ghost spelling = { ⟦<Vec<Qid> as WireFormat>⟧.spelling };

    ghost IsSound = { Always };

    ghost IsReadable = { Always };

    ghost reading = { ⟦<Vec<Qid> as WireFormat>⟧.reading };

    ghost lawful = { qids_law };

    fn fits(&self) -> bool {
        self.wqids.fits()
    }

    fn byte_size(&self) -> u32 {
        self.wqids.byte_size()
    }

    fn send<K: Sink>(&self, sink: &mut K) -> Result<(), SinkFault> {
        self.wqids.send(sink)
    }

    fn decode<S: Source>(alloc: Global, source: &mut S) -> Result<Self, WireError> {
        let wqids = <Vec<Qid>>::decode(alloc, source)?;
        Ok(Rwalk { wqids })
    }
}
