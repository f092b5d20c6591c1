// Fields of the answers on names in directories.
ghost use Rattle.p9_wire.specs.Reading.{Always};
ghost use Rattle.p9_wire.specs.Values.{IsReadableData, data_law, qid_law, text_law};

use crate::message::{Rmkdir, Rmknod, Rreaddir, Rreadlink, Rsymlink};
use p9_wire::data::Data;
use p9_wire::error::WireError;
use p9_wire::format::WireFormat;
use p9_wire::qid::Qid;
use p9_wire::text::P9String;
use port_base::sink::{Sink, SinkFault};
use port_base::source::Source;
use std::alloc::Global;

impl WireFormat for Rsymlink {
    ghost Plain = { ⟦<Qid as WireFormat>⟧.Plain };

    ghost view = { λ m. ⟦<Qid as WireFormat>⟧.view m.qid };

    ghost Spells = { ⟦<Qid as WireFormat>⟧.Spells };

    ghost spelling = { ⟦<Qid as WireFormat>⟧.spelling };

    ghost IsSound = { Always };

    ghost IsReadable = { Always };

    ghost reading = { ⟦<Qid as WireFormat>⟧.reading };

    ghost lawful = { qid_law };

    fn fits(&self) -> bool {
        self.qid.fits()
    }

    fn byte_size(&self) -> u32 {
        self.qid.byte_size()
    }

    fn send<K: Sink>(&self, sink: &mut K) -> Result<(), SinkFault> {
        self.qid.send(sink)
    }

    fn decode<S: Source>(alloc: Global, source: &mut S) -> Result<Self, WireError> {
        let qid = Qid::decode(alloc, source)?;
        Ok(Rsymlink { qid })
    }
}

impl WireFormat for Rmknod {
    ghost Plain = { ⟦<Qid as WireFormat>⟧.Plain };

    ghost view = { λ m. ⟦<Qid as WireFormat>⟧.view m.qid };

    ghost Spells = { ⟦<Qid as WireFormat>⟧.Spells };

    ghost spelling = { ⟦<Qid as WireFormat>⟧.spelling };

    ghost IsSound = { Always };

    ghost IsReadable = { Always };

    ghost reading = { ⟦<Qid as WireFormat>⟧.reading };

    ghost lawful = { qid_law };

    fn fits(&self) -> bool {
        self.qid.fits()
    }

    fn byte_size(&self) -> u32 {
        self.qid.byte_size()
    }

    fn send<K: Sink>(&self, sink: &mut K) -> Result<(), SinkFault> {
        self.qid.send(sink)
    }

    fn decode<S: Source>(alloc: Global, source: &mut S) -> Result<Self, WireError> {
        let qid = Qid::decode(alloc, source)?;
        Ok(Rmknod { qid })
    }
}

impl WireFormat for Rreadlink {
    ghost Plain = { ⟦<P9String as WireFormat>⟧.Plain };

    ghost view = { λ m. ⟦<P9String as WireFormat>⟧.view m.target };

    ghost Spells = { ⟦<P9String as WireFormat>⟧.Spells };

    ghost spelling = { ⟦<P9String as WireFormat>⟧.spelling };

    ghost IsSound = { Always };

    ghost IsReadable = { Always };

    ghost reading = { ⟦<P9String as WireFormat>⟧.reading };

    ghost lawful = { text_law };

    fn fits(&self) -> bool {
        self.target.fits()
    }

    fn byte_size(&self) -> u32 {
        self.target.byte_size()
    }

    fn send<K: Sink>(&self, sink: &mut K) -> Result<(), SinkFault> {
        self.target.send(sink)
    }

    fn decode<S: Source>(alloc: Global, source: &mut S) -> Result<Self, WireError> {
        let target = P9String::decode(alloc, source)?;
        Ok(Rreadlink { target })
    }
}

impl WireFormat for Rreaddir {
    ghost Plain = { ⟦<Data as WireFormat>⟧.Plain };

    ghost view = { λ m. ⟦<Data as WireFormat>⟧.view m.payload };

    ghost Spells = { ⟦<Data as WireFormat>⟧.Spells };

    ghost spelling = { ⟦<Data as WireFormat>⟧.spelling };

    ghost IsSound = { Always };

    ghost IsReadable = { λ p. IsReadableData p };

    ghost reading = { ⟦<Data as WireFormat>⟧.reading };

    ghost lawful = { data_law };

    fn fits(&self) -> bool {
        self.payload.fits()
    }

    fn byte_size(&self) -> u32 {
        self.payload.byte_size()
    }

    fn send<K: Sink>(&self, sink: &mut K) -> Result<(), SinkFault> {
        self.payload.send(sink)
    }

    fn decode<S: Source>(alloc: Global, source: &mut S) -> Result<Self, WireError> {
        let payload = Data::decode(alloc, source)?;
        Ok(Rreaddir { payload })
    }
}

impl WireFormat for Rmkdir {
    ghost Plain = { ⟦<Qid as WireFormat>⟧.Plain };

    ghost view = { λ m. ⟦<Qid as WireFormat>⟧.view m.qid };

    ghost Spells = { ⟦<Qid as WireFormat>⟧.Spells };

    ghost spelling = { ⟦<Qid as WireFormat>⟧.spelling };

    ghost IsSound = { Always };

    ghost IsReadable = { Always };

    ghost reading = { ⟦<Qid as WireFormat>⟧.reading };

    ghost lawful = { qid_law };

    fn fits(&self) -> bool {
        self.qid.fits()
    }

    fn byte_size(&self) -> u32 {
        self.qid.byte_size()
    }

    fn send<K: Sink>(&self, sink: &mut K) -> Result<(), SinkFault> {
        self.qid.send(sink)
    }

    fn decode<S: Source>(alloc: Global, source: &mut S) -> Result<Self, WireError> {
        let qid = Qid::decode(alloc, source)?;
        Ok(Rmkdir { qid })
    }
}
