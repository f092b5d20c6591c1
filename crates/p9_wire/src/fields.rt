// Fields, one after another.
ghost use Rattle.std.specs.Prelude.{◌≡◌, ◌<◌, ◌^◌, ◌+◌, ◌↔◌, ◌++◌, ℕ, List, length, IsTrue};
ghost use Rattle.p9_wire.specs.Sending.{Sends};
ghost use Rattle.p9_wire.specs.Fields.{pair_view, PairSpells, pair_spelling, pair_reading};
ghost use Rattle.p9_wire.specs.Fields.{pair_lawful};

use crate::error::WireError;
use crate::format::WireFormat;
use port_base::sink::{Sink, SinkFault, write_all};
use port_base::source::Source;
use std::alloc::Global;

/// Values that are sent one after another.
pub trait Fields {
    ghost Plain: { Type 0 };

    ghost view: { Self → Plain };

    ghost Spells: { Plain → Type 0 };

    ghost spelling: { Plain → List ℕ };

    fn fits(&self) -> bool
        ensures { IsTrue result ↔ (Spells (view self.now)
            × (length (spelling (view self.now)) < 2 ^ 32)) };

    fn byte_size(&self) -> u32
        requires spells { Spells (view self.now) }
        requires short { length (spelling (view self.now)) < 2 ^ 32 }
        ensures { result ≡ length (spelling (view self.now)) };

    fn send<K: Sink>(&self, sink: &mut K) -> Result<(), SinkFault>
        requires spells { Spells (view self.now) }
        requires short { length (spelling (view self.now)) < 2 ^ 32 }
        ensures sends { Sends (spelling (view self.now)) (K.sent sink.old) (K.sent sink.new)
            (K.room sink.old) (K.room sink.new) (K.faults sink.old) (K.faults sink.new) result }
        ensures kept { K.kept sink.new ≡ K.kept sink.old };
}

impl<T: WireFormat> Fields for &T {
    ghost Plain = { T.Plain };

    ghost view = { λ r. T.view r.now };

    ghost Spells = { T.Spells };

    ghost spelling = { T.spelling };

    fn fits(&self) -> bool {
        let value: &T = *self;
        value.fits()
    }

    fn byte_size(&self) -> u32 {
        let value: &T = *self;
        value.byte_size()
    }

    fn send<K: Sink>(&self, sink: &mut K) -> Result<(), SinkFault> {
        let value: &T = *self;
        value.send(sink)
    }
}

/// Bytes as they are.
#[derive(Drop)]
pub struct Raw<'a> {
    pub bytes: &'a [u8],
}

impl Fields for Raw<'_> {
    ghost Plain = { List ℕ };

    ghost view = { λ r. r.bytes.now };

    ghost Spells = { λ _. Unit {0} };

    ghost spelling = { λ bs. bs };

    fn fits(&self) -> bool {
        self.bytes.len() <= 4294967295
    }

    fn byte_size(&self) -> u32 {
        self.bytes.len() as u32
    }

    fn send<K: Sink>(&self, sink: &mut K) -> Result<(), SinkFault> {
        write_all(sink, self.bytes)
    }
}

impl<A: Fields, B: Fields> Fields for (A, B) {
    ghost Plain = { A.Plain × B.Plain };

    ghost view = { pair_view A.view B.view };

    ghost Spells = { PairSpells A.Spells B.Spells };

    ghost spelling = { pair_spelling A.spelling B.spelling };

    fn fits(&self) -> bool {
        if !self.0.fits() {
            return false;
        }
        if !self.1.fits() {
            return false;
        }
        u32::MAX - self.0.byte_size() >= self.1.byte_size()
    }

    fn byte_size(&self) -> u32 {
        self.0.byte_size() + self.1.byte_size()
    }

    fn send<K: Sink>(&self, sink: &mut K) -> Result<(), SinkFault> {
        self.0.send(sink)?;
        self.1.send(sink)
    }
}

impl<A: WireFormat, B: WireFormat> WireFormat for (A, B) {
    ghost Plain = { A.Plain × B.Plain };

    ghost view = { pair_view A.view B.view };

    ghost Spells = { PairSpells A.Spells B.Spells };

    ghost spelling = { pair_spelling A.spelling B.spelling };

    ghost IsSound = { PairSpells A.IsSound B.IsSound };

    ghost IsReadable = { PairSpells A.IsReadable B.IsReadable };

    ghost reading = { pair_reading A.reading B.reading };

    ghost lawful = { pair_lawful A.Spells A.spelling A.IsSound A.IsReadable A.reading B.Spells
        B.spelling B.IsSound B.IsReadable B.reading A.lawful B.lawful };

    fn fits(&self) -> bool {
        (&self.0, &self.1).fits()
    }

    fn byte_size(&self) -> u32 {
        (&self.0, &self.1).byte_size()
    }

    fn send<K: Sink>(&self, sink: &mut K) -> Result<(), SinkFault> {
        (&self.0, &self.1).send(sink)
    }

    fn decode<S: Source>(alloc: Global, source: &mut S) -> Result<Self, WireError> {
        let first = A::decode(alloc, source)?;
        let second = B::decode(alloc, source)?;
        Ok((first, second))
    }
}
