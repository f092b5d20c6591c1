// The trait of values that have a spelling.
ghost use Rattle.std.specs.Prelude.{◌≡◌, ◌+◌, ◌<◌, ◌^◌, ◌↔◌, ◌++◌, ℕ, List, length, IsTrue, Ok};
ghost use Rattle.p9_wire.specs.Reading.{Reads, Decodes, Lawful};
ghost use Rattle.p9_wire.specs.Sending.{Sends, Encodes};

use crate::error::WireError;
use port_base::sink::{Sink, SinkFault};
use port_base::source::Source;
use std::alloc::Global;

pub trait WireFormat: Sized + Drop {
    /// The value without where it lies in memory.
    ghost Plain: { Type 0 };

    ghost view: { Self → Plain };

    /// Holds where the value has a spelling, however long.
    ghost Spells: { Plain → Type 0 };

    ghost spelling: { Plain → List ℕ };

    /// Holds unless a decoder gives the value to report a fault.
    ghost IsSound: { Plain → Type 0 };

    /// Holds where a decoder accepts the value.
    ghost IsReadable: { Plain → Type 0 };

    ghost reading: { Reads Plain };

    fn fits(&self) -> bool
        ensures { IsTrue result ↔ (Spells (view self.now)
            × (length (spelling (view self.now)) < 2 ^ 32)) };

    fn byte_size(&self) -> u32
        requires spells { Spells (view self.now) }
        requires short { length (spelling (view self.now)) < 2 ^ 32 }
        ensures { result ≡ length (spelling (view self.now)) };

    /// Writes a value that fits.
    fn send<K: Sink>(&self, sink: &mut K) -> Result<(), SinkFault>
        requires spells { Spells (view self.now) }
        requires short { length (spelling (view self.now)) < 2 ^ 32 }
        ensures sends { Sends (spelling (view self.now)) (K.sent sink.old) (K.sent sink.new)
            (K.room sink.old) (K.room sink.new) (K.faults sink.old) (K.faults sink.new) result }
        ensures kept { K.kept sink.new ≡ K.kept sink.old };

    fn encode<K: Sink>(&self, sink: &mut K) -> Result<(), WireError>
        ensures encodes { Encodes (Spells (view self.now)
            × (length (spelling (view self.now)) < 2 ^ 32)) (spelling (view self.now))
            (K.sent sink.old) (K.sent sink.new) (K.room sink.old) (K.room sink.new)
            (K.faults sink.old) (K.faults sink.new) result }
        ensures kept { K.kept sink.new ≡ K.kept sink.old }
    {
        if !self.fits() {
            return Err(WireError::InvalidInput);
        }
        self.send(sink)?;
        Ok(())
    }

    fn decode<S: Source>(alloc: Global, source: &mut S) -> Result<Self, WireError>
        ensures decodes { Decodes view reading (S.left source.old) (S.left source.new)
            (S.faults source.old) (S.faults source.new) result }
        ensures kept { S.kept source.new ≡ S.kept source.old }
        ensures lender { S.lender source.new ≡ S.lender source.old };

    ghost lawful: { Lawful Spells spelling IsSound IsReadable reading };
}
