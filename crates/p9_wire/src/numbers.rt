// Numbers, the least byte first.
ghost use Rattle.std.specs.Prelude.{◌≡◌, ◌<◌, ◌^◌, ◌+◌, ℕ, List, length, IfErr};
ghost use Rattle.std.specs.Int.{w16, w32, w64, from_le_bytes, to_le_bytes};
ghost use Rattle.p9_wire.specs.Reading.{Always, Decodes, EndsShort, bytes_at, fixed_at};
ghost use Rattle.p9_wire.specs.Numbers.{code8, code16, code32, code64, byte_from, byte_to};
ghost use Rattle.p9_wire.specs.Numbers.{fixed_lawful};

use crate::error::WireError;
use crate::format::WireFormat;
use port_base::sink::{Sink, SinkFault, write_all};
use port_base::source::{Source, read_full};
use std::alloc::Global;

/// Fills the buffer. `UnexpectedEof`: the source ended before, and all its bytes were taken.
pub(crate) fn fill<S: Source>(source: &mut S, buf: &mut [u8]) -> Result<(), WireError>
    ensures decodes { Decodes (λ _. buf.new) (bytes_at (length buf.new)) (S.left source.old)
        (S.left source.new)
        (S.faults source.old) (S.faults source.new) result }
    ensures stop { IfErr result (EndsShort (S.left source.new)) }
    ensures kept { S.kept source.new ≡ S.kept source.old }
    ensures lender { S.lender source.new ≡ S.lender source.old }
{
    let n = read_full(source, buf)?;
    if n < buf.len() {
        return Err(WireError::UnexpectedEof);
    }
    Ok(())
}

impl WireFormat for u32 {
    ghost Plain = { ℕ };

    ghost view = { λ n. n };

    ghost Spells = { λ n. n < 2 ^ 32 };

    ghost spelling = { to_le_bytes w32 };

    ghost IsSound = { Always };

    ghost IsReadable = { Always };

    ghost reading = { fixed_at 4 (from_le_bytes w32) };

    ghost lawful = { fixed_lawful 4 (from_le_bytes w32) (to_le_bytes w32) (2 ^ 32) code32 };

    fn fits(&self) -> bool {
        let _number = *self;
        true
    }

    fn byte_size(&self) -> u32 {
        4
    }

    fn send<K: Sink>(&self, sink: &mut K) -> Result<(), SinkFault> {
        write_all(sink, &self.to_le_bytes())
    }

    fn decode<S: Source>(_alloc: Global, source: &mut S) -> Result<Self, WireError> {
        let mut bytes = [0; 4];
        fill(source, &mut bytes)?;
        Ok(u32::from_le_bytes(bytes))
    }
}

impl WireFormat for u16 {
    ghost Plain = { ℕ };

    ghost view = { λ n. n };

    ghost Spells = { λ n. n < 2 ^ 16 };

    ghost spelling = { to_le_bytes w16 };

    ghost IsSound = { Always };

    ghost IsReadable = { Always };

    ghost reading = { fixed_at 2 (from_le_bytes w16) };

    ghost lawful = { fixed_lawful 2 (from_le_bytes w16) (to_le_bytes w16) (2 ^ 16) code16 };

    fn fits(&self) -> bool {
        let _number = *self;
        true
    }

    fn byte_size(&self) -> u32 {
        2
    }

    fn send<K: Sink>(&self, sink: &mut K) -> Result<(), SinkFault> {
        write_all(sink, &self.to_le_bytes())
    }

    fn decode<S: Source>(_alloc: Global, source: &mut S) -> Result<Self, WireError> {
        let mut bytes = [0; 2];
        fill(source, &mut bytes)?;
        Ok(u16::from_le_bytes(bytes))
    }
}

impl WireFormat for u64 {
    ghost Plain = { ℕ };

    ghost view = { λ n. n };

    ghost Spells = { λ n. n < 2 ^ 64 };

    ghost spelling = { to_le_bytes w64 };

    ghost IsSound = { Always };

    ghost IsReadable = { Always };

    ghost reading = { fixed_at 8 (from_le_bytes w64) };

    ghost lawful = { fixed_lawful 8 (from_le_bytes w64) (to_le_bytes w64) (2 ^ 64) code64 };

    fn fits(&self) -> bool {
        let _number = *self;
        true
    }

    fn byte_size(&self) -> u32 {
        8
    }

    fn send<K: Sink>(&self, sink: &mut K) -> Result<(), SinkFault> {
        write_all(sink, &self.to_le_bytes())
    }

    fn decode<S: Source>(_alloc: Global, source: &mut S) -> Result<Self, WireError> {
        let mut bytes = [0; 8];
        fill(source, &mut bytes)?;
        Ok(u64::from_le_bytes(bytes))
    }
}

impl WireFormat for u8 {
    ghost Plain = { ℕ };

    ghost view = { λ n. n };

    ghost Spells = { λ n. n < 2 ^ 8 };

    ghost spelling = { byte_to };

    ghost IsSound = { Always };

    ghost IsReadable = { Always };

    ghost reading = { fixed_at 1 byte_from };

    ghost lawful = { fixed_lawful 1 byte_from byte_to (2 ^ 8) code8 };

    fn fits(&self) -> bool {
        let _number = *self;
        true
    }

    fn byte_size(&self) -> u32 {
        1
    }

    fn send<K: Sink>(&self, sink: &mut K) -> Result<(), SinkFault> {
        write_all(sink, &[*self])
    }

    fn decode<S: Source>(_alloc: Global, source: &mut S) -> Result<Self, WireError> {
        let mut bytes = [0; 1];
        fill(source, &mut bytes)?;
        Ok(bytes[0])
    }
}
