// Bytes behind their length.
ghost use Rattle.std.specs.Prelude.{◌≡◌, ◌↔◌, ℕ, List, length, IsTrue, bytes_eq, IfOk};
ghost use Rattle.p9_wire.specs.Reading.{Always};
ghost use Rattle.p9_wire.specs.Values.{DataSpells, data_spelling, IsReadableData, data_at};
ghost use Rattle.p9_wire.specs.Values.{data_law};
ghost use Rattle.std.proofs.lemmas.Cmp.{nat_list_eq_equiv};
ghost use Rattle.std.specs.Cmp.{partial_equiv_from_equiv, on_per, on_equiv};

use crate::bytes::decode_bytes;
use crate::error::WireError;
use crate::fields::{Fields, Raw};
use crate::format::WireFormat;
use port_base::sink::{NoMemory, Sink, SinkFault};
use port_base::source::Source;
use std::alloc::Global;
use std::fmt;
use std::ops::{Deref, DerefMut};

/// The longest `Data` in bytes that a decoder takes.
pub const MAX_DATA_LENGTH: u32 = 33554432;

/// Bytes behind a length of four bytes.
#[derive(Drop)]
pub struct Data(pub Vec<u8>);

impl Data {
    /// A copy of the bytes.
    pub fn try_clone(&self, alloc: Global) -> Result<Data, NoMemory>
        ensures { IfOk result (λ d. d.0.items ≡ self.now.0.items) }
    {
        let bytes = self.0.to_vec(alloc).map_err(|_| NoMemory)?;
        Ok(Data(bytes))
    }
}

impl Deref for Data {
    type Target = Vec<u8>;

    ghost deref_gives = { λ d v. v ≡ d.0 };

    fn deref(&self) -> &Vec<u8> {
        &self.0
    }
}

impl DerefMut for Data {
    ghost use Rattle.std.specs.Borrow.{Lends, sem};
    ghost use Rattle.p9_wire.specs.contracts.data.Data.{the_row};
    ghost use Rattle.p9_wire.specs.Rows.{bytes_row};

    ghost deref_mut_gives = { λ d v. v ≡ d.0 };

    fn deref_mut(&mut self) -> &mut Vec<u8>
        ensures* writes_back { sem 𝓛 (Lends the_row bytes_row self.entry result
            (λ v. record { 0 = v })) }
        ensures shows { result.now ≡ self.old.0 }
    {
        &mut self.0
    }
}

impl PartialEq for Data {
    ghost eq = { λ a b. bytes_eq a.0.items b.0.items };

    ghost laws = { on_per (λ d. d.0.items) (partial_equiv_from_equiv nat_list_eq_equiv) };

    fn eq(&self, other: &Data) -> bool
        ensures test { result ≡ bytes_eq self.now.0.items other.now.0.items }
        ensures same { IsTrue result ↔ (self.now.0.items ≡ other.now.0.items) }
    {
        self.0.as_slice() == other.0.as_slice()
    }
}

impl Eq for Data {
    ghost laws = { on_equiv (λ d. d.0.items) nat_list_eq_equiv };
}

impl fmt::Debug for Data {
    fn fmt<W: fmt::Write>(&self, f: &mut fmt::Formatter<W>) -> fmt::Result {
        let n = self.0.len();
        write!(f, "Data({n} bytes)")
    }
}

impl WireFormat for Data {
    ghost Plain = { List ℕ };

    ghost view = { λ d. d.0.items };

    ghost Spells = { DataSpells };

    ghost spelling = { data_spelling };

    ghost IsSound = { Always };

    ghost IsReadable = { IsReadableData };

    ghost reading = { data_at };

    ghost lawful = { data_law };

    fn fits(&self) -> bool {
        self.0.len() <= 4294967291
    }

    fn byte_size(&self) -> u32 {
        self.0.len() as u32 + 4
    }

    fn send<K: Sink>(&self, sink: &mut K) -> Result<(), SinkFault> {
        let count = self.0.len() as u32;
        let raw = Raw { bytes: &self.0 };
        (&count, raw).send(sink)
    }

    fn decode<S: Source>(alloc: Global, source: &mut S) -> Result<Self, WireError> {
        let count = u32::decode(alloc, source)?;
        if count > MAX_DATA_LENGTH {
            return Err(WireError::InvalidData);
        }
        let bytes = decode_bytes(alloc, source, count as usize)?;
        Ok(Data(bytes))
    }
}
