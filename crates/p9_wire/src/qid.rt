// What names a version of a file.
ghost use Rattle.std.specs.Prelude.{ℕ};
ghost use Rattle.p9_wire.specs.Qids.{qid_of};
ghost use Rattle.p9_wire.specs.Reading.{Always};
ghost use Rattle.p9_wire.specs.Values.{QidSpells, qid_spelling, qid_at, qid_law};

use crate::error::WireError;
use crate::fields::Fields;
use crate::format::WireFormat;
use port_base::sink::{Sink, SinkFault};
use port_base::source::Source;
use std::alloc::Global;

/// What a server calls a file: 13 bytes, ty 1, version 4, path 8.
///
/// `ty` has the bit 0x80 for a directory and 0x02 for a symbolic link. `path` is the same for the
/// same file alone.
#[derive(Clone, Copy, Debug, PartialEq, Eq)]
pub struct Qid {
    pub ty: u8,
    pub version: u32,
    pub path: u64,
}

impl WireFormat for Qid {
    ghost Plain = { ℕ × (ℕ × ℕ) };

    ghost view = { qid_of };

    ghost Spells = { QidSpells };

    ghost spelling = { qid_spelling };

    ghost IsSound = { Always };

    ghost IsReadable = { Always };

    ghost reading = { qid_at };

    ghost lawful = { qid_law };

    fn fits(&self) -> bool {
        (&self.ty, (&self.version, &self.path)).fits()
    }

    fn byte_size(&self) -> u32 {
        (&self.ty, (&self.version, &self.path)).byte_size()
    }

    fn send<K: Sink>(&self, sink: &mut K) -> Result<(), SinkFault> {
        (&self.ty, (&self.version, &self.path)).send(sink)
    }

    fn decode<S: Source>(alloc: Global, source: &mut S) -> Result<Self, WireError> {
        let (ty, (version, path)) = <(u8, (u32, u64))>::decode(alloc, source)?;
        Ok(Qid { ty, version, path })
    }
}
