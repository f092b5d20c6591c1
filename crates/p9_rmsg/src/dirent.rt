// Entries of a directory, as Rreaddir has them one after another.
ghost use Rattle.p9_wire.specs.Reading.{Always};
ghost use Rattle.p9_rmsg.specs.Dirents.{Entry, dirent_of, DirentSpells, dirent_spelling, dirent_at};
ghost use Rattle.p9_rmsg.specs.Dirents.{dirent_law};

use p9_wire::error::WireError;
use p9_wire::fields::Fields;
use p9_wire::format::WireFormat;
use p9_wire::qid::Qid;
use p9_wire::text::P9String;
use port_base::sink::{Sink, SinkFault};
use port_base::source::Source;
use std::alloc::Global;

/// An entry of a directory: qid 13, offset 8, ty 1, name.
///
/// `offset` is the cookie to read on from after this entry, `ty` the file's type as `d_type` of
/// readdir(3) tells it.
#[derive(Debug, Drop)]
pub struct Dirent {
    pub qid: Qid,
    pub offset: u64,
    pub ty: u8,
    pub name: P9String,
}

impl WireFormat for Dirent {
    ghost Plain = { Entry };

    ghost view = { dirent_of };

    ghost Spells = { DirentSpells };

    ghost spelling = { dirent_spelling };

    ghost IsSound = { Always };

    ghost IsReadable = { Always };

    ghost reading = { dirent_at };

    ghost lawful = { dirent_law };

    fn fits(&self) -> bool {
        (&self.qid, (&self.offset, (&self.ty, &self.name))).fits()
    }

    fn byte_size(&self) -> u32 {
        (&self.qid, (&self.offset, (&self.ty, &self.name))).byte_size()
    }

    fn send<K: Sink>(&self, sink: &mut K) -> Result<(), SinkFault> {
        (&self.qid, (&self.offset, (&self.ty, &self.name))).send(sink)
    }

    fn decode<S: Source>(alloc: Global, source: &mut S) -> Result<Self, WireError> {
        let (qid, (offset, (ty, name))) = <(Qid, (u64, (u8, P9String)))>::decode(alloc, source)?;
        Ok(Dirent {
            qid,
            offset,
            ty,
            name,
        })
    }
}
