//! What names an inode to a client.
ghost use Rattle.std.specs.Prelude.{◌≡◌};
ghost use Rattle.tree_model.specs.Attributes.{qid_type, qid_of};
ghost use Rattle.p9_wire.specs.Qids.{qid_of as qid_plain};

use p9_wire::qid::Qid;
use tree_model::attributes::{QTDIR, QTFILE, QTSYMLINK};
use tree_model::{Attr, Kind};

// The type byte of a qid (9P2000.L, `P9_QTDIR` and others).
fn qid_type(kind: Kind) -> u8
    ensures { result ≡ qid_type kind }
{
    match kind {
        Kind::File => QTFILE,
        Kind::Directory => QTDIR,
        Kind::Link => QTSYMLINK,
    }
}

/// The qid of an inode: its kind, the seconds of its mtime modulo 2^32, and its number.
pub fn qid_of(attr: &Attr) -> Qid
    ensures { qid_plain result ≡ qid_of attr.now }
{
    Qid {
        ty: qid_type(attr.kind),
        version: (attr.mtime.sec % 0x1_0000_0000) as u32,
        path: attr.ino,
    }
}
