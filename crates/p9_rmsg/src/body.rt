// The bodies of messages, by their types.
ghost use Rattle.p9_rmsg.specs.Replies.{Reply, reply_of, reply_kind, ReplySpells, reply_spelling};
ghost use Rattle.p9_rmsg.specs.Replies.{IsReadableReply, reply_reading};
ghost use Rattle.p9_rmsg.specs.ReplyLaws.{replies_lawful};

use crate::kind::{
    RATTACH, RAUTH, RCLUNK, RFLUSH, RFSYNC, RGETATTR, RGETLOCK, RLCREATE, RLERROR, RLINK, RLOCK,
    RLOPEN, RMKDIR, RMKNOD, RREAD, RREADDIR, RREADLINK, RREMOVE, RRENAME, RRENAMEAT, RSETATTR,
    RSTATFS, RSYMLINK, RUNLINKAT, RVERSION, RWALK, RWRITE, RXATTRCREATE, RXATTRWALK,
};
use crate::message::{
    Rattach, Rauth, Rgetattr, Rgetlock, Rlcreate, Rlerror, Rlock, Rlopen, Rmessage, Rmkdir, Rmknod,
    Rread, Rreaddir, Rreadlink, Rstatfs, Rsymlink, Rversion, Rwalk, Rwrite, Rxattrwalk,
};
use p9_wire::error::WireError;
use p9_wire::format::WireFormat;
use p9_wire::frame::Framed;
use port_base::sink::{Sink, SinkFault};
use port_base::source::Source;
use std::alloc::Global;

// A value of the fields of a message, or the value of no fields.
macro_rules! of_fields {
    ($message:expr, $fields:ident => $value:expr, $none:expr) => {
        match $message {
            Rmessage::Lerror($fields) => $value,
            Rmessage::Statfs($fields) => $value,
            Rmessage::Lopen($fields) => $value,
            Rmessage::Lcreate($fields) => $value,
            Rmessage::Symlink($fields) => $value,
            Rmessage::Mknod($fields) => $value,
            Rmessage::Rename => $none,
            Rmessage::Readlink($fields) => $value,
            Rmessage::GetAttr($fields) => $value,
            Rmessage::SetAttr => $none,
            Rmessage::XattrWalk($fields) => $value,
            Rmessage::XattrCreate => $none,
            Rmessage::Readdir($fields) => $value,
            Rmessage::Fsync => $none,
            Rmessage::Lock($fields) => $value,
            Rmessage::GetLock($fields) => $value,
            Rmessage::Link => $none,
            Rmessage::Mkdir($fields) => $value,
            Rmessage::RenameAt => $none,
            Rmessage::UnlinkAt => $none,
            Rmessage::Version($fields) => $value,
            Rmessage::Auth($fields) => $value,
            Rmessage::Attach($fields) => $value,
            Rmessage::Flush => $none,
            Rmessage::Walk($fields) => $value,
            Rmessage::Read($fields) => $value,
            Rmessage::Write($fields) => $value,
            Rmessage::Clunk => $none,
            Rmessage::Remove => $none,
        }
    };
}

impl Framed for Rmessage {
    ghost Plain = { Reply };

    ghost view = { reply_of };

    ghost kind_of = { reply_kind };

    ghost Spells = { ReplySpells };

    ghost spelling = { reply_spelling };

    ghost IsReadable = { IsReadableReply };

    ghost reading = { reply_reading };

    ghost lawful = { replies_lawful };

    fn kind(&self) -> u8 {
        match self {
            Rmessage::Lerror(_) => RLERROR,
            Rmessage::Statfs(_) => RSTATFS,
            Rmessage::Lopen(_) => RLOPEN,
            Rmessage::Lcreate(_) => RLCREATE,
            Rmessage::Symlink(_) => RSYMLINK,
            Rmessage::Mknod(_) => RMKNOD,
            Rmessage::Rename => RRENAME,
            Rmessage::Readlink(_) => RREADLINK,
            Rmessage::GetAttr(_) => RGETATTR,
            Rmessage::SetAttr => RSETATTR,
            Rmessage::XattrWalk(_) => RXATTRWALK,
            Rmessage::XattrCreate => RXATTRCREATE,
            Rmessage::Readdir(_) => RREADDIR,
            Rmessage::Fsync => RFSYNC,
            Rmessage::Lock(_) => RLOCK,
            Rmessage::GetLock(_) => RGETLOCK,
            Rmessage::Link => RLINK,
            Rmessage::Mkdir(_) => RMKDIR,
            Rmessage::RenameAt => RRENAMEAT,
            Rmessage::UnlinkAt => RUNLINKAT,
            Rmessage::Version(_) => RVERSION,
            Rmessage::Auth(_) => RAUTH,
            Rmessage::Attach(_) => RATTACH,
            Rmessage::Flush => RFLUSH,
            Rmessage::Walk(_) => RWALK,
            Rmessage::Read(_) => RREAD,
            Rmessage::Write(_) => RWRITE,
            Rmessage::Clunk => RCLUNK,
            Rmessage::Remove => RREMOVE,
        }
    }

    fn body_fits(&self) -> bool {
        of_fields!(self, fields => fields.fits(), true)
    }

    fn body_size(&self) -> u32 {
        of_fields!(self, fields => fields.byte_size(), 0)
    }

    fn send_body<K: Sink>(&self, sink: &mut K) -> Result<(), SinkFault> {
        of_fields!(self, fields => fields.send(sink), Ok(()))
    }

    fn decode_body<S: Source>(alloc: Global, source: &mut S, kind: u8) -> Result<Self, WireError> {
        match kind {
            RLERROR => Ok(Rmessage::Lerror(Rlerror::decode(alloc, source)?)),
            RSTATFS => Ok(Rmessage::Statfs(Rstatfs::decode(alloc, source)?)),
            RLOPEN => Ok(Rmessage::Lopen(Rlopen::decode(alloc, source)?)),
            RLCREATE => Ok(Rmessage::Lcreate(Rlcreate::decode(alloc, source)?)),
            RSYMLINK => Ok(Rmessage::Symlink(Rsymlink::decode(alloc, source)?)),
            RMKNOD => Ok(Rmessage::Mknod(Rmknod::decode(alloc, source)?)),
            RRENAME => Ok(Rmessage::Rename),
            RREADLINK => Ok(Rmessage::Readlink(Rreadlink::decode(alloc, source)?)),
            RGETATTR => Ok(Rmessage::GetAttr(Rgetattr::decode(alloc, source)?)),
            RSETATTR => Ok(Rmessage::SetAttr),
            RXATTRWALK => Ok(Rmessage::XattrWalk(Rxattrwalk::decode(alloc, source)?)),
            RXATTRCREATE => Ok(Rmessage::XattrCreate),
            RREADDIR => Ok(Rmessage::Readdir(Rreaddir::decode(alloc, source)?)),
            RFSYNC => Ok(Rmessage::Fsync),
            RLOCK => Ok(Rmessage::Lock(Rlock::decode(alloc, source)?)),
            RGETLOCK => Ok(Rmessage::GetLock(Rgetlock::decode(alloc, source)?)),
            RLINK => Ok(Rmessage::Link),
            RMKDIR => Ok(Rmessage::Mkdir(Rmkdir::decode(alloc, source)?)),
            RRENAMEAT => Ok(Rmessage::RenameAt),
            RUNLINKAT => Ok(Rmessage::UnlinkAt),
            RVERSION => Ok(Rmessage::Version(Rversion::decode(alloc, source)?)),
            RAUTH => Ok(Rmessage::Auth(Rauth::decode(alloc, source)?)),
            RATTACH => Ok(Rmessage::Attach(Rattach::decode(alloc, source)?)),
            RFLUSH => Ok(Rmessage::Flush),
            RWALK => Ok(Rmessage::Walk(Rwalk::decode(alloc, source)?)),
            RREAD => Ok(Rmessage::Read(Rread::decode(alloc, source)?)),
            RWRITE => Ok(Rmessage::Write(Rwrite::decode(alloc, source)?)),
            RCLUNK => Ok(Rmessage::Clunk),
            RREMOVE => Ok(Rmessage::Remove),
            _ => Err(WireError::InvalidData),
        }
    }
}
