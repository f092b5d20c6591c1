// The bodies of messages, by their types.
ghost use Rattle.p9_tmsg.specs.Messages.{Message, message_of, message_kind, MessageSpells};
ghost use Rattle.p9_tmsg.specs.Messages.{message_spelling, IsReadableMessage, message_reading};
ghost use Rattle.p9_tmsg.specs.MessageLaws.{messages_lawful};

use crate::kind::{
    TATTACH, TAUTH, TCLUNK, TFLUSH, TFSYNC, TGETATTR, TGETLOCK, TLCREATE, TLINK, TLOCK, TLOPEN,
    TMKDIR, TMKNOD, TREAD, TREADDIR, TREADLINK, TREMOVE, TRENAME, TRENAMEAT, TSETATTR, TSTATFS,
    TSYMLINK, TUNLINKAT, TVERSION, TWALK, TWRITE, TXATTRCREATE, TXATTRWALK,
};
use crate::message::{
    Tattach, Tauth, Tclunk, Tflush, Tfsync, Tgetattr, Tgetlock, Tlcreate, Tlink, Tlock, Tlopen,
    Tmessage, Tmkdir, Tmknod, Tread, Treaddir, Treadlink, Tremove, Trename, Trenameat, Tsetattr,
    Tstatfs, Tsymlink, Tunlinkat, Tversion, Twalk, Twrite, Txattrcreate, Txattrwalk,
};
use p9_wire::error::WireError;
use p9_wire::format::WireFormat;
use p9_wire::frame::Framed;
use port_base::sink::{Sink, SinkFault};
use port_base::source::Source;
use std::alloc::Global;

// A value of the fields of a message, whichever it is.
macro_rules! of_fields {
    ($message:expr, $fields:ident => $value:expr) => {
        match $message {
            Tmessage::Statfs($fields) => $value,
            Tmessage::Lopen($fields) => $value,
            Tmessage::Lcreate($fields) => $value,
            Tmessage::Symlink($fields) => $value,
            Tmessage::Mknod($fields) => $value,
            Tmessage::Rename($fields) => $value,
            Tmessage::Readlink($fields) => $value,
            Tmessage::GetAttr($fields) => $value,
            Tmessage::SetAttr($fields) => $value,
            Tmessage::XattrWalk($fields) => $value,
            Tmessage::XattrCreate($fields) => $value,
            Tmessage::Readdir($fields) => $value,
            Tmessage::Fsync($fields) => $value,
            Tmessage::Lock($fields) => $value,
            Tmessage::GetLock($fields) => $value,
            Tmessage::Link($fields) => $value,
            Tmessage::Mkdir($fields) => $value,
            Tmessage::RenameAt($fields) => $value,
            Tmessage::UnlinkAt($fields) => $value,
            Tmessage::Version($fields) => $value,
            Tmessage::Auth($fields) => $value,
            Tmessage::Attach($fields) => $value,
            Tmessage::Flush($fields) => $value,
            Tmessage::Walk($fields) => $value,
            Tmessage::Read($fields) => $value,
            Tmessage::Write($fields) => $value,
            Tmessage::Clunk($fields) => $value,
            Tmessage::Remove($fields) => $value,
        }
    };
}

impl Framed for Tmessage {
    ghost Plain = { Message };

    ghost view = { message_of };

    ghost kind_of = { message_kind };

    ghost Spells = { MessageSpells };

    ghost spelling = { message_spelling };

    ghost IsReadable = { IsReadableMessage };

    ghost reading = { message_reading };

    ghost lawful = { messages_lawful };

    fn kind(&self) -> u8 {
        match self {
            Tmessage::Statfs(_) => TSTATFS,
            Tmessage::Lopen(_) => TLOPEN,
            Tmessage::Lcreate(_) => TLCREATE,
            Tmessage::Symlink(_) => TSYMLINK,
            Tmessage::Mknod(_) => TMKNOD,
            Tmessage::Rename(_) => TRENAME,
            Tmessage::Readlink(_) => TREADLINK,
            Tmessage::GetAttr(_) => TGETATTR,
            Tmessage::SetAttr(_) => TSETATTR,
            Tmessage::XattrWalk(_) => TXATTRWALK,
            Tmessage::XattrCreate(_) => TXATTRCREATE,
            Tmessage::Readdir(_) => TREADDIR,
            Tmessage::Fsync(_) => TFSYNC,
            Tmessage::Lock(_) => TLOCK,
            Tmessage::GetLock(_) => TGETLOCK,
            Tmessage::Link(_) => TLINK,
            Tmessage::Mkdir(_) => TMKDIR,
            Tmessage::RenameAt(_) => TRENAMEAT,
            Tmessage::UnlinkAt(_) => TUNLINKAT,
            Tmessage::Version(_) => TVERSION,
            Tmessage::Auth(_) => TAUTH,
            Tmessage::Attach(_) => TATTACH,
            Tmessage::Flush(_) => TFLUSH,
            Tmessage::Walk(_) => TWALK,
            Tmessage::Read(_) => TREAD,
            Tmessage::Write(_) => TWRITE,
            Tmessage::Clunk(_) => TCLUNK,
            Tmessage::Remove(_) => TREMOVE,
        }
    }

    fn body_fits(&self) -> bool {
        of_fields!(self, fields => fields.fits())
    }

    fn body_size(&self) -> u32 {
        of_fields!(self, fields => fields.byte_size())
    }

    fn send_body<K: Sink>(&self, sink: &mut K) -> Result<(), SinkFault> {
        of_fields!(self, fields => fields.send(sink))
    }

    fn decode_body<S: Source>(alloc: Global, source: &mut S, kind: u8) -> Result<Self, WireError> {
        match kind {
            TSTATFS => Ok(Tmessage::Statfs(Tstatfs::decode(alloc, source)?)),
            TLOPEN => Ok(Tmessage::Lopen(Tlopen::decode(alloc, source)?)),
            TLCREATE => Ok(Tmessage::Lcreate(Tlcreate::decode(alloc, source)?)),
            TSYMLINK => Ok(Tmessage::Symlink(Tsymlink::decode(alloc, source)?)),
            TMKNOD => Ok(Tmessage::Mknod(Tmknod::decode(alloc, source)?)),
            TRENAME => Ok(Tmessage::Rename(Trename::decode(alloc, source)?)),
            TREADLINK => Ok(Tmessage::Readlink(Treadlink::decode(alloc, source)?)),
            TGETATTR => Ok(Tmessage::GetAttr(Tgetattr::decode(alloc, source)?)),
            TSETATTR => Ok(Tmessage::SetAttr(Tsetattr::decode(alloc, source)?)),
            TXATTRWALK => Ok(Tmessage::XattrWalk(Txattrwalk::decode(alloc, source)?)),
            TXATTRCREATE => Ok(Tmessage::XattrCreate(Txattrcreate::decode(alloc, source)?)),
            TREADDIR => Ok(Tmessage::Readdir(Treaddir::decode(alloc, source)?)),
            TFSYNC => Ok(Tmessage::Fsync(Tfsync::decode(alloc, source)?)),
            TLOCK => Ok(Tmessage::Lock(Tlock::decode(alloc, source)?)),
            TGETLOCK => Ok(Tmessage::GetLock(Tgetlock::decode(alloc, source)?)),
            TLINK => Ok(Tmessage::Link(Tlink::decode(alloc, source)?)),
            TMKDIR => Ok(Tmessage::Mkdir(Tmkdir::decode(alloc, source)?)),
            TRENAMEAT => Ok(Tmessage::RenameAt(Trenameat::decode(alloc, source)?)),
            TUNLINKAT => Ok(Tmessage::UnlinkAt(Tunlinkat::decode(alloc, source)?)),
            TVERSION => Ok(Tmessage::Version(Tversion::decode(alloc, source)?)),
            TAUTH => Ok(Tmessage::Auth(Tauth::decode(alloc, source)?)),
            TATTACH => Ok(Tmessage::Attach(Tattach::decode(alloc, source)?)),
            TFLUSH => Ok(Tmessage::Flush(Tflush::decode(alloc, source)?)),
            TWALK => Ok(Tmessage::Walk(Twalk::decode(alloc, source)?)),
            TREAD => Ok(Tmessage::Read(Tread::decode(alloc, source)?)),
            TWRITE => Ok(Tmessage::Write(Twrite::decode(alloc, source)?)),
            TCLUNK => Ok(Tmessage::Clunk(Tclunk::decode(alloc, source)?)),
            TREMOVE => Ok(Tmessage::Remove(Tremove::decode(alloc, source)?)),
            _ => Err(WireError::InvalidData),
        }
    }
}
