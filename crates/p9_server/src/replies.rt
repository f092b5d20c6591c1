//! The replies to messages, from what the server's steps give.
ghost use Rattle.std.specs.Prelude.{◌≡◌, ◌+◌, ◌≤◌, ◌<◌, ◌^◌, Err, length, map, IfOk, IfErr, OnOk};
ghost use Rattle.std.specs.Io.KnownBytes.{Keeps};
ghost use Rattle.tree_model.specs.Attributes.{blocks_of};
ghost use Rattle.p9_wire.specs.declared.protocol.TheConstants.{RREAD_HEADER_SIZE};
ghost use Rattle.fid_model.specs.Answers.{attributes_of};
ghost use Rattle.std.specs.List.{AllByRecursion};
ghost use Rattle.p9_wire.specs.Values.{QidSpells};
ghost use Rattle.p9_wire.specs.Qids.{qid_of};
ghost use Rattle.p9_wire.specs.Frames.{result_view};
ghost use Rattle.p9_rmsg.specs.Replies.{reply_of, reply_spelling, ReplySpells};
ghost use Rattle.p9_rmsg.specs.Replies.Reply.{attach, clunk, getattr, lerror, lopen, read, walk};
ghost use Rattle.p9_rmsg.specs.Frames.{reply_frame};
ghost use Rattle.p9_server.specs.Answering.{reply_told, refusal_told, IsShort, Fits, IsSent};

pub mod directories;
mod files;
mod session;

use crate::qids::qid_of;
pub use files::{
    create_reply, fsync_reply, readlink_reply, setattr_reply, sizes_reply, write_reply,
};
use p9_rmsg::{Rattach, Rgetattr, Rlerror, Rlopen, Rmessage, Rread, Rwalk};
use p9_wire::data::Data;
use p9_wire::error::WireError;
use p9_wire::frame::frame_size;
use p9_wire::protocol::P9_GETATTR_BASIC;
use p9_wire::qid::Qid;
use port_base::errno::EIO;
use port_base::sink::Sink;
pub use session::{flush_reply, getlock_reply, lock_reply, version_reply};
use tree_model::attributes::BLOCK_SIZE;
use tree_model::{Attr, HostError};

/// The room for a reply, in bytes: none that changes anything is longer.
pub const REPLY_ROOM: usize = 256;

// Blocks of 512 bytes, rounded up.
fn blocks_of(size: u64) -> u64
    ensures { result ≡ blocks_of size }
{
    size.div_ceil(512)
}

/// A refusal with its error number.
pub fn refused(ecode: u32) -> Rmessage
    ensures reply { reply_of result ≡ lerror ecode }
    ensures short { IsShort (reply_of result) }
{
    Rmessage::Lerror(Rlerror { ecode })
}

// EIO for a fault of the host; without memory there is no reply.
fn refusal(e: HostError) -> Result<Rmessage, WireError>
    ensures reply { result_view reply_of result ≡ refusal_told e }
    ensures short { IfOk result (λ m. IsShort (reply_of m)) }
{
    match e {
        HostError::Errno(ecode) => Ok(refused(ecode)),
        HostError::Fault => Ok(refused(EIO)),
        HostError::NoMemory => Err(WireError::NoMemory),
    }
}

// The qid of the root.
fn root_told(qid: Qid) -> Rmessage
    ensures reply { reply_of result ≡ attach (qid_of qid) }
    ensures short { IsShort (reply_of result) }
{
    Rmessage::Attach(Rattach { qid })
}

// The qids of a walk.
fn walk_told(wqids: Vec<Qid>) -> Rmessage
    requires few { length wqids.items ≤ 16 }
    requires spells { AllByRecursion QidSpells (map qid_of wqids.items) }
    ensures reply { reply_of result ≡ walk (map qid_of wqids.items) }
    ensures short { IsShort (reply_of result) }
{
    Rmessage::Walk(Rwalk { wqids })
}

// The attributes of an inode.
fn attributes_told(attr: Attr) -> Rmessage
    ensures reply { reply_of result ≡ getattr (attributes_of attr) }
    ensures short { IsShort (reply_of result) }
{
    Rmessage::GetAttr(Rgetattr {
        valid: P9_GETATTR_BASIC,
        qid: qid_of(&attr),
        mode: attr.mode,
        uid: attr.uid,
        gid: attr.gid,
        nlink: attr.links,
        rdev: 0,
        size: attr.size,
        blksize: BLOCK_SIZE as u64,
        blocks: blocks_of(attr.size),
        atime_sec: attr.atime.sec,
        atime_nsec: attr.atime.nsec as u64,
        mtime_sec: attr.mtime.sec,
        mtime_nsec: attr.mtime.nsec as u64,
        ctime_sec: attr.ctime.sec,
        ctime_nsec: attr.ctime.nsec as u64,
        btime_sec: 0,
        btime_nsec: 0,
        generation: 0,
        data_version: 0,
    })
}

/// The reply to Tattach.
pub fn attach_reply(step: Result<Qid, HostError>) -> Result<Rmessage, WireError>
    ensures reply { result_view reply_of result ≡ reply_told (λ q. attach (qid_of q)) step }
    ensures short { IfOk result (λ m. IsShort (reply_of m)) }
{
    step.map(root_told).or_else(refusal)
}

/// The reply to Twalk.
pub fn walk_reply(step: Result<Vec<Qid>, HostError>) -> Result<Rmessage, WireError>
    requires few { IfOk step (λ qids. length qids.items ≤ 16) }
    requires spells { IfOk step (λ qids. AllByRecursion QidSpells (map qid_of qids.items)) }
    ensures reply { result_view reply_of result ≡ reply_told (λ qids. walk (map qid_of qids.items))
        step }
    ensures short { IfOk result (λ m. IsShort (reply_of m)) }
{
    step.map(walk_told).or_else(refusal)
}

/// The reply to Tgetattr.
pub fn getattr_reply(step: Result<Attr, HostError>) -> Result<Rmessage, WireError>
    ensures reply { result_view reply_of result ≡ reply_told (λ a. getattr (attributes_of a)) step }
    ensures short { IfOk result (λ m. IsShort (reply_of m)) }
{
    step.map(attributes_told).or_else(refusal)
}

/// The reply to Tclunk.
pub fn clunk_reply(step: Result<(), HostError>) -> Result<Rmessage, WireError>
    ensures reply { result_view reply_of result ≡ reply_told (λ _. clunk) step }
    ensures short { IfOk result (λ m. IsShort (reply_of m)) }
{
    step.map(|()| Rmessage::Clunk).or_else(refusal)
}

// The qid of a fid that was opened; a client may read as much at once as it likes.
fn open_told(qid: Qid) -> Rmessage
    ensures reply { reply_of result ≡ lopen (qid_of qid) 0 }
    ensures short { IsShort (reply_of result) }
{
    Rmessage::Lopen(Rlopen { qid, iounit: 0 })
}

/// The reply to Tlopen.
pub fn open_reply(step: Result<Qid, HostError>) -> Result<Rmessage, WireError>
    ensures reply { result_view reply_of result ≡ reply_told (λ q. lopen (qid_of q) 0) step }
    ensures short { IfOk result (λ m. IsShort (reply_of m)) }
{
    step.map(open_told).or_else(refusal)
}

/// The reply to Tread, in a frame of at most `msize` bytes.
pub fn read_reply(step: Result<Vec<u8>, HostError>, msize: u32) -> Result<Rmessage, WireError>
    requires roomy { 256 ≤ msize }
    requires fits { IfOk step (λ bytes. length bytes.items + RREAD_HEADER_SIZE ≤ msize) }
    ensures reply { result_view reply_of result ≡ reply_told (λ bytes. read bytes.items) step }
    ensures fits { IfOk result (λ m. Fits msize (reply_of m)) }
{
    step.map(|bytes| Rmessage::Read(Rread {
        payload: Data(bytes),
    }))
    .or_else(refusal)
}

/// Makes room for so many bytes.
pub fn make_room<K: Sink>(writer: &mut K, bytes: usize) -> Result<(), WireError>
    ensures room { OnOk result (bytes ≤ K.room writer.new) }
    ensures memory { IfErr result (λ e. e ≡ WireError.NoMemory) }
    ensures sent { Keeps (K.sent writer.old) (K.sent writer.new) }
    ensures faults { K.faults writer.new ≡ K.faults writer.old }
    ensures kept { K.kept writer.new ≡ K.kept writer.old }
{
    writer.reserve(bytes).map_err(|_| WireError::NoMemory)
}

/// Makes room for a reply that is longer than what there is room for.
pub fn reserve_long<K: Sink>(reply: &Rmessage, writer: &mut K) -> Result<(), WireError>
    requires spells { ReplySpells (reply_of reply.now) }
    requires short { 7 + length (reply_spelling (reply_of reply.now)) < 2 ^ 32 }
    requires room { REPLY_ROOM ≤ K.room writer.old }
    ensures room { OnOk result (7 + length (reply_spelling (reply_of reply.now))
        ≤ K.room writer.new) }
    ensures memory { IfErr result (λ e. (e ≡ WireError.NoMemory) × ¬ IsShort (reply_of reply.now)) }
    ensures sent { Keeps (K.sent writer.old) (K.sent writer.new) }
    ensures faults { K.faults writer.new ≡ K.faults writer.old }
    ensures kept { K.kept writer.new ≡ K.kept writer.old }
{
    let length = frame_size(reply) as usize;
    if length <= REPLY_ROOM {
        return Ok(());
    }
    make_room(writer, length)
}

/// Sends a reply, for which there is room.
pub fn send_reply<K: Sink>(reply: &Rmessage, tag: u16, writer: &mut K) -> Result<(), WireError>
    requires spells { ReplySpells (reply_of reply.now) }
    requires short { 7 + length (reply_spelling (reply_of reply.now)) < 2 ^ 32 }
    requires room { 7 + length (reply_spelling (reply_of reply.now)) ≤ K.room writer.old }
    ensures sent { IsSent (reply_frame tag (reply_of reply.now)) (K.sent writer.old)
        (K.sent writer.new) (K.faults writer.old) (K.faults writer.new) result }
    ensures kept { K.kept writer.new ≡ K.kept writer.old }
{
    reply.send_frame(tag, writer)?;
    Ok(())
}
