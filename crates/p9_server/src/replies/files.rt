//! The replies to messages about what a fid names.
ghost use Rattle.std.specs.Prelude.{◌≡◌, ◌+◌, ◌≤◌, length, IfOk};
ghost use Rattle.p9_wire.specs.Frames.{result_view};
ghost use Rattle.p9_wire.specs.declared.protocol.TheConstants.{RREADLINK_HEADER_SIZE};
ghost use Rattle.p9_rmsg.specs.Replies.{reply_of};
ghost use Rattle.p9_rmsg.specs.Replies.Reply.{fsync, lcreate, readlink, setattr, write};
ghost use Rattle.p9_wire.specs.Qids.{qid_of};
ghost use Rattle.fid_model.specs.Files.{statfs_reply};
ghost use Rattle.p9_server.specs.Answering.{reply_told, IsShort, Fits};

use super::refusal;
use p9_rmsg::{Rlcreate, Rmessage, Rreadlink, Rstatfs, Rwrite};
use p9_wire::error::WireError;
use p9_wire::qid::Qid;
use p9_wire::text::P9String;
use port_base::names::NAME_LIMIT;
use tree_model::attributes::BLOCK_SIZE;
use tree_model::{HostError, Statfs};

// How much a tree may have: every block and every file is free.
fn sizes_told(sizes: Statfs) -> Rmessage
    ensures reply { reply_of result ≡ statfs_reply sizes }
    ensures short { IsShort (reply_of result) }
{
    Rmessage::Statfs(Rstatfs {
        ty: 0,
        bsize: BLOCK_SIZE,
        blocks: sizes.blocks,
        bfree: sizes.blocks,
        bavail: sizes.blocks,
        files: sizes.files,
        ffree: sizes.files,
        fsid: 0,
        namelen: NAME_LIMIT as u32,
    })
}

/// The reply to Tstatfs.
pub fn sizes_reply(step: Result<Statfs, HostError>) -> Result<Rmessage, WireError>
    ensures reply { result_view reply_of result ≡ reply_told statfs_reply step }
    ensures short { IfOk result (λ m. IsShort (reply_of m)) }
{
    step.map(sizes_told).or_else(refusal)
}

/// The reply to Tfsync.
pub fn fsync_reply(step: Result<(), HostError>) -> Result<Rmessage, WireError>
    ensures reply { result_view reply_of result ≡ reply_told (λ _. fsync) step }
    ensures short { IfOk result (λ m. IsShort (reply_of m)) }
{
    step.map(|()| Rmessage::Fsync).or_else(refusal)
}

// The target of a link, in a frame of at most `msize` bytes.
fn target_told(target: P9String, msize: u32) -> Rmessage
    requires { RREADLINK_HEADER_SIZE + length target ≤ msize }
    ensures reply { reply_of result ≡ readlink target }
    ensures fits { Fits msize (reply_of result) }
{
    let _ = msize;
    Rmessage::Readlink(Rreadlink { target })
}

/// The reply to Treadlink, in a frame of at most `msize` bytes.
pub fn readlink_reply(step: Result<P9String, HostError>, msize: u32) -> Result<Rmessage, WireError>
    requires roomy { 256 ≤ msize }
    requires fits { IfOk step (λ target. RREADLINK_HEADER_SIZE + length target ≤ msize) }
    ensures reply { result_view reply_of result ≡ reply_told (λ target. readlink target) step }
    ensures fits { IfOk result (λ m. Fits msize (reply_of m)) }
{
    step.map(|target| target_told(target, msize))
        .or_else(refusal)
}

// The qid of a file that was made and opened; a client may write as much at once as it likes.
fn created(qid: Qid) -> Rmessage
    ensures reply { reply_of result ≡ lcreate (qid_of qid) 0 }
    ensures short { IsShort (reply_of result) }
{
    Rmessage::Lcreate(Rlcreate { qid, iounit: 0 })
}

/// The reply to Tlcreate.
pub fn create_reply(step: Result<Qid, HostError>) -> Result<Rmessage, WireError>
    ensures reply { result_view reply_of result ≡ reply_told (λ q. lcreate (qid_of q) 0) step }
    ensures short { IfOk result (λ m. IsShort (reply_of m)) }
{
    step.map(created).or_else(refusal)
}

// How many bytes were written.
fn written(count: u32) -> Rmessage
    ensures reply { reply_of result ≡ write count }
    ensures short { IsShort (reply_of result) }
{
    Rmessage::Write(Rwrite { count })
}

/// The reply to Twrite.
pub fn write_reply(step: Result<u32, HostError>) -> Result<Rmessage, WireError>
    ensures reply { result_view reply_of result ≡ reply_told write step }
    ensures short { IfOk result (λ m. IsShort (reply_of m)) }
{
    step.map(written).or_else(refusal)
}

/// The reply to Tsetattr.
pub fn setattr_reply(step: Result<(), HostError>) -> Result<Rmessage, WireError>
    ensures reply { result_view reply_of result ≡ reply_told (λ _. setattr) step }
    ensures short { IfOk result (λ m. IsShort (reply_of m)) }
{
    step.map(|()| Rmessage::SetAttr).or_else(refusal)
}
