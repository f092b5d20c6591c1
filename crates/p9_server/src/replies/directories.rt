//! The replies to messages on directories, from what the server's steps give.
ghost use Rattle.std.specs.Prelude.{◌≡◌, ◌+◌, ◌≤◌, length, IfOk};
ghost use Rattle.p9_wire.specs.Qids.{qid_of};
ghost use Rattle.p9_wire.specs.Frames.{result_view};
ghost use Rattle.p9_rmsg.specs.Replies.{reply_of};
ghost use Rattle.p9_rmsg.specs.Replies.Reply.{link, mkdir, readdir, renameat, unlinkat};
ghost use Rattle.p9_wire.specs.declared.protocol.TheConstants.{RREAD_HEADER_SIZE};
ghost use Rattle.p9_server.specs.Answering.{reply_told, Fits, IsShort};

use super::refusal;
use p9_rmsg::{Rmessage, Rmkdir, Rreaddir};
use p9_wire::data::Data;
use p9_wire::error::WireError;
use p9_wire::qid::Qid;
use tree_model::HostError;

// The qid of a directory that was made.
fn directory_told(qid: Qid) -> Rmessage
    ensures reply { reply_of result ≡ mkdir (qid_of qid) }
    ensures short { IsShort (reply_of result) }
{
    Rmessage::Mkdir(Rmkdir { qid })
}

/// The reply to Tmkdir.
pub fn mkdir_reply(step: Result<Qid, HostError>) -> Result<Rmessage, WireError>
    ensures reply { result_view reply_of result ≡ reply_told (λ q. mkdir (qid_of q)) step }
    ensures short { IfOk result (λ m. IsShort (reply_of m)) }
{
    step.map(directory_told).or_else(refusal)
}

/// The reply to Tlink.
pub fn link_reply(step: Result<(), HostError>) -> Result<Rmessage, WireError>
    ensures reply { result_view reply_of result ≡ reply_told (λ _. link) step }
    ensures short { IfOk result (λ m. IsShort (reply_of m)) }
{
    step.map(|()| Rmessage::Link).or_else(refusal)
}

/// The reply to Trenameat.
pub fn rename_reply(step: Result<(), HostError>) -> Result<Rmessage, WireError>
    ensures reply { result_view reply_of result ≡ reply_told (λ _. renameat) step }
    ensures short { IfOk result (λ m. IsShort (reply_of m)) }
{
    step.map(|()| Rmessage::RenameAt).or_else(refusal)
}

/// The reply to Tunlinkat.
pub fn unlink_reply(step: Result<(), HostError>) -> Result<Rmessage, WireError>
    ensures reply { result_view reply_of result ≡ reply_told (λ _. unlinkat) step }
    ensures short { IfOk result (λ m. IsShort (reply_of m)) }
{
    step.map(|()| Rmessage::UnlinkAt).or_else(refusal)
}

/// The reply to Treaddir, in a frame of at most `msize` bytes.
pub fn readdir_reply(step: Result<Vec<u8>, HostError>, msize: u32) -> Result<Rmessage, WireError>
    requires roomy { 256 ≤ msize }
    requires fits { IfOk step (λ bytes. length bytes.items + RREAD_HEADER_SIZE ≤ msize) }
    ensures reply { result_view reply_of result ≡ reply_told (λ bytes. readdir bytes.items) step }
    ensures fits { IfOk result (λ m. Fits msize (reply_of m)) }
{
    step.map(|bytes| Rmessage::Readdir(Rreaddir {
        payload: Data(bytes),
    }))
    .or_else(refusal)
}
