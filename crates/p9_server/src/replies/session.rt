//! The replies to messages about the session and its locks.
ghost use Rattle.std.specs.Prelude.{◌≡◌, ◌+◌, ◌≤◌, length, IfOk};
ghost use Rattle.p9_wire.specs.Frames.{result_view};
ghost use Rattle.p9_rmsg.specs.Replies.{reply_of};
ghost use Rattle.p9_rmsg.specs.Replies.Reply.{flush, version, lock, getlock};
ghost use Rattle.p9_wire.specs.declared.protocol.TheConstants.{RGETLOCK_HEADER_SIZE};
ghost use Rattle.p9_server.specs.Answering.{reply_told, IsShort, Fits};

use super::refusal;
use p9_rmsg::{Rgetlock, Rlock, Rmessage, Rversion};
use p9_wire::error::WireError;
use tree_model::HostError;

// What both sides take, and the protocol that is spoken.
fn agreed(session: Rversion) -> Rmessage
    requires { length session.version ≤ 8 }
    ensures reply { reply_of result ≡ version session.msize session.version }
    ensures short { IsShort (reply_of result) }
{
    Rmessage::Version(session)
}

/// The reply to Tversion.
pub fn version_reply(step: Result<Rversion, HostError>) -> Result<Rmessage, WireError>
    requires { IfOk step (λ v. length v.version ≤ 8) }
    ensures reply { result_view reply_of result ≡ reply_told (λ v. version v.msize v.version) step }
    ensures short { IfOk result (λ m. IsShort (reply_of m)) }
{
    step.map(agreed).or_else(refusal)
}

/// The reply to Tflush: each message was answered before the next is read.
pub fn flush_reply() -> Rmessage
    ensures reply { reply_of result ≡ flush }
    ensures short { IsShort (reply_of result) }
{
    Rmessage::Flush
}

// How a request for a lock went.
fn locked(status: Rlock) -> Rmessage
    ensures reply { reply_of result ≡ lock status.status }
    ensures short { IsShort (reply_of result) }
{
    Rmessage::Lock(status)
}

/// The reply to Tlock.
pub fn lock_reply(step: Result<Rlock, HostError>) -> Result<Rmessage, WireError>
    ensures reply { result_view reply_of result ≡ reply_told (λ r. lock r.status) step }
    ensures short { IfOk result (λ m. IsShort (reply_of m)) }
{
    step.map(locked).or_else(refusal)
}

// The lock that stands in the way, in a frame of at most `msize` bytes.
fn lock_told(found: Rgetlock, msize: u32) -> Rmessage
    requires { RGETLOCK_HEADER_SIZE + length found.client_id ≤ msize }
    ensures reply { reply_of result ≡ getlock found.kind_ found.start found.length found.proc_id
        found.client_id }
    ensures fits { Fits msize (reply_of result) }
{
    let _ = msize;
    Rmessage::GetLock(found)
}

/// The reply to Tgetlock, in a frame of at most `msize` bytes.
pub fn getlock_reply(step: Result<Rgetlock, HostError>, msize: u32) -> Result<Rmessage, WireError>
    requires roomy { 256 ≤ msize }
    requires fits { IfOk step (λ r. RGETLOCK_HEADER_SIZE + length r.client_id ≤ msize) }
    ensures reply { result_view reply_of result
        ≡ reply_told (λ r. getlock r.kind_ r.start r.length r.proc_id r.client_id) step }
    ensures fits { IfOk result (λ m. Fits msize (reply_of m)) }
{
    step.map(|found| lock_told(found, msize)).or_else(refusal)
}
