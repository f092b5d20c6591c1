//! What a fid's inode shows: its attributes and its bytes. Each call sends one message.
ghost use Rattle.std.specs.Prelude.{◌≡◌, ◌≤◌, ◌+◌, true, length, IfOk, OnErr, IsSome};
ghost use Rattle.std.specs.FinMap as map;
ghost use Rattle.p9_wire.specs.declared.data.TheConstants.{MAX_DATA_LENGTH};
ghost use Rattle.p9_wire.specs.declared.protocol.TheConstants.{TWRITE_HEADER_SIZE};
ghost use Rattle.p9_tmsg.specs.Messages.{message_of};
ghost use Rattle.p9_tmsg.specs.Messages.Message.{write as t_write};
ghost use Rattle.fid_model.specs.Files.{fsync_told, readlink_told, statfs_told, write_told};
ghost use Rattle.fid_model.specs.Moments.{FidAnswered, Keeps, SameTree, Untouched};
ghost use Rattle.p9_client.specs.Views.{IsRoomy, attributes_answer, attributes_told, bytes_answer};
ghost use Rattle.p9_client.specs.Views.{sizes_answer, sizes_told};
ghost use Rattle.p9_client.specs.Opening.{read_told, is_readable_at};
ghost use Rattle.p9_client.specs.Changing.{Changes, FrontOrTold, Gives, Shows, changed};
ghost use Rattle.p9_client.specs.Changing.{changes_of, set_told};

use crate::exchange::{done, exchange};
use fid_model::Nine;
use p9_rmsg::{Rgetattr, Rmessage, Rstatfs};
use p9_tmsg::{Tfsync, Tgetattr, Tmessage, Tread, Treadlink, Tsetattr, Tstatfs, Twrite};
use p9_wire::data::Data;
use p9_wire::protocol::P9_GETATTR_BASIC;
use p9_wire::text::P9String;
use port_base::sink::NoMemory;
use std::alloc::Global;

/// The attributes of a fid's inode.
pub fn get_attr<N: Nine>(
    alloc: Global,
    nine: &mut N,
    fid: u32,
) -> Result<Result<Rgetattr, u32>, NoMemory>
    requires roomy { IsRoomy (N.at nine.old).state }
    requires known { IsSome (map.get (N.at nine.old).state.fids fid) }
    ensures answer { IfOk result (λ r. FidAnswered
        (λ s f. attributes_told s f.ino) Untouched fid (attributes_answer r)
        (N.at nine.old) (N.at nine.new)) }
    ensures unfinished { OnErr result (SameTree (N.at nine.old) (N.at nine.new)) }
    ensures kept { Keeps (N.at nine.old) (N.at nine.new) }
{
    let message = Tmessage::GetAttr(Tgetattr {
        fid,
        request_mask: P9_GETATTR_BASIC,
    });
    match exchange(alloc, nine, &message)? {
        Rmessage::GetAttr(reply) => Ok(Ok(reply)),
        Rmessage::Lerror(reply) => Ok(Err(reply.ecode)),
        _ => unreachable!(),
    }
}

/// Reads at most so many bytes of a fid that is open to be read: as many as there are and fit a
/// frame.
pub fn read<N: Nine>(
    alloc: Global,
    nine: &mut N,
    fid: u32,
    offset: u64,
    count: u32,
) -> Result<Result<Data, u32>, NoMemory>
    requires roomy { IsRoomy (N.at nine.old).state }
    requires known { is_readable_at (map.get (N.at nine.old).state.fids fid) ≡ true }
    requires few { count ≤ 33554432 }
    ensures answer { IfOk result (λ r. FidAnswered
        (λ s f. read_told s f.ino offset count) Untouched fid (bytes_answer r)
        (N.at nine.old) (N.at nine.new)) }
    ensures unfinished { OnErr result (SameTree (N.at nine.old) (N.at nine.new)) }
    ensures kept { Keeps (N.at nine.old) (N.at nine.new) }
{
    let message = Tmessage::Read(Tread { fid, offset, count });
    match exchange(alloc, nine, &message)? {
        Rmessage::Read(reply) => Ok(Ok(reply.payload)),
        Rmessage::Lerror(reply) => Ok(Err(reply.ecode)),
        _ => unreachable!(),
    }
}

// A message for bytes to write.
fn write_message(alloc: Global, fid: u32, offset: u64, bytes: &[u8]) -> Result<Tmessage, NoMemory>
    ensures { IfOk result (λ m. message_of m ≡ t_write fid offset bytes.now) }
{
    let payload = Data(Vec::from_slice(alloc, bytes).map_err(|_| NoMemory)?);
    Ok(Tmessage::Write(Twrite {
        fid,
        offset,
        payload,
    }))
}

/// Writes bytes by a fid that is open to be written, at an offset, or at the file's end where the
/// fid appends, and tells how many were written.
pub fn write<N: Nine>(
    alloc: Global,
    nine: &mut N,
    fid: u32,
    offset: u64,
    bytes: &[u8],
) -> Result<Result<u32, u32>, NoMemory>
    requires roomy { IsRoomy (N.at nine.old).state }
    requires fits { TWRITE_HEADER_SIZE + length bytes.now ≤ (N.at nine.old).state.msize }
    requires few { length bytes.now ≤ MAX_DATA_LENGTH }
    ensures { Changes (λ r. r) (λ s. changed s (λ n. n) (write_told s fid offset bytes.now)) result
        (N.at nine.old) (N.at nine.new) }
{
    let message = write_message(alloc, fid, offset, bytes)?;
    match exchange(alloc, nine, &message)? {
        Rmessage::Write(reply) => Ok(Ok(reply.count)),
        Rmessage::Lerror(reply) => Ok(Err(reply.ecode)),
        _ => unreachable!(),
    }
}

/// Sets those attributes of a fid's inode that the bits of `valid` name, in order: mode, owners,
/// size, times. A step that was done stays where a later one is refused.
pub fn set_attr<N: Nine>(
    alloc: Global,
    nine: &mut N,
    change: Tsetattr,
) -> Result<Result<(), u32>, NoMemory>
    requires roomy { IsRoomy (N.at nine.old).state }
    ensures { Gives (λ r. r) (set_told (N.at nine.old).state (changes_of change) change.fid)
        (FrontOrTold (N.at nine.old).state (changes_of change) change.fid)
        result (N.at nine.old) (N.at nine.new) }
{
    let reply = exchange(alloc, nine, &Tmessage::SetAttr(change))?;
    Ok(done(reply))
}

/// How much the tree of a fid may have.
pub fn stat_fs<N: Nine>(
    alloc: Global,
    nine: &mut N,
    fid: u32,
) -> Result<Result<Rstatfs, u32>, NoMemory>
    requires roomy { IsRoomy (N.at nine.old).state }
    ensures { Shows sizes_answer (λ s. sizes_told (statfs_told s fid)) result
        (N.at nine.old) (N.at nine.new) }
{
    let message = Tmessage::Statfs(Tstatfs { fid });
    match exchange(alloc, nine, &message)? {
        Rmessage::Statfs(reply) => Ok(Ok(reply)),
        Rmessage::Lerror(reply) => Ok(Err(reply.ecode)),
        _ => unreachable!(),
    }
}

/// Keeps what was written by a fid that is open.
pub fn fsync<N: Nine>(alloc: Global, nine: &mut N, fid: u32) -> Result<Result<(), u32>, NoMemory>
    requires roomy { IsRoomy (N.at nine.old).state }
    ensures { Shows (λ r. r) (λ s. fsync_told s fid) result (N.at nine.old) (N.at nine.new) }
{
    let message = Tmessage::Fsync(Tfsync { fid, datasync: 0 });
    let reply = exchange(alloc, nine, &message)?;
    Ok(done(reply))
}

/// The target of the symbolic link that a fid names.
pub fn read_link<N: Nine>(
    alloc: Global,
    nine: &mut N,
    fid: u32,
) -> Result<Result<P9String, u32>, NoMemory>
    requires roomy { IsRoomy (N.at nine.old).state }
    ensures { Shows (λ r. r) (λ s. readlink_told s fid) result (N.at nine.old) (N.at nine.new) }
{
    let message = Tmessage::Readlink(Treadlink { fid });
    match exchange(alloc, nine, &message)? {
        Rmessage::Readlink(reply) => Ok(Ok(reply.target)),
        Rmessage::Lerror(reply) => Ok(Err(reply.ecode)),
        _ => unreachable!(),
    }
}
