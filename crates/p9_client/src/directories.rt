//! Entries of directories: they are made, linked, moved and taken away. Each call sends one
//! message.
ghost use Rattle.std.specs.Prelude.{◌≡◌, None, IfOk};
ghost use Rattle.port_base.specs.Names.{name_fault};
ghost use Rattle.tree_model.specs.Attributes.{qid_of};
ghost use Rattle.p9_tmsg.specs.Messages.{message_of};
ghost use Rattle.p9_tmsg.specs.Messages.Message.{link as t_link, mkdir as t_mkdir};
ghost use Rattle.p9_tmsg.specs.Messages.Message.{renameat as t_renameat, unlinkat as t_unlinkat};
ghost use Rattle.fid_model.specs.Directories.{link_told, mkdir_told, renameat_told};
ghost use Rattle.fid_model.specs.Directories.{unlinkat_told};
ghost use Rattle.p9_client.specs.Views.{IsRoomy, qid_answer};
ghost use Rattle.p9_client.specs.Changing.{Changes, changed};

use crate::exchange::{done, exchange};
use crate::texts::text_of;
use fid_model::Nine;
use p9_rmsg::Rmessage;
use p9_tmsg::{Tlink, Tmessage, Tmkdir, Trenameat, Tunlinkat};
use p9_wire::qid::Qid;
use port_base::sink::NoMemory;
use std::alloc::Global;

// A message for one more name of a file.
fn link_message(alloc: Global, dfid: u32, fid: u32, name: &[u8]) -> Result<Tmessage, NoMemory>
    requires { name_fault name.now ≡ None }
    ensures { IfOk result (λ m. message_of m ≡ t_link dfid fid name.now) }
{
    let name = text_of(alloc, name)?;
    Ok(Tmessage::Link(Tlink { dfid, fid, name }))
}

/// Gives the file of a fid one more name, in the directory of another fid.
pub fn link<N: Nine>(
    alloc: Global,
    nine: &mut N,
    dfid: u32,
    fid: u32,
    name: &[u8],
) -> Result<Result<(), u32>, NoMemory>
    requires roomy { IsRoomy (N.at nine.old).state }
    requires named { name_fault name.now ≡ None }
    ensures { Changes (λ r. r) (λ s. changed s (λ u. u) (link_told s dfid fid name.now)) result
        (N.at nine.old) (N.at nine.new) }
{
    let message = link_message(alloc, dfid, fid, name)?;
    let reply = exchange(alloc, nine, &message)?;
    Ok(done(reply))
}

// A message for a name that moves.
fn rename_message(
    alloc: Global,
    olddirfid: u32,
    old_name: &[u8],
    newdirfid: u32,
    new_name: &[u8],
) -> Result<Tmessage, NoMemory>
    requires old_named { name_fault old_name.now ≡ None }
    requires new_named { name_fault new_name.now ≡ None }
    ensures { IfOk result (λ m. message_of m
        ≡ t_renameat olddirfid old_name.now newdirfid new_name.now) }
{
    let oldname = text_of(alloc, old_name)?;
    let newname = text_of(alloc, new_name)?;
    Ok(Tmessage::RenameAt(Trenameat {
        olddirfid,
        oldname,
        newdirfid,
        newname,
    }))
}

/// Moves a name of the directory of a fid to a name in that of another. What had the new name goes.
pub fn rename_at<N: Nine>(
    alloc: Global,
    nine: &mut N,
    old_dirfid: u32,
    old_name: &[u8],
    new_dirfid: u32,
    new_name: &[u8],
) -> Result<Result<(), u32>, NoMemory>
    requires roomy { IsRoomy (N.at nine.old).state }
    requires old_named { name_fault old_name.now ≡ None }
    requires new_named { name_fault new_name.now ≡ None }
    ensures { Changes (λ r. r) (λ s. changed s (λ u. u)
        (renameat_told s old_dirfid old_name.now new_dirfid new_name.now)) result
        (N.at nine.old) (N.at nine.new) }
{
    let message = rename_message(alloc, old_dirfid, old_name, new_dirfid, new_name)?;
    let reply = exchange(alloc, nine, &message)?;
    Ok(done(reply))
}

// A message for a name that goes.
fn unlink_message(alloc: Global, dirfd: u32, name: &[u8], flags: u32) -> Result<Tmessage, NoMemory>
    requires { name_fault name.now ≡ None }
    ensures { IfOk result (λ m. message_of m ≡ t_unlinkat dirfd name.now flags) }
{
    let name = text_of(alloc, name)?;
    Ok(Tmessage::UnlinkAt(Tunlinkat { dirfd, name, flags }))
}

/// Takes a name away from the directory of a fid: that of a file or a link where `flags` is 0,
/// that of a directory where it is 0x200 (`AT_REMOVEDIR`).
pub fn unlink_at<N: Nine>(
    alloc: Global,
    nine: &mut N,
    dirfid: u32,
    name: &[u8],
    flags: u32,
) -> Result<Result<(), u32>, NoMemory>
    requires roomy { IsRoomy (N.at nine.old).state }
    requires named { name_fault name.now ≡ None }
    ensures { Changes (λ r. r) (λ s. changed s (λ u. u) (unlinkat_told s dirfid name.now flags))
        result (N.at nine.old) (N.at nine.new) }
{
    let message = unlink_message(alloc, dirfid, name, flags)?;
    let reply = exchange(alloc, nine, &message)?;
    Ok(done(reply))
}

// A message for a new directory.
fn mkdir_message(alloc: Global, dfid: u32, name: &[u8], mode: u32) -> Result<Tmessage, NoMemory>
    requires { name_fault name.now ≡ None }
    ensures { IfOk result (λ m. message_of m ≡ t_mkdir dfid name.now mode 0) }
{
    let name = text_of(alloc, name)?;
    Ok(Tmessage::Mkdir(Tmkdir {
        dfid,
        name,
        mode,
        gid: 0,
    }))
}

/// Makes a directory of this mode in the directory of a fid, and tells its qid.
pub fn mkdir<N: Nine>(
    alloc: Global,
    nine: &mut N,
    dfid: u32,
    name: &[u8],
    mode: u32,
) -> Result<Result<Qid, u32>, NoMemory>
    requires roomy { IsRoomy (N.at nine.old).state }
    requires named { name_fault name.now ≡ None }
    ensures { Changes qid_answer (λ s. changed s qid_of (mkdir_told s dfid name.now mode)) result
        (N.at nine.old) (N.at nine.new) }
{
    let message = mkdir_message(alloc, dfid, name, mode)?;
    match exchange(alloc, nine, &message)? {
        Rmessage::Mkdir(reply) => Ok(Ok(reply.qid)),
        Rmessage::Lerror(reply) => Ok(Err(reply.ecode)),
        _ => unreachable!(),
    }
}
