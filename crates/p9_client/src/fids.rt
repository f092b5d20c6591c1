//! Fids: they are made for the root, by a walk or as copies, opened, and let go. Each call sends
//! one message.
ghost use Rattle.std.specs.Prelude.{◌≡◌, ◌<◌, ◌∷◌, [], false, IfOk, OnOk, OnErr, IsSome, None};
ghost use Rattle.std.specs.FinMap as map;
ghost use Rattle.port_base.specs.Names.{name_fault};
ghost use Rattle.port_base.specs.OpenFlags.{has_flag};
ghost use Rattle.port_base.specs.declared.oflag.TheConstants.{O_TRUNC};
ghost use Rattle.p9_tmsg.specs.Messages.{message_of};
ghost use Rattle.p9_tmsg.specs.Messages.Message.{attach as attach_message, lcreate as t_lcreate};
ghost use Rattle.p9_tmsg.specs.Messages.Message.{walk};
ghost use Rattle.fid_model.specs.Calls.{attach_told, walk_one_told};
ghost use Rattle.fid_model.specs.Moments.{Answered, FidAnswered, Keeps, SameTree, Untouched};
ghost use Rattle.p9_client.specs.Views.{IsRoomy, FidGone, FidGoneOrNot, qid_answer};
ghost use Rattle.p9_client.specs.Opening.{copied_told, created_told, emptied_told, opened_told};
ghost use Rattle.p9_client.specs.Changing.{Changes};

use crate::exchange::exchange;
use crate::texts::{no_text, text_of};
use fid_model::Nine;
use p9_rmsg::Rmessage;
use p9_tmsg::{Tattach, Tclunk, Tlcreate, Tlopen, Tmessage, Twalk};
use p9_wire::protocol::P9_NOFID;
use p9_wire::qid::Qid;
use port_base::sink::NoMemory;
use std::alloc::Global;

// An attach without authentication, to no particular tree, for no particular user.
fn attach_to(alloc: Global, fid: u32) -> Result<Tmessage, NoMemory>
    ensures { IfOk result (λ m. message_of m ≡ attach_message fid P9_NOFID [] [] 0) }
{
    let uname = no_text(alloc)?;
    let aname = no_text(alloc)?;
    Ok(Tmessage::Attach(Tattach {
        fid,
        afid: P9_NOFID,
        uname,
        aname,
        n_uname: 0,
    }))
}

/// Makes a fid for the root of the share, of a server that has none.
pub fn attach<N: Nine>(alloc: Global, nine: &mut N, fid: u32) -> Result<Result<Qid, u32>, NoMemory>
    requires roomy { IsRoomy (N.at nine.old).state }
    requires none { (N.at nine.old).state.fids ≡ map.empty }
    ensures answer { IfOk result (λ r. Answered
        (attach_told (N.at nine.old).state fid) Untouched (qid_answer r)
        (N.at nine.old) (N.at nine.new)) }
    ensures unfinished { OnErr result (SameTree (N.at nine.old) (N.at nine.new)) }
    ensures kept { Keeps (N.at nine.old) (N.at nine.new) }
{
    let message = attach_to(alloc, fid)?;
    match exchange(alloc, nine, &message)? {
        Rmessage::Attach(reply) => Ok(Ok(reply.qid)),
        Rmessage::Lerror(reply) => Ok(Err(reply.ecode)),
        _ => unreachable!(),
    }
}

// A walk by one name.
fn walk_message(alloc: Global, fid: u32, newfid: u32, name: &[u8]) -> Result<Tmessage, NoMemory>
    requires { name_fault name.now ≡ None }
    ensures { IfOk result (λ m. message_of m ≡ walk fid newfid (name.now ∷ [])) }
{
    let text = text_of(alloc, name)?;
    let wnames = vec![in alloc; text].map_err(|_| NoMemory)?;
    Ok(Tmessage::Walk(Twalk {
        fid,
        newfid,
        wnames,
    }))
}

/// Walks by one name without a fault, to a new fid.
pub fn walk_one<N: Nine>(
    alloc: Global,
    nine: &mut N,
    fid: u32,
    newfid: u32,
    name: &[u8],
) -> Result<Result<Qid, u32>, NoMemory>
    requires roomy { IsRoomy (N.at nine.old).state }
    requires known { IsSome (map.get (N.at nine.old).state.fids fid) }
    requires fresh { map.get (N.at nine.old).state.fids newfid ≡ None }
    requires below { map.len (N.at nine.old).state.fids < (N.at nine.old).state.settings.limit }
    requires named { name_fault name.now ≡ None }
    ensures answer { IfOk result (λ r. FidAnswered
        (λ s f. walk_one_told s f.ino newfid name.now) Untouched fid (qid_answer r)
        (N.at nine.old) (N.at nine.new)) }
    ensures unfinished { OnErr result (SameTree (N.at nine.old) (N.at nine.new)) }
    ensures kept { Keeps (N.at nine.old) (N.at nine.new) }
{
    let message = walk_message(alloc, fid, newfid, name)?;
    match exchange(alloc, nine, &message)? {
        Rmessage::Walk(reply) => match reply.wqids.first() {
            Some(qid) => Ok(Ok(*qid)),
            None => unreachable!(),
        },
        Rmessage::Lerror(reply) => Ok(Err(reply.ecode)),
        _ => unreachable!(),
    }
}

/// Names the inode of a fid by a new fid too, which isn't open.
pub fn copy_fid<N: Nine>(
    alloc: Global,
    nine: &mut N,
    fid: u32,
    newfid: u32,
) -> Result<Result<(), u32>, NoMemory>
    requires roomy { IsRoomy (N.at nine.old).state }
    requires known { IsSome (map.get (N.at nine.old).state.fids fid) }
    requires fresh { map.get (N.at nine.old).state.fids newfid ≡ None }
    requires below { map.len (N.at nine.old).state.fids < (N.at nine.old).state.settings.limit }
    ensures answer { IfOk result (λ r. FidAnswered
        (λ s f. copied_told s f.ino newfid) Untouched fid r (N.at nine.old) (N.at nine.new)) }
    ensures unfinished { OnErr result (SameTree (N.at nine.old) (N.at nine.new)) }
    ensures kept { Keeps (N.at nine.old) (N.at nine.new) }
{
    let message = Tmessage::Walk(Twalk {
        fid,
        newfid,
        wnames: Vec::new(alloc),
    });
    match exchange(alloc, nine, &message)? {
        Rmessage::Walk(_reply) => Ok(Ok(())),
        Rmessage::Lerror(reply) => Ok(Err(reply.ecode)),
        _ => unreachable!(),
    }
}

/// Opens a fid by the flags of `open(2)`, without O_TRUNC.
pub fn open<N: Nine>(
    alloc: Global,
    nine: &mut N,
    fid: u32,
    flags: u32,
) -> Result<Result<Qid, u32>, NoMemory>
    requires roomy { IsRoomy (N.at nine.old).state }
    requires known { IsSome (map.get (N.at nine.old).state.fids fid) }
    requires whole { has_flag O_TRUNC flags ≡ false }
    ensures answer { IfOk result (λ r. FidAnswered
        (λ s f. opened_told s fid f flags) Untouched fid (qid_answer r)
        (N.at nine.old) (N.at nine.new)) }
    ensures unfinished { OnErr result (SameTree (N.at nine.old) (N.at nine.new)) }
    ensures kept { Keeps (N.at nine.old) (N.at nine.new) }
{
    let message = Tmessage::Lopen(Tlopen { fid, flags });
    match exchange(alloc, nine, &message)? {
        Rmessage::Lopen(reply) => Ok(Ok(reply.qid)),
        Rmessage::Lerror(reply) => Ok(Err(reply.ecode)),
        _ => unreachable!(),
    }
}

/// Opens a fid by flags of `open(2)` that may have O_TRUNC among them, which empties the file.
pub fn open_truncated<N: Nine>(
    alloc: Global,
    nine: &mut N,
    fid: u32,
    flags: u32,
) -> Result<Result<Qid, u32>, NoMemory>
    requires roomy { IsRoomy (N.at nine.old).state }
    ensures { Changes qid_answer (λ s. emptied_told s fid flags) result
        (N.at nine.old) (N.at nine.new) }
{
    let opened = Tlopen { fid, flags };
    match exchange(alloc, nine, &Tmessage::Lopen(opened))? {
        Rmessage::Lopen(reply) => Ok(Ok(reply.qid)),
        Rmessage::Lerror(reply) => Ok(Err(reply.ecode)),
        _ => unreachable!(),
    }
}

// A message for a new file.
fn create_message(
    alloc: Global,
    fid: u32,
    name: &[u8],
    flags: u32,
    mode: u32,
) -> Result<Tmessage, NoMemory>
    requires { name_fault name.now ≡ None }
    ensures { IfOk result (λ m. message_of m ≡ t_lcreate fid name.now flags mode 0) }
{
    let name = text_of(alloc, name)?;
    Ok(Tmessage::Lcreate(Tlcreate {
        fid,
        name,
        flags,
        mode,
        gid: 0,
    }))
}

/// Makes a file of this mode in the directory of a fid, which then names the file and is open by
/// the flags of `open(2)`.
pub fn create<N: Nine>(
    alloc: Global,
    nine: &mut N,
    fid: u32,
    name: &[u8],
    flags: u32,
    mode: u32,
) -> Result<Result<Qid, u32>, NoMemory>
    requires roomy { IsRoomy (N.at nine.old).state }
    requires named { name_fault name.now ≡ None }
    ensures { Changes qid_answer (λ s. created_told s fid name.now flags mode) result
        (N.at nine.old) (N.at nine.new) }
{
    let message = create_message(alloc, fid, name, flags, mode)?;
    match exchange(alloc, nine, &message)? {
        Rmessage::Lcreate(reply) => Ok(Ok(reply.qid)),
        Rmessage::Lerror(reply) => Ok(Err(reply.ecode)),
        _ => unreachable!(),
    }
}

/// Lets a fid go.
pub fn clunk<N: Nine>(alloc: Global, nine: &mut N, fid: u32) -> Result<(), NoMemory>
    requires roomy { IsRoomy (N.at nine.old).state }
    requires known { IsSome (map.get (N.at nine.old).state.fids fid) }
    ensures gone { OnOk result (FidGone fid (N.at nine.old) (N.at nine.new)) }
    ensures unfinished { OnErr result (FidGoneOrNot fid (N.at nine.old) (N.at nine.new)) }
    ensures kept { Keeps (N.at nine.old) (N.at nine.new) }
{
    let message = Tmessage::Clunk(Tclunk { fid });
    exchange(alloc, nine, &message)?;
    Ok(())
}
