// SETATTR.
ghost use Rattle.std.specs.Prelude.{◌≡◌, IfOk, OnErr};
ghost use Rattle.port_base.specs.OpenFlags.{has_flag};
ghost use Rattle.fuse_wire.specs.Request.{setattr};
ghost use Rattle.tree_machine.specs.Setting.{given_handle};
ghost use Rattle.fid_model.specs.Moments.{Keeps};
ghost use Rattle.fuse_gate.specs.Standing.{IsInStep};
ghost use Rattle.fuse_gate.specs.Replies.{reply_of};
ghost use Rattle.fuse_gate.specs.Setting.{is_given, nine_valid, set_message, with_bit};
ghost use Rattle.fuse_gate.specs.Steps.{ServesRequest, LeavesPartOf};

use crate::gate::Gate;
use crate::gate::reply::Reply;
use fid_model::Nine;
use fid_model::setattr::{
    P9_SETATTR_ATIME, P9_SETATTR_ATIME_SET, P9_SETATTR_CTIME, P9_SETATTR_GID, P9_SETATTR_MODE,
    P9_SETATTR_MTIME, P9_SETATTR_MTIME_SET, P9_SETATTR_SIZE, P9_SETATTR_UID,
};
use fuse_wire::setattr::{
    FATTR_ATIME, FATTR_ATIME_NOW, FATTR_CTIME, FATTR_FH, FATTR_GID, FATTR_MODE, FATTR_MTIME,
    FATTR_MTIME_NOW, FATTR_SIZE, FATTR_UID, SetAttrIn,
};
use p9_client::set_attr;
use p9_tmsg::Tsetattr;
use port_base::oflag::has_flag;
use port_base::sink::NoMemory;

// The handle that is given.
fn given_handle(asked: &SetAttrIn) -> Option<u64>
    ensures { result ≡ given_handle asked.now }
{
    if has_flag(asked.valid, FATTR_FH) {
        Some(asked.fh)
    } else {
        None
    }
}

// The bits, and one more of 9P where FUSE's bit for it is set.
fn with_bit(bits: u32, nine: u32, valid: u32, fuse: u32) -> u32
    ensures { result ≡ with_bit (has_flag fuse valid) nine bits }
{
    if has_flag(valid, fuse) {
        bits | nine
    } else {
        bits
    }
}

// The bits, and one more of 9P where a time is set that doesn't become the moment.
fn with_given(bits: u32, nine: u32, valid: u32, time: u32, now: u32) -> u32
    ensures { result ≡ with_bit (is_given time now valid) nine bits }
{
    if has_flag(valid, time) && !has_flag(valid, now) {
        bits | nine
    } else {
        bits
    }
}

// The bits of a Tsetattr that say what those of a SETATTR say.
fn nine_valid(valid: u32) -> u32
    ensures { result ≡ nine_valid valid }
{
    let bits = with_bit(0, P9_SETATTR_MODE, valid, FATTR_MODE);
    let bits = with_bit(bits, P9_SETATTR_UID, valid, FATTR_UID);
    let bits = with_bit(bits, P9_SETATTR_GID, valid, FATTR_GID);
    let bits = with_bit(bits, P9_SETATTR_SIZE, valid, FATTR_SIZE);
    let bits = with_bit(bits, P9_SETATTR_ATIME, valid, FATTR_ATIME);
    let bits = with_bit(bits, P9_SETATTR_MTIME, valid, FATTR_MTIME);
    let bits = with_bit(bits, P9_SETATTR_CTIME, valid, FATTR_CTIME);
    let bits = with_given(
        bits,
        P9_SETATTR_ATIME_SET,
        valid,
        FATTR_ATIME,
        FATTR_ATIME_NOW,
    );
    with_given(
        bits,
        P9_SETATTR_MTIME_SET,
        valid,
        FATTR_MTIME,
        FATTR_MTIME_NOW,
    )
}

// The message that sets for a fid what is asked.
fn set_message(fid: u32, asked: &SetAttrIn) -> Tsetattr
    ensures { result ≡ set_message fid asked.now }
{
    Tsetattr {
        fid,
        valid: nine_valid(asked.valid),
        mode: asked.mode,
        uid: asked.uid,
        gid: asked.gid,
        size: asked.size,
        atime_sec: asked.atime,
        atime_nsec: asked.atimensec as u64,
        mtime_sec: asked.mtime,
        mtime_nsec: asked.mtimensec as u64,
    }
}

impl Gate {
    // Sets attributes of a handle's file, or of a node, and tells them all.
    pub(super) fn setattr<N: Nine>(
        &mut self,
        nine: &mut N,
        node: u64,
        asked: SetAttrIn,
    ) -> Result<Reply, NoMemory>
        requires { IsInStep self.old (N.at nine.old).state }
        ensures served { IfOk result (λ reply. ServesRequest node (setattr asked)
            (self.old, N.at nine.old) (self.new, N.at nine.new) (reply_of reply)) }
        ensures unfinished { OnErr result (LeavesPartOf node (setattr asked)
            (self.old, N.at nine.old) (N.at nine.new)) }
        ensures kept { Keeps (N.at nine.old) (N.at nine.new) }
    {
        let fid = match self.subject(nine, node, given_handle(&asked)) {
            Ok(fid) => fid,
            Err(errno) => return Ok(Reply::Refused(errno)),
        };
        let told = set_attr(self.alloc, nine, set_message(fid, &asked))?;
        self.count_message();
        if let Err(errno) = told {
            return Ok(Reply::Refused(errno));
        }
        match self.show(nine, fid)? {
            Ok(attr) => Ok(Reply::Attributes(attr)),
            Err(errno) => Ok(Reply::Refused(errno)),
        }
    }
}
