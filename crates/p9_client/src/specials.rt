//! Links and special files that are asked for. Each call sends one message.
ghost use Rattle.std.specs.Prelude.{◌≡◌, ◌≤◌, ◌<◌, ◌+◌, ◌^◌, length, None, Err, IfOk};
ghost use Rattle.port_base.specs.Names.{name_fault};
ghost use Rattle.port_base.specs.declared.errno.TheConstants.{EACCES};
ghost use Rattle.p9_wire.specs.Values.{TextSpells};
ghost use Rattle.p9_tmsg.specs.Messages.{message_of, message_spelling};
ghost use Rattle.p9_tmsg.specs.Messages.Message.{mknod as t_mknod, symlink as t_symlink};
ghost use Rattle.p9_client.specs.Views.{IsRoomy, qid_answer};
ghost use Rattle.p9_client.specs.Changing.{Shows};

use crate::exchange::exchange;
use crate::texts::text_of;
use fid_model::Nine;
use p9_rmsg::Rmessage;
use p9_tmsg::{Tmessage, Tmknod, Tsymlink};
use p9_wire::qid::Qid;
use p9_wire::text::P9String;
use port_base::sink::NoMemory;
use std::alloc::Global;

/// A device.
#[derive(Clone, Copy, Debug, PartialEq, Eq)]
pub struct Device {
    /// The number of the driver.
    pub major: u32,
    /// The number of the instance.
    pub minor: u32,
}

// A message for a new link.
fn symlink_message(
    alloc: Global,
    fid: u32,
    name: &[u8],
    target: &[u8],
) -> Result<Tmessage, NoMemory>
    requires named { name_fault name.now ≡ None }
    requires text { TextSpells target.now }
    ensures { IfOk result (λ m. message_of m ≡ t_symlink fid name.now target.now 0) }
{
    let name = text_of(alloc, name)?;
    let symtgt = P9String::new(alloc, target).map_err(|_| NoMemory)?;
    Ok(Tmessage::Symlink(Tsymlink {
        fid,
        name,
        symtgt,
        gid: 0,
    }))
}

/// Makes a symbolic link in the directory of a fid. The server refuses it with EACCES.
pub fn symlink<N: Nine>(
    alloc: Global,
    nine: &mut N,
    dfid: u32,
    name: &[u8],
    target: &[u8],
) -> Result<Result<Qid, u32>, NoMemory>
    requires roomy { IsRoomy (N.at nine.old).state }
    requires named { name_fault name.now ≡ None }
    requires text { TextSpells target.now }
    requires fits { 7 + length (message_spelling (t_symlink dfid name.now target.now 0))
        ≤ (N.at nine.old).state.msize }
    ensures { Shows qid_answer (λ s. Err EACCES) result (N.at nine.old) (N.at nine.new) }
{
    let message = symlink_message(alloc, dfid, name, target)?;
    match exchange(alloc, nine, &message)? {
        Rmessage::Symlink(reply) => Ok(Ok(reply.qid)),
        Rmessage::Lerror(reply) => Ok(Err(reply.ecode)),
        _ => unreachable!(),
    }
}

// A message for a new special file.
fn mknod_message(
    alloc: Global,
    dfid: u32,
    name: &[u8],
    mode: u32,
    major: u32,
    minor: u32,
) -> Result<Tmessage, NoMemory>
    requires { name_fault name.now ≡ None }
    ensures exact { IfOk result (λ m. message_of m ≡ t_mknod dfid name.now mode major minor 0) }
    ensures bounded { (major < 2 ^ 32) × (minor < 2 ^ 32) }
{
    let name = text_of(alloc, name)?;
    Ok(Tmessage::Mknod(Tmknod {
        dfid,
        name,
        mode,
        major,
        minor,
        gid: 0,
    }))
}

/// Makes a special file in the directory of a fid. The server refuses it with EACCES.
pub fn mknod<N: Nine>(
    alloc: Global,
    nine: &mut N,
    dfid: u32,
    name: &[u8],
    mode: u32,
    device: Device,
) -> Result<Result<Qid, u32>, NoMemory>
    requires roomy { IsRoomy (N.at nine.old).state }
    requires named { name_fault name.now ≡ None }
    ensures { Shows qid_answer (λ s. Err EACCES) result (N.at nine.old) (N.at nine.new) }
{
    let Device { major, minor } = device;
    let message = mknod_message(alloc, dfid, name, mode, major, minor)?;
    match exchange(alloc, nine, &message)? {
        Rmessage::Mknod(reply) => Ok(Ok(reply.qid)),
        Rmessage::Lerror(reply) => Ok(Err(reply.ecode)),
        _ => unreachable!(),
    }
}
