// The beginning of a session.
ghost use Rattle.std.specs.Prelude.{◌≡◌, ◌≤◌, IfOk};
ghost use Rattle.fid_model.specs.Moments.{Keeps};
ghost use Rattle.fuse_gate.specs.Attaching.{AttachedBy, IsGateAt, refusal};

use crate::gate::{Gate, LEAST_MSIZE, Node, Phase};
use fid_model::Nine;
use fuse_wire::protocol::FUSE_ROOT_ID;
use p9_client::attach;
use p9_wire::qid::Qid;
use port_base::errno::ENFILE;
use port_base::sink::NoMemory;
use port_base::table::Table;
use std::alloc::Global;
use std::error::Error;
use std::fmt;

/// Why a gate couldn't begin.
#[derive(Clone, Copy, Debug, PartialEq, Eq)]
pub enum AttachError {
    /// The server refused, with an error number of the system.
    Errno(u32),
    /// There was no memory.
    NoMemory,
}

impl fmt::Display for AttachError {
    fn fmt<W: fmt::Write>(&self, f: &mut fmt::Formatter<W>) -> fmt::Result {
        match self {
            AttachError::Errno(errno) => write!(f, "the share's root was refused, errno {errno}"),
            AttachError::NoMemory => write!(f, "out of memory"),
        }
    }
}

impl Error for AttachError {}

// The fid of the root: its node id.
const ROOT_FID: u32 = FUSE_ROOT_ID as u32;

// A gate whose node 1 is the root, after one message.
fn gate_at(alloc: Global, root: Qid) -> Result<Gate, NoMemory>
    ensures { IfOk result (IsGateAt root.path root.ty) }
{
    let mut nodes = Table::new(alloc);
    let mut ids = Table::new(alloc);
    let node = Node {
        ino: root.path,
        count: 1,
        kind: root.ty,
    };
    nodes.insert(FUSE_ROOT_ID, node).map_err(|_| NoMemory)?;
    ids.insert(root.path, FUSE_ROOT_ID).map_err(|_| NoMemory)?;
    Ok(Gate {
        alloc,
        phase: Phase::New,
        nodes,
        handles: Table::new(alloc),
        ids,
        next: ROOT_FID + 1,
        used: 1,
        nine_frames: 1,
    })
}

// Where there may be no fid, that is told, whatever else failed.
fn refusal(limit: u32, errno: u32) -> u32
    ensures { result ≡ refusal limit errno }
{
    if limit == 0 { ENFILE } else { errno }
}

impl Gate {
    /// Takes all fids of the server away, and attaches to the root of its share.
    ///
    /// ENFILE exactly where there may be no fid, ENOENT or ENOTDIR by the root's path; EIO only
    /// where the server's count of faults rose. After an error the server has no fid.
    pub fn new<N: Nine>(alloc: Global, nine: &mut N) -> Result<Gate, AttachError>
        requires { LEAST_MSIZE ≤ (N.at nine.old).state.msize }
        ensures attached { AttachedBy (N.at nine.old) (N.at nine.new) result }
        ensures kept { Keeps (N.at nine.old) (N.at nine.new) }
    {
        nine.clear_fids(); // An earlier gate may have left some.
        let attached = match attach(alloc, nine, ROOT_FID) {
            Ok(attached) => attached,
            Err(_) => {
                nine.clear_fids();
                return Err(AttachError::NoMemory);
            }
        };
        match attached {
            Ok(root) => match gate_at(alloc, root) {
                Ok(gate) => Ok(gate),
                Err(_) => {
                    nine.clear_fids();
                    Err(AttachError::NoMemory)
                }
            },
            Err(errno) => Err(AttachError::Errno(refusal(nine.fid_limit(), errno))),
        }
    }
}
