// WRITE.
ghost use Rattle.std.specs.Prelude.{IfOk, OnErr};
ghost use Rattle.fuse_wire.specs.Request.{write};
ghost use Rattle.fid_model.specs.Moments.{Keeps};
ghost use Rattle.fuse_gate.specs.Standing.{IsInStep};
ghost use Rattle.fuse_gate.specs.Replies.{reply_of};
ghost use Rattle.fuse_gate.specs.Steps.{ServesRequest, LeavesPartOf};
ghost use Rattle.fuse_gate.specs.Writing.{WritesFile, LeavesFront, ServesWriting};

use crate::gate::reply::Reply;
use crate::gate::{GREATEST_MSIZE, Gate};
use fid_model::Nine;
use p9_client::write;
use p9_wire::protocol::TWRITE_HEADER_SIZE;
use port_base::errno::{EBADF, EFBIG};
use port_base::oflag::O_RDONLY;
use port_base::sink::NoMemory;

impl Gate {
    // Writes bytes by a fid at an offset, or at the file's end where it appends, piece by piece:
    // each is as long as a message takes, until none is left or one is written short.
    fn write_pieces<N: Nine>(
        &mut self,
        nine: &mut N,
        fid: u32,
        offset: u64,
        bytes: &[u8],
    ) -> Result<Reply, NoMemory>
        requires stands { IsInStep self.old (N.at nine.old).state }
        requires opened { WritesFile (N.at nine.old).state fid }
        ensures served { IfOk result (λ reply. ServesWriting fid offset bytes.now
            (self.old, N.at nine.old) (self.new, N.at nine.new) (reply_of reply)) }
        ensures unfinished { OnErr result (LeavesFront fid offset bytes.now
            (N.at nine.old).state (N.at nine.new).state.tree) }
        ensures kept { Keeps (N.at nine.old) (N.at nine.new) }
    {
        let most = (nine.msize().min(GREATEST_MSIZE) - TWRITE_HEADER_SIZE) as usize;
        let mut written = 0;
        'pieces: loop {
            let size = (bytes.len() - written).min(most);
            let place = offset.saturating_add(written as u64);
            let told = write(
                self.alloc,
                nine,
                fid,
                place,
                &bytes[written..written + size],
            )?;
            self.count_message();
            let count = match told {
                Ok(count) => count as usize,
                Err(errno) => {
                    if errno == EFBIG && written > 0 {
                        return Ok(Reply::Written(written as u32));
                    }
                    return Ok(Reply::Refused(errno));
                }
            };
            written += count;
            if count < size || written == bytes.len() {
                return Ok(Reply::Written(written as u32));
            }
        }
    }

    // Writes into a handle's file.
    pub(super) fn write<N: Nine>(
        &mut self,
        nine: &mut N,
        handle: u64,
        offset: u64,
        bytes: &[u8],
    ) -> Result<Reply, NoMemory>
        requires { IsInStep self.old (N.at nine.old).state }
        ensures served { IfOk result (λ reply. ServesRequest 0 (write handle offset bytes.now)
            (self.old, N.at nine.old) (self.new, N.at nine.new) (reply_of reply)) }
        ensures unfinished { OnErr result (LeavesPartOf 0 (write handle offset bytes.now)
            (self.old, N.at nine.old) (N.at nine.new)) }
        ensures kept { Keeps (N.at nine.old) (N.at nine.new) }
    {
        let Some(found) = self.handles.get(handle).copied() else {
            return Ok(Reply::Refused(EBADF));
        };
        if found.access == O_RDONLY {
            return Ok(Reply::Refused(EBADF));
        }
        self.write_pieces(nine, handle as u32, offset, bytes)
    }
}
