// READ.
ghost use Rattle.std.specs.Prelude.{◌≡◌, ◌≤◌, ◌++◌, [], None, IfOk, OnErr};
ghost use Rattle.fuse_wire.specs.Request.{read};
ghost use Rattle.fid_model.specs.Moments.{Keeps, SameTree};
ghost use Rattle.fuse_gate.specs.Standing.{IsInStep};
ghost use Rattle.fuse_gate.specs.Files.{file_at, ReadsFile};
ghost use Rattle.fuse_wire.specs.Answers.{rest_of};
ghost use Rattle.fuse_gate.specs.Desks.{bytes_told};
ghost use Rattle.fuse_gate.specs.Steps.{ServesRequest};
ghost use Rattle.fuse_gate.specs.Changes.{ServesReading};

use crate::gate::{GREATEST_MSIZE, Gate};
use fid_model::Nine;
use fuse_wire::answers::FsFail;
use fuse_wire::ids::Errno;
use fuse_wire::protocol::MAX_READ;
use p9_client::read;
use p9_wire::protocol::RREAD_HEADER_SIZE;
use port_base::errno::{EBADF, EISDIR};
use port_base::oflag::O_WRONLY;
use tree_model::attributes::QTDIR;

impl Gate {
    // Appends the bytes of a fid's file from an offset on, at most so many, piece by piece: each
    // is as long as a message brings, until none is left to be asked for or one is short. After an
    // error some were appended.
    fn read_pieces<N: Nine>(
        &mut self,
        nine: &mut N,
        fid: u32,
        offset: u64,
        size: u32,
        out: &mut Vec<u8>,
    ) -> Result<(), FsFail>
        requires stands { IsInStep self.old (N.at nine.old).state }
        requires opened { ReadsFile (N.at nine.old).state fid (file_at (N.at nine.old).state fid) }
        requires few { size ≤ MAX_READ }
        ensures served { IfOk (bytes_told (rest_of out.old.items out.new.items) result)
            (λ reply. ServesReading fid offset size
            (self.old, N.at nine.old) (self.new, N.at nine.new) reply) }
        ensures appended { out.new.items ≡ out.old.items ++ rest_of out.old.items out.new.items }
        ensures unfinished { OnErr (bytes_told [] result) (SameTree (N.at nine.old) (N.at nine.new)) }
        ensures kept { Keeps (N.at nine.old) (N.at nine.new) }
    {
        let piece = nine.msize().min(GREATEST_MSIZE) - RREAD_HEADER_SIZE;
        let before = out.len();
        'pieces: loop {
            let had = out.len() - before;
            let asked = (size - had as u32).min(piece);
            let told = read(self.alloc, nine, fid, offset + had as u64, asked)?;
            self.count_message();
            let data = match told {
                Ok(data) => data,
                Err(errno) => return Err(FsFail::Errno(Errno(errno))),
            };
            match out.extend_from_slice(&data.0) {
                Ok(()) => {}
                Err(_) => return Err(FsFail::NoMemory),
            }
            if data.0.len() < asked as usize || out.len() - before == size as usize {
                return Ok(());
            }
        }
    }

    // Appends what is read of a handle's file. After an error some bytes were appended.
    pub(super) fn read<N: Nine>(
        &mut self,
        nine: &mut N,
        handle: u64,
        offset: u64,
        size: u32,
        out: &mut Vec<u8>,
    ) -> Result<(), FsFail>
        requires { IsInStep self.old (N.at nine.old).state }
        ensures served { IfOk (bytes_told (rest_of out.old.items out.new.items) result)
            (λ reply. ServesRequest 0 (read handle offset size 0 None)
            (self.old, N.at nine.old) (self.new, N.at nine.new) reply) }
        ensures appended { out.new.items ≡ out.old.items ++ rest_of out.old.items out.new.items }
        ensures unfinished { OnErr (bytes_told [] result)
            (SameTree (N.at nine.old) (N.at nine.new)) }
        ensures kept { Keeps (N.at nine.old) (N.at nine.new) }
    {
        let Some(found) = self.handles.get(handle).copied() else {
            return Err(FsFail::Errno(Errno(EBADF)));
        };
        if found.kind == QTDIR {
            return Err(FsFail::Errno(Errno(EISDIR)));
        }
        if found.access == O_WRONLY {
            return Err(FsFail::Errno(Errno(EBADF)));
        }
        self.read_pieces(nine, handle as u32, offset, size.min(MAX_READ), out)
    }
}
