//! Twrite: bytes are written through a fid.
ghost use Rattle.std.specs.Prelude.{◌≡◌, ◌≢◌, ◌<◌, ℕ, Some, Ok, Err};
ghost use Rattle.std.specs.FinMap as map;
ghost use Rattle.p9_tmsg.specs.Messages.Message.{write};
ghost use Rattle.p9_rmsg.specs.Replies.Reply.{write as written};
ghost use Rattle.tree_host.specs.Holds.{hold_count};
ghost use Rattle.tree_host.specs.Host.{Answers};
ghost use Rattle.fid_model.specs.Fids.{Fid, is_writable};
ghost use Rattle.fid_model.specs.Files.{write_place};
ghost use Rattle.p9_server.specs.Walking.{Counts};
ghost use Rattle.p9_server.specs.Steps.{moment_of, Steps, open_told};

use super::Server;
use crate::fid_state::FidState;
use port_base::errno::EBADF;
use tree_host::Host;
use tree_model::HostError;

// Where bytes are written through a fid: at the file's end, if it appends.
fn write_place<H: Host>(host: &mut H, state: &FidState, offset: u64) -> Result<u64, HostError>
    requires { 0 < hold_count (H.holds host.old) state.now.ino }
    ensures answer { Answers (Ok (write_place (H.tree host.old) state.now offset)) result }
    ensures tree { H.tree host.new ≡ H.tree host.old }
    ensures holds { H.holds host.new ≡ H.holds host.old }
    ensures memory { result ≢ Err HostError.NoMemory }
    ensures cause { Counts (H.calls host.old) (H.calls host.new) result }
    ensures steady { (H.calls host.new).steady ≡ (H.calls host.old).steady }
{
    if !state.appends() {
        return Ok(offset);
    }
    let attr = host.stat(state.ino())?;
    Ok(attr.size)
}

impl<H: Host> Server<H> {
    // Writes bytes through a fid that is open to write, as many as end by the limit of a file, and
    // tells how many.
    pub(super) fn write(&mut self, fid: u32, offset: u64, bytes: &[u8]) -> Result<u32, HostError>
        ensures step { Steps (write fid offset bytes.now) written
            (moment_of (H.tree self.old.host) (H.calls self.old.host)
            self.old.fids self.old.msize self.old.share self.old.asked)
            (moment_of (H.tree self.new.host) (H.calls self.new.host)
            self.new.fids self.new.msize self.new.share self.new.asked) result }
        ensures steady { (H.calls self.new.host).steady ≡ (H.calls self.old.host).steady }
        ensures fixed { (self.new.msize ≡ self.old.msize) × (self.new.share ≡ self.old.share) }
        ensures asked { self.new.asked ≡ self.old.asked }
    {
        let Some(state) = self.fids.get(fid as u64) else {
            return Err(HostError::Errno(EBADF));
        };
        if !state.is_writable() {
            return Err(HostError::Errno(EBADF));
        }
        let ino = state.ino();
        let place = write_place(&mut self.host, state, offset)?;
        let count = self.host.write_at(ino, place, bytes)?;
        Ok(count as u32)
    }
}
