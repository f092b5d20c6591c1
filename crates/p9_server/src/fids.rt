//! Fids that name inodes.
ghost use Rattle.std.specs.Prelude.{◌≡◌, ◌+◌, ℕ, cond, ◌==◌, Err, OnOk, OnErr};
ghost use Rattle.std.specs.FinMap as map;
ghost use Rattle.tree_model.specs.Tree.{keep};
ghost use Rattle.tree_model.specs.Sound.{IsKept};
ghost use Rattle.tree_host.specs.Holds.{hold_count};
ghost use Rattle.fid_model.specs.Fids.{closed, fid_count, is_held};
ghost use Rattle.p9_server.specs.Holding.{AreFids};
ghost use Rattle.p9_server.specs.Steps.{ino_before};

use crate::fid_state::FidState;
use port_base::table::Table;
use tree_host::Host;
use tree_model::HostError;

// The inode that a fid names, if it is there.
fn ino_before(fids: &Table<FidState>, fid: u32) -> Option<u64>
    ensures { result ≡ ino_before (map.get fids.now fid) }
{
    fids.get(fid as u64).map(|state| state.ino())
}

/// Gives a fid, new or not, an inode whose hold was taken. What it named before is let go. Without
/// memory the hold that was taken goes again.
pub fn name_by_fid<H: Host>(
    host: &mut H,
    fids: &mut Table<FidState>,
    fid: u32,
    ino: u64,
) -> Result<(), HostError>
    requires held { (i : ℕ) → hold_count (H.holds host.old) i ≡ fid_count fids.old i
        + cond (ino == i) 1 0 }
    requires kept { IsKept (H.tree host.old).records (is_held fids.old) }
    ensures fids { OnOk result (fids.new ≡ map.insert fids.old fid (closed ino)) }
    ensures memory { OnErr result ((fids.new ≡ fids.old) × (result ≡ Err HostError.NoMemory)) }
    ensures held { AreFids (H.holds host.new) fids.new }
    ensures tree { H.tree host.new ≡ keep (is_held fids.new) (H.tree host.old) }
    ensures calls { H.calls host.new ≡ H.calls host.old }
{
    let before = ino_before(fids, fid);
    match fids.insert(fid as u64, FidState::closed(ino)) {
        Ok(()) => {}
        Err(_) => {
            host.release(ino);
            return Err(HostError::NoMemory);
        }
    }
    match before {
        Some(old) => {
            host.release(old);
            Ok(())
        }
        None => Ok(()),
    }
}

/// Takes all fids away, with their holds. It takes no memory.
pub fn release_all<H: Host>(host: &mut H, fids: &mut Table<FidState>)
    requires { AreFids (H.holds host.old) fids.old }
    ensures fids { fids.new ≡ map.empty }
    ensures holds { H.holds host.new ≡ map.empty }
    ensures tree { H.tree host.new ≡ keep (is_held map.empty) (H.tree host.old) }
    ensures calls { H.calls host.new ≡ H.calls host.old }
{
    while let Some((_, state)) = fids.pop_first() {
        host.release(state.ino());
    }
}
