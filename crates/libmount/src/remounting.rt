// Changes of the flags of mounts.
ghost use Rattle.std.specs.Prelude.{◌≡◌, OnOk, reverse, slice_index};
ghost use Rattle.port_base.specs.Flags.{bits_of};
ghost use Rattle.port_base.specs.Paths.{is_slash};
ghost use Rattle.libmount.specs.Mounters.{Caused, Leaves};
ghost use Rattle.libmount.specs.Mountings.{Ends, Prints, RemountsBare, TellsFlags, TellsPlace};
ghost use Rattle.libmount.specs.Mountings.{Tries, below, remount_call};
ghost use Rattle.libmount.specs.MountTables.{is_absolute, mount};
ghost use Rattle.libmount.specs.ReadBack.{flags_of_last};

use crate::errors::{Failure, IoCause, MountError, OSError, RemountError};
use crate::failure::explained;
use crate::flag_change::Remount;
use crate::mounter::{MountFault, Mounter};
use crate::mounting::error_of;
use crate::operation::Operation;
use crate::probe::{Probe, ProbeFault};
use crate::remount::flags_from;
use port_base::buffer::push;
use port_base::flags::MsFlags;
use port_base::sink::NoMemory;
use std::alloc::Global;

fn is_absolute(path: &[u8]) -> bool
    ensures { result ≡ is_absolute path.now }
{
    path.first() == Some(&b'/')
}

fn ends_in_slash(dir: &[u8]) -> bool
    ensures { result ≡ is_slash (slice_index (reverse dir.now) 0) }
{
    dir.last() == Some(&b'/')
}

// A relative path behind a directory.
fn push_below(dir: &mut Vec<u8>, path: &[u8]) -> Result<(), NoMemory>
    ensures { OnOk result (dir.new.items ≡ below dir.old.items path.now) }
{
    if !dir.is_empty() && !ends_in_slash(dir) {
        push(dir, b"/")?;
    }
    push(dir, path)
}

// The absolute path that a path stands for.
fn place_of<P: Probe>(alloc: Global, path: &[u8], probe: &mut P) -> Result<Vec<u8>, RemountError>
    ensures told { TellsPlace (P.facts probe.old) path.now result (P.calls probe.old)
        (P.calls probe.new) }
    ensures facts { P.facts probe.new ≡ P.facts probe.old }
{
    if is_absolute(path) {
        return path.to_vec(alloc).map_err(|_| RemountError::NoMemory);
    }
    match probe.current_dir(alloc) {
        Ok(mut dir) => match push_below(&mut dir, path) {
            Ok(()) => Ok(dir),
            Err(_) => Err(RemountError::NoMemory),
        },
        Err(ProbeFault::Fault) => Err(RemountError::Io(IoCause::CurrentDir)),
        Err(ProbeFault::NoMemory) => Err(RemountError::NoMemory),
    }
}

// The table as its mounter prints it.
fn printed<M: Mounter>(alloc: Global, mounts: &mut M) -> Result<Vec<u8>, RemountError>
    ensures told { Prints (M.table mounts.old) result (M.calls mounts.old) (M.calls mounts.new) }
    ensures table { M.table mounts.new ≡ M.table mounts.old }
{
    match mounts.print(alloc) {
        Ok(text) => Ok(text),
        Err(MountFault::NoMemory) => Err(RemountError::NoMemory),
        Err(_) => Err(RemountError::Io(IoCause::MountInfo)),
    }
}

// The flags of the last mount at a place, read from the table that its mounter prints.
fn found_flags<M: Mounter>(
    alloc: Global,
    place: &[u8],
    mounts: &mut M,
) -> Result<Option<MsFlags>, RemountError>
    ensures told { TellsFlags (flags_of_last place.now (M.table mounts.old).rows) result
        (M.calls mounts.old) (M.calls mounts.new) }
    ensures table { M.table mounts.new ≡ M.table mounts.old }
{
    let text = printed(alloc, mounts)?;
    flags_from(alloc, &text, place)
}

impl Remount {
    // The mount that changes the flags of a place.
    #[tactic(auto, using(crate::proofs::MountingLemmas::asks_a_change))]
    fn change<M: Mounter>(
        &self,
        place: &[u8],
        flags: MsFlags,
        mounts: &mut M,
    ) -> Result<(), MountFault>
        ensures leaves { Leaves
            (mount (remount_call self.now place.now (bits_of flags)) (M.table mounts.old))
            (M.table mounts.old) (M.table mounts.new) result }
        ensures caused { Caused (M.calls mounts.old) (M.calls mounts.new) result }
    {
        let flags = self.apply_to_flags(flags).union(MsFlags::MS_REMOUNT);
        mounts.mount(None, place, None, flags, None)
    }

    // The change, without the operation in its error.
    fn try_remount<M: Mounter, P: Probe>(
        &self,
        alloc: Global,
        mounts: &mut M,
        probe: &mut P,
    ) -> Result<(), MountError>
        ensures tried { Tries (P.facts probe.old) self.now (M.table mounts.old)
            (M.table mounts.new)
            (record { mounter = M.calls mounts.old; probe = P.calls probe.old })
            (record { mounter = M.calls mounts.new; probe = P.calls probe.new }) result }
        ensures facts { P.facts probe.new ≡ P.facts probe.old }
    {
        let place = place_of(alloc, self.path(), probe).map_err(MountError::Remount)?;
        match found_flags(alloc, &place, mounts) {
            Ok(Some(flags)) => match self.change(&place, flags, mounts) {
                Ok(()) => Ok(()),
                Err(fault) => Err(error_of(fault)),
            },
            Ok(None) => Err(MountError::Remount(RemountError::UnknownMountPoint(place))),
            Err(error) => Err(MountError::Remount(error)),
        }
    }

    /// Changes the flags of the mount at the path; a relative path is taken from the current
    /// directory. The flags that no setter named are those of the last mount there, as the printed
    /// table has them. `Io` is the table's refusal, or 5 where the mounter failed; `Remount` says
    /// why the flags can't be told, which is never that the table couldn't be parsed. After an
    /// error the table is as before.
    pub fn bare_remount<M: Mounter, P: Probe>(
        self,
        alloc: Global,
        mounts: &mut M,
        probe: &mut P,
    ) -> Result<(), OSError>
        ensures mounted { RemountsBare (P.facts probe.old) self (M.table mounts.old)
            (M.table mounts.new)
            (record { mounter = M.calls mounts.old; probe = P.calls probe.old })
            (record { mounter = M.calls mounts.new; probe = P.calls probe.new }) result }
        ensures facts { P.facts probe.new ≡ P.facts probe.old }
    {
        match self.try_remount(alloc, mounts, probe) {
            Ok(()) => Ok(()),
            Err(error) => Err(OSError(error, Operation::Remount(self))),
        }
    }

    /// Changes the flags as `bare_remount` does, and explains the error.
    pub fn remount<M: Mounter, P: Probe>(
        self,
        alloc: Global,
        mounts: &mut M,
        probe: &mut P,
    ) -> Result<(), Failure>
        ensures ends { Ends
            (λ bare mid. RemountsBare (P.facts probe.old) self (M.table mounts.old)
            (M.table mounts.new)
            (record { mounter = M.calls mounts.old; probe = P.calls probe.old })
            (record { mounter = M.calls mounts.new; probe = mid }) bare)
            (P.facts probe.old) result (P.calls probe.new) }
        ensures facts { P.facts probe.new ≡ P.facts probe.old }
    {
        let bare = self.bare_remount(alloc, mounts, probe);
        explained(bare, alloc, probe)
    }
}
