// The mounts that builders ask for.
ghost use Rattle.std.specs.Prelude.{◌≡◌, IfOk};
ghost use Rattle.std.specs.String.{string_bytes};
ghost use Rattle.libmount.specs.BuilderTexts.{tmpfs_options};
ghost use Rattle.libmount.specs.Mounters.{HasRoom};
ghost use Rattle.libmount.specs.Mountings.{error_of, move_call, overlay_call, tmpfs_call};
ghost use Rattle.libmount.specs.Mountings.{Ends, MountsBare, Reports};
ghost use Rattle.libmount.specs.MountTables.{mount};
ghost use Rattle.libmount.specs.declared.operation.Operation.TheVariants as operation;

use crate::errors::{Failure, MountError, OSError};
use crate::failure::explained;
use crate::mounter::{MountFault, Mounter};
use crate::move_mount::Move;
use crate::operation::Operation;
use crate::overlay::Overlay;
use crate::probe::Probe;
use crate::tmpfs::Tmpfs;
use port_base::errno::EIO;
use port_base::flags::MsFlags;
use port_base::sink::NoMemory;
use std::alloc::Global;

pub(crate) fn error_of(fault: MountFault) -> MountError
    ensures { result ≡ error_of fault }
{
    match fault {
        MountFault::Errno(errno) => MountError::Io(errno),
        MountFault::Fault => MountError::Io(EIO),
        MountFault::NoMemory => MountError::NoMemory,
    }
}

// What a mounter answered, with the operation where it failed.
pub(crate) fn report(mounted: Result<(), MountFault>, operation: Operation) -> Result<(), OSError>
    ensures { Reports mounted operation result }
{
    match mounted {
        Ok(()) => Ok(()),
        Err(fault) => Err(OSError(error_of(fault), operation)),
    }
}

impl Move {
    /// Moves the mount. `Io` is the table's refusal, or 5 where the mounter failed; then the table
    /// is as before.
    #[tactic(auto, using(crate::proofs::MountingLemmas::bare_of))]
    pub fn bare_move_mountpoint<M: Mounter>(
        self,
        _alloc: Global,
        mounts: &mut M,
    ) -> Result<(), OSError>
        requires { HasRoom (M.table mounts.old) }
        ensures { MountsBare (mount (move_call self) (M.table mounts.old)) (operation.Move self)
            (M.table mounts.old) (M.table mounts.new) (M.calls mounts.old) (M.calls mounts.new)
            result }
    {
        let mounted = mounts.mount(
            Some(self.source()),
            self.target(),
            None,
            MsFlags::MS_MOVE,
            None,
        );
        report(mounted, Operation::Move(self))
    }

    /// Moves the mount as `bare_move_mountpoint` does, and explains the error.
    pub fn move_mountpoint<M: Mounter, P: Probe>(
        self,
        alloc: Global,
        mounts: &mut M,
        probe: &mut P,
    ) -> Result<(), Failure>
        requires { HasRoom (M.table mounts.old) }
        ensures ends { Ends
            (λ bare mid. MountsBare (mount (move_call self) (M.table mounts.old))
            (operation.Move self) (M.table mounts.old) (M.table mounts.new) (M.calls mounts.old)
            (M.calls mounts.new) bare × (mid ≡ P.calls probe.old))
            (P.facts probe.old) result (P.calls probe.new) }
        ensures facts { P.facts probe.new ≡ P.facts probe.old }
    {
        let bare = self.bare_move_mountpoint(alloc, mounts);
        explained(bare, alloc, probe)
    }
}

impl Overlay {
    /// Mounts the overlay. `Io` is the table's refusal, or 5 where the mounter failed; then the
    /// table is as before.
    #[tactic(auto, using(crate::proofs::MountingLemmas::bare_of))]
    pub fn bare_mount<M: Mounter>(self, alloc: Global, mounts: &mut M) -> Result<(), OSError>
        requires { HasRoom (M.table mounts.old) }
        ensures { MountsBare (mount (overlay_call self) (M.table mounts.old))
            (operation.Overlay self) (M.table mounts.old) (M.table mounts.new) (M.calls mounts.old)
            (M.calls mounts.new) result }
    {
        let Ok(options) = self.options(alloc) else {
            return Err(OSError(MountError::NoMemory, Operation::Overlay(self)));
        };
        let no_flags = MsFlags::from_bits_truncate(0);
        let mounted = mounts.mount(
            Some(b"overlay"),
            self.target(),
            Some(b"overlay"),
            no_flags,
            Some(&options),
        );
        report(mounted, Operation::Overlay(self))
    }

    /// Mounts as `bare_mount` does, and explains the error.
    pub fn mount<M: Mounter, P: Probe>(
        self,
        alloc: Global,
        mounts: &mut M,
        probe: &mut P,
    ) -> Result<(), Failure>
        requires { HasRoom (M.table mounts.old) }
        ensures ends { Ends
            (λ bare mid. MountsBare (mount (overlay_call self) (M.table mounts.old))
            (operation.Overlay self) (M.table mounts.old) (M.table mounts.new) (M.calls mounts.old)
            (M.calls mounts.new) bare × (mid ≡ P.calls probe.old))
            (P.facts probe.old) result (P.calls probe.new) }
        ensures facts { P.facts probe.new ≡ P.facts probe.old }
    {
        let bare = self.bare_mount(alloc, mounts);
        explained(bare, alloc, probe)
    }
}

impl Tmpfs {
    // The options of the mount.
    #[tactic(auto, unfolding(crate::specs::BuilderTexts::tmpfs_options))]
    fn options_text(&self, alloc: Global) -> Result<String, NoMemory>
        ensures { IfOk result (λ text. string_bytes text ≡ tmpfs_options self.now) }
    {
        format!(in alloc; "{}", self.options()).map_err(|_| NoMemory)
    }

    /// Mounts the file system. `Io` is the table's refusal, or 5 where the mounter failed; then
    /// the table is as before.
    #[tactic(auto, using(crate::proofs::MountingLemmas::bare_of))]
    pub fn bare_mount<M: Mounter>(self, alloc: Global, mounts: &mut M) -> Result<(), OSError>
        requires { HasRoom (M.table mounts.old) }
        ensures { MountsBare (mount (tmpfs_call self) (M.table mounts.old)) (operation.Tmpfs self)
            (M.table mounts.old) (M.table mounts.new) (M.calls mounts.old) (M.calls mounts.new)
            result }
    {
        let Ok(options) = self.options_text(alloc) else {
            return Err(OSError(MountError::NoMemory, Operation::Tmpfs(self)));
        };
        let flags = MsFlags::MS_NOSUID.union(MsFlags::MS_NODEV);
        let mounted = mounts.mount(
            Some(b"tmpfs"),
            self.target(),
            Some(b"tmpfs"),
            flags,
            Some(options.as_bytes()),
        );
        report(mounted, Operation::Tmpfs(self))
    }

    /// Mounts as `bare_mount` does, and explains the error.
    pub fn mount<M: Mounter, P: Probe>(
        self,
        alloc: Global,
        mounts: &mut M,
        probe: &mut P,
    ) -> Result<(), Failure>
        requires { HasRoom (M.table mounts.old) }
        ensures ends { Ends
            (λ bare mid. MountsBare (mount (tmpfs_call self) (M.table mounts.old))
            (operation.Tmpfs self) (M.table mounts.old) (M.table mounts.new) (M.calls mounts.old)
            (M.calls mounts.new) bare × (mid ≡ P.calls probe.old))
            (P.facts probe.old) result (P.calls probe.new) }
        ensures facts { P.facts probe.new ≡ P.facts probe.old }
    {
        let bare = self.bare_mount(alloc, mounts);
        explained(bare, alloc, probe)
    }
}
