// Bind mounts, which end in a change of flags where they are to be read-only.
ghost use Rattle.std.specs.Prelude.{◌≡◌, IfOk};
ghost use Rattle.port_base.specs.Flags.{bits_of};
ghost use Rattle.libmount.specs.Mounters.{Caused, HasRoom, Leaves};
ghost use Rattle.libmount.specs.Mountings.{BindsBare, Ends, MountsBare, bind_call, bind_flags};
ghost use Rattle.libmount.specs.Mountings.{read_only_change};
ghost use Rattle.libmount.specs.MountTables.{mount};
ghost use Rattle.libmount.specs.declared.operation.Operation.TheVariants as operation;

use crate::bind::BindMount;
use crate::errors::{Failure, MountError, OSError};
use crate::failure::explained;
use crate::flag_change::Remount;
use crate::mounter::{MountFault, Mounter};
use crate::mounting::report;
use crate::operation::Operation;
use crate::probe::Probe;
use port_base::flags::MsFlags;
use port_base::sink::NoMemory;
use std::alloc::Global;

fn bind_flags(is_recursive: bool) -> MsFlags
    ensures { bits_of result ≡ bind_flags is_recursive }
{
    if is_recursive {
        MsFlags::MS_BIND.union(MsFlags::MS_REC)
    } else {
        MsFlags::MS_BIND
    }
}

impl BindMount {
    // The bind, without the change to read-only.
    fn bind<M: Mounter>(&self, mounts: &mut M) -> Result<(), MountFault>
        requires { HasRoom (M.table mounts.old) }
        ensures leaves { Leaves (mount (bind_call self.now) (M.table mounts.old))
            (M.table mounts.old) (M.table mounts.new) result }
        ensures caused { Caused (M.calls mounts.old) (M.calls mounts.new) result }
    {
        let flags = bind_flags(self.is_recursive());
        mounts.mount(Some(self.source()), self.target(), None, flags, None)
    }

    // The change that makes the bind read-only.
    fn read_only_change(&self, alloc: Global) -> Result<Remount, NoMemory>
        ensures { IfOk result (λ change. change ≡ read_only_change self.now) }
    {
        let target = self.target().to_vec(alloc).map_err(|_| NoMemory)?;
        Ok(Remount::of(target).bind(true).readonly(true))
    }

    // The bind alone, with the operation in its error.
    #[tactic(auto, using(crate::proofs::MountingLemmas::bare_of))]
    fn bare_bind<M: Mounter>(self, mounts: &mut M) -> Result<(), OSError>
        requires { HasRoom (M.table mounts.old) }
        ensures { MountsBare (mount (bind_call self) (M.table mounts.old)) (operation.Bind self)
            (M.table mounts.old) (M.table mounts.new) (M.calls mounts.old) (M.calls mounts.new)
            result }
    {
        let mounted = self.bind(mounts);
        report(mounted, Operation::Bind(self))
    }

    /// Binds the source to the target, and where the bind is to be read-only changes its flags
    /// then. `Io` is the table's refusal, or 5 where the mounter failed. Where the bind fails the
    /// table is as before; where the change fails the bind stays, and the error holds the change.
    pub fn bare_mount<M: Mounter, P: Probe>(
        self,
        alloc: Global,
        mounts: &mut M,
        probe: &mut P,
    ) -> Result<(), OSError>
        requires { HasRoom (M.table mounts.old) }
        ensures mounted { BindsBare (P.facts probe.old) self (M.table mounts.old)
            (M.table mounts.new)
            (record { mounter = M.calls mounts.old; probe = P.calls probe.old })
            (record { mounter = M.calls mounts.new; probe = P.calls probe.new }) result }
        ensures facts { P.facts probe.new ≡ P.facts probe.old }
    {
        if !self.is_readonly() {
            return self.bare_bind(mounts);
        }
        match self.read_only_change(alloc) {
            Ok(change) => {
                self.bare_bind(mounts)?;
                change.bare_remount(alloc, mounts, probe)
            }
            Err(_) => Err(OSError(MountError::NoMemory, Operation::Bind(self))),
        }
    }

    /// Binds as `bare_mount` does, and explains the error.
    pub fn mount<M: Mounter, P: Probe>(
        self,
        alloc: Global,
        mounts: &mut M,
        probe: &mut P,
    ) -> Result<(), Failure>
        requires { HasRoom (M.table mounts.old) }
        ensures ends { Ends
            (λ bare mid. BindsBare (P.facts probe.old) self (M.table mounts.old)
            (M.table mounts.new)
            (record { mounter = M.calls mounts.old; probe = P.calls probe.old })
            (record { mounter = M.calls mounts.new; probe = mid }) bare)
            (P.facts probe.old) result (P.calls probe.new) }
        ensures facts { P.facts probe.new ≡ P.facts probe.old }
    {
        let bare = self.bare_mount(alloc, mounts, probe);
        explained(bare, alloc, probe)
    }
}
