//! What tells of the system around a mount.
ghost use Rattle.std.specs.Prelude.{◌≡◌, Option, None, false};
ghost use Rattle.libmount.specs.Probes.{Facts, ToldBy, ToldOrFault};
ghost use Rattle.libmount.specs.Mounters.{Calls};
ghost use Rattle.libmount.specs.declared.probe.User.TheVariants as user_kind;

use std::alloc::Global;
use std::fmt;

/// Who a program runs as.
#[derive(Clone, Copy, Debug, PartialEq, Eq)]
pub enum User {
    /// A user without the rights of root.
    Regular,
    /// Root, with all users as they are.
    RootIdentity,
    /// Root of a user namespace.
    RootMapped,
    /// Root, and what users there are can't be read.
    RootUnreadable,
}

/// Why a probe doesn't tell.
#[derive(Clone, Copy, Debug, PartialEq, Eq)]
pub enum ProbeFault {
    /// The probe failed.
    Fault,
    NoMemory,
}

impl fmt::Display for ProbeFault {
    fn fmt<W: fmt::Write>(&self, f: &mut fmt::Formatter<W>) -> fmt::Result {
        match self {
            ProbeFault::Fault => f.write_str("the probe failed"),
            ProbeFault::NoMemory => f.write_str("no memory"),
        }
    }
}

impl std::error::Error for ProbeFault {}

/// The system around a mount. An answer differs from the facts only where the count of faults
/// rose, and never where the probe is steady. No call changes the facts, or whether they are told.
pub trait Probe {
    /// The facts, where they are told.
    ghost facts: { Self → Option Facts };

    /// How many faults were counted, and whether no call faults.
    ghost calls: { Self → Calls };

    /// Whether there is something at the path; `false` for a fault.
    fn exists(&mut self, path: &[u8]) -> bool
        ensures told { ToldBy (facts self.old) (λ (f : Facts). f.exists path.now) false result
            (calls self.old) (calls self.new) }
        ensures facts { facts self.new ≡ facts self.old };

    /// The number of the device that the path lies on, where there is something at the path;
    /// `None` for a fault.
    fn device(&mut self, path: &[u8]) -> Option<u64>
        ensures told { ToldBy (facts self.old) (λ (f : Facts). f.device path.now) None result
            (calls self.old) (calls self.new) }
        ensures facts { facts self.new ≡ facts self.old };

    /// Who the program runs as; `RootUnreadable` for a fault.
    fn user(&mut self) -> User
        ensures told { ToldBy (facts self.old) (λ (f : Facts). f.user) user_kind.RootUnreadable
            result (calls self.old) (calls self.new) }
        ensures facts { facts self.new ≡ facts self.old };

    /// The current directory.
    fn current_dir(&mut self, alloc: Global) -> Result<Vec<u8>, ProbeFault>
        ensures told { ToldOrFault (facts self.old) (λ (f : Facts). f.dir) result (calls self.old)
            (calls self.new) }
        ensures facts { facts self.new ≡ facts self.old };
}
