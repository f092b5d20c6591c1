//! The five operations on mounts, as one type.
ghost use Rattle.std.specs.Prelude.{Some};
ghost use Rattle.libmount.specs.OperationTexts.{operation_explanation, operation_text};

use crate::bind::BindMount;
use crate::explanation::Explainable;
use crate::flag_change::Remount;
use crate::move_mount::Move;
use crate::overlay::Overlay;
use crate::probe::Probe;
use crate::tmpfs::Tmpfs;
use port_base::sink::NoMemory;
use std::alloc::Global;
use std::fmt;

/// What was to be mounted.
#[derive(Debug, Drop)]
pub enum Operation {
    Bind(BindMount),
    Move(Move),
    Overlay(Overlay),
    Remount(Remount),
    Tmpfs(Tmpfs),
}

impl fmt::Display for Operation {
    ghost output = { λ operation. Some (operation_text operation) };

    #[tactic(auto, unfolding(crate::specs::OperationTexts::operation_text))]
    fn fmt<W: fmt::Write>(&self, f: &mut fmt::Formatter<W>) -> fmt::Result {
        match self {
            Operation::Bind(bind) => write!(f, "{bind}"),
            Operation::Move(relocation) => write!(f, "{relocation}"),
            Operation::Overlay(overlay) => write!(f, "{overlay}"),
            Operation::Remount(change) => write!(f, "{change}"),
            Operation::Tmpfs(tmpfs) => write!(f, "{tmpfs}"),
        }
    }
}

impl Explainable for Operation {
    ghost explanation = { operation_explanation };

    /// The explanation of the operation that it holds.
    #[tactic(auto, unfolding(crate::specs::OperationTexts::operation_explanation))]
    fn explain<P: Probe>(&self, alloc: Global, probe: &mut P) -> Result<Vec<u8>, NoMemory> {
        match self {
            Operation::Bind(bind) => bind.explain(alloc, probe),
            Operation::Move(relocation) => relocation.explain(alloc, probe),
            Operation::Overlay(overlay) => overlay.explain(alloc, probe),
            Operation::Remount(change) => change.explain(alloc, probe),
            Operation::Tmpfs(tmpfs) => tmpfs.explain(alloc, probe),
        }
    }
}
