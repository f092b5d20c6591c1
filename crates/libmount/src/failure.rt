// Errors of operations on mounts, explained.
ghost use Rattle.std.specs.Prelude.{◌≡◌, IfOk};
ghost use Rattle.std.specs.String.{string_bytes};
ghost use Rattle.libmount.specs.OperationTexts.{ExplainsError, Fails, TellsFailure};
ghost use Rattle.libmount.specs.OperationTexts.{explanation_of, reason, told_error};
ghost use Rattle.libmount.specs.Probes.{Explains};
ghost use Rattle.libmount.specs.declared.errors.MountError.TheVariants as mount_error;

use crate::errors::{Error, Failure, MountError, OSError, RemountError};
use crate::explanation::Explainable;
use crate::probe::Probe;
use port_base::buffer::push;
use port_base::errno::EIO;
use port_base::sink::NoMemory;
use std::alloc::Global;

impl RemountError {
    // Why the flags of a mount can't be told, with a comma behind it.
    #[tactic(auto, unfolding(crate::specs::OperationTexts::reason))]
    fn reason(&self, alloc: Global) -> Result<String, NoMemory>
        ensures { IfOk result
            (λ text. string_bytes text ≡ reason (mount_error.Remount self.now)) }
    {
        match self {
            RemountError::Io(cause) => format!(in alloc; "{cause}, ").map_err(|_| NoMemory),
            error => format!(in alloc; "{error}, ").map_err(|_| NoMemory),
        }
    }
}

impl MountError {
    // What stands before the explanation.
    #[tactic(auto, unfolding(crate::specs::OperationTexts::reason))]
    fn reason(&self, alloc: Global) -> Result<Vec<u8>, NoMemory>
        ensures { IfOk result (λ text. text.items ≡ reason self.now) }
    {
        let mut out = Vec::new(alloc);
        match self {
            MountError::Io(_) => {}
            MountError::Remount(error) => push(&mut out, error.reason(alloc)?.as_bytes())?,
            MountError::NoMemory => {}
        }
        Ok(out)
    }

    // The error that is told beside the explanation.
    fn told(self) -> MountError
        ensures { result ≡ told_error self }
    {
        match self {
            MountError::Remount(RemountError::Io(_)) => MountError::Io(EIO),
            error => error,
        }
    }
}

impl OSError {
    // The explanation, behind the reason where the flags of a mount can't be told.
    fn explanation<P: Probe>(&self, alloc: Global, probe: &mut P) -> Result<Vec<u8>, NoMemory>
        ensures told { IfOk result
            (λ text. Explains (P.facts probe.old) (explanation_of self.now) text.items
            (P.calls probe.old) (P.calls probe.new)) }
        ensures facts { P.facts probe.new ≡ P.facts probe.old }
    {
        let mut out = self.0.reason(alloc)?;
        let text = self.1.explain(alloc, probe)?;
        push(&mut out, &text)?;
        Ok(out)
    }

    /// The error with what the probe tells of the operation's paths. Without memory it is handed
    /// back as it was.
    pub fn explain<P: Probe>(self, alloc: Global, probe: &mut P) -> Result<Error, OSError>
        ensures explained { ExplainsError (P.facts probe.old) self result (P.calls probe.old)
            (P.calls probe.new) }
        ensures facts { P.facts probe.new ≡ P.facts probe.old }
    {
        match self.explanation(alloc, probe) {
            Ok(text) => {
                let OSError(error, operation) = self;
                Ok(Error(operation, error.told(), text))
            }
            Err(_) => Err(self),
        }
    }

    // The error, explained where there is memory for it.
    fn into_failure<P: Probe>(self, alloc: Global, probe: &mut P) -> Failure
        ensures failed { Fails (P.facts probe.old) self result (P.calls probe.old)
            (P.calls probe.new) }
        ensures facts { P.facts probe.new ≡ P.facts probe.old }
    {
        match self.explain(alloc, probe) {
            Ok(error) => Failure::Explained(error),
            Err(error) => Failure::Bare(error),
        }
    }
}

// What an operation answered, with its error explained.
pub(crate) fn explained<P: Probe>(
    bare: Result<(), OSError>,
    alloc: Global,
    probe: &mut P,
) -> Result<(), Failure>
    ensures told { TellsFailure (P.facts probe.old) bare result (P.calls probe.old)
        (P.calls probe.new) }
    ensures facts { P.facts probe.new ≡ P.facts probe.old }
{
    match bare {
        Ok(()) => Ok(()),
        Err(error) => Err(error.into_failure(alloc, probe)),
    }
}
