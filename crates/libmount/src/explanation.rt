//! Why a mount failed, in words.
ghost use Rattle.std.specs.Prelude.{◌≡◌, ◌∷◌, ◌++◌, [], ℕ, List, IfOk, OnErr, codes, false};
ghost use Rattle.libmount.specs.Explanations.{bind_explanation, listed, relocation_explanation};
ghost use Rattle.libmount.specs.Explanations.{remount_explanation, tmpfs_explanation};
ghost use Rattle.libmount.specs.Probes.{Explains, Facts, ToldBy, exists_text, user_text};
ghost use Rattle.libmount.specs.declared.probe.User.TheVariants as user_kind;

use crate::bind::BindMount;
use crate::flag_change::Remount;
use crate::move_mount::Move;
use crate::probe::{Probe, User};
use crate::tmpfs::Tmpfs;
use port_base::buffer::push;
use port_base::sink::NoMemory;
use std::alloc::Global;
use std::fmt;

/// What a user is told beside the error where an operation on mounts fails.
pub trait Explainable: fmt::Display + fmt::Debug {
    /// The text, from the facts.
    ghost explanation: { Self → Facts → List ℕ };

    /// What the probe tells of the operation's paths and of the user, in parts with commas between
    /// them. It is the text of the facts, or a fault of the probe was counted.
    fn explain<P: Probe>(&self, alloc: Global, probe: &mut P) -> Result<Vec<u8>, NoMemory>
        ensures told { IfOk result
            (λ text. Explains (P.facts probe.old) (explanation self.now) text.items
            (P.calls probe.old) (P.calls probe.new)) }
        ensures facts { P.facts probe.new ≡ P.facts probe.old };
}

/// `exists` where there is something at the path, `missing` where there is nothing or the probe
/// failed.
pub fn exists<P: Probe>(probe: &mut P, path: &[u8]) -> &'static str
    ensures told { ToldBy (P.facts probe.old) (λ (f : Facts). exists_text (f.exists path.now))
        (exists_text false) result.now (P.calls probe.old) (P.calls probe.new) }
    ensures facts { P.facts probe.new ≡ P.facts probe.old }
{
    if probe.exists(path) {
        "exists"
    } else {
        "missing"
    }
}

/// `regular-user`, `superuser`, `mapped-root` or `privileged`, the last also where the probe
/// failed.
pub fn user<P: Probe>(probe: &mut P) -> &'static str
    ensures told { ToldBy (P.facts probe.old) (λ (f : Facts). user_text f.user)
        (user_text user_kind.RootUnreadable) result.now (P.calls probe.old) (P.calls probe.new) }
    ensures facts { P.facts probe.new ≡ P.facts probe.old }
{
    match probe.user() {
        User::Regular => "regular-user",
        User::RootIdentity => "superuser",
        User::RootMapped => "mapped-root",
        User::RootUnreadable => "privileged",
    }
}

// A path of an operation, and the user.
pub(crate) fn tell_path(
    alloc: Global,
    name: &[u8],
    state: &str,
    user: &str,
) -> Result<Vec<u8>, NoMemory>
    ensures { IfOk result
        (λ text. text.items ≡ listed ((name.now ++ (codes ": " ++ state.now)) ∷ user.now ∷ [])) }
{
    let mut out = Vec::new(alloc);
    push(&mut out, name)?;
    push(&mut out, b": ")?;
    push(&mut out, state.as_bytes())?;
    push(&mut out, b", ")?;
    push(&mut out, user.as_bytes())?;
    Ok(out)
}

pub(crate) fn tell_paths(alloc: Global, source: &str, target: &str) -> Result<Vec<u8>, NoMemory>
    ensures { IfOk result
        (λ text. text.items
        ≡ listed ((codes "source" ++ (codes ": " ++ source.now))
        ∷ (codes "target" ++ (codes ": " ++ target.now)) ∷ [])) }
{
    let mut out = Vec::new(alloc);
    push(&mut out, b"source: ")?;
    push(&mut out, source.as_bytes())?;
    push(&mut out, b", target: ")?;
    push(&mut out, target.as_bytes())?;
    Ok(out)
}

pub(crate) fn tell_bind(
    alloc: Global,
    source: &str,
    target: &str,
    user: &str,
) -> Result<Vec<u8>, NoMemory>
    ensures { IfOk result
        (λ text. text.items
        ≡ listed ((codes "source" ++ (codes ": " ++ source.now))
        ∷ (codes "target" ++ (codes ": " ++ target.now)) ∷ user.now ∷ [])) }
{
    let mut out = tell_paths(alloc, source, target)?;
    push(&mut out, b", ")?;
    push(&mut out, user.as_bytes())?;
    Ok(out)
}

impl Explainable for BindMount {
    ghost explanation = { bind_explanation };

    /// `source: E`, `target: E` and the user, E being the answer of `exists`.
    fn explain<P: Probe>(&self, alloc: Global, probe: &mut P) -> Result<Vec<u8>, NoMemory> {
        let source = exists(probe, self.source());
        let target = exists(probe, self.target());
        let user = user(probe);
        tell_bind(alloc, source, target, user)
    }
}

impl Explainable for Move {
    ghost explanation = { relocation_explanation };

    /// `source: E` and `target: E`, E being the answer of `exists`.
    fn explain<P: Probe>(&self, alloc: Global, probe: &mut P) -> Result<Vec<u8>, NoMemory> {
        let source = exists(probe, self.source());
        let target = exists(probe, self.target());
        tell_paths(alloc, source, target)
    }
}

impl Explainable for Tmpfs {
    ghost explanation = { tmpfs_explanation };

    /// `target: E` and the user, E being the answer of `exists`.
    fn explain<P: Probe>(&self, alloc: Global, probe: &mut P) -> Result<Vec<u8>, NoMemory> {
        let target = exists(probe, self.target());
        let user = user(probe);
        tell_path(alloc, b"target", target, user)
    }
}

impl Explainable for Remount {
    ghost explanation = { remount_explanation };

    /// `path: E` and the user, E being the answer of `exists`.
    fn explain<P: Probe>(&self, alloc: Global, probe: &mut P) -> Result<Vec<u8>, NoMemory> {
        let path = exists(probe, self.path());
        let user = user(probe);
        tell_path(alloc, b"path", path, user)
    }
}
