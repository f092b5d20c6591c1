// Why an overlay failed, in words.
ghost use Rattle.std.specs.Prelude.{◌≡◌, OnOk, Some, codes};
ghost use Rattle.std.specs.List.{flat_map};
ghost use Rattle.port_base.specs.Words.{words_of};
ghost use Rattle.libmount.specs.Explanations.{count_parts, device_parts, dir_part, ended, of_path};
ghost use Rattle.libmount.specs.Explanations.{overlay_explanation, prefix_parts, upper_parts};
ghost use Rattle.libmount.specs.Probes.{Facts, Tells};

use super::{Overlay, UpperDirs};
use crate::explanation::{Explainable, exists, user};
use crate::probe::Probe;
use port_base::buffer::push;
use port_base::paths::path_starts_with;
use port_base::quoting::quoted;
use port_base::sink::NoMemory;
use std::alloc::Global;

// Whether there is something at a path, behind its name.
fn tell_path<P: Probe>(
    out: &mut Vec<u8>,
    name: &[u8],
    path: &[u8],
    probe: &mut P,
) -> Result<(), NoMemory>
    ensures told { OnOk result
        (Tells (P.facts probe.old) (λ f. ended (of_path name.now path.now f)) out.old.items
        out.new.items (P.calls probe.old) (P.calls probe.new)) }
    ensures facts { P.facts probe.new ≡ P.facts probe.old }
{
    let state = exists(probe, path);
    push(out, name)?;
    push(out, b": ")?;
    push(out, state.as_bytes())?;
    push(out, b", ")
}

// Each directory, by its quoted path.
fn tell_dirs<P: Probe>(
    alloc: Global,
    out: &mut Vec<u8>,
    dirs: &[Vec<u8>],
    probe: &mut P,
) -> Result<(), NoMemory>
    ensures told { OnOk result
        (Tells (P.facts probe.old) (λ f. flat_map (λ dir. ended (dir_part f dir)) (words_of dirs.now))
        out.old.items out.new.items (P.calls probe.old) (P.calls probe.new)) }
    ensures facts { P.facts probe.new ≡ P.facts probe.old }
{
    for dir in dirs {
        let name = quoted(alloc, dir)?;
        tell_path(out, &name, dir, probe)?;
    }
    Ok(())
}

// Whether two devices are one, where both are known.
fn device_text(a: Option<u64>, b: Option<u64>) -> &'static [u8]
    ensures { result.now ≡ flat_map ended (device_parts a b) }
{
    match (a, b) {
        (Some(a), Some(b)) => {
            if a == b {
                b"same-fs, "
            } else {
                b"different-fs, "
            }
        }
        _ => b"",
    }
}

// Whether two paths lie on one device.
fn tell_devices<P: Probe>(
    out: &mut Vec<u8>,
    a: &[u8],
    b: &[u8],
    probe: &mut P,
) -> Result<(), NoMemory>
    ensures told { OnOk result
        (Tells (P.facts probe.old)
        (λ (f : Facts). flat_map ended (device_parts (f.device a.now) (f.device b.now)))
        out.old.items out.new.items (P.calls probe.old) (P.calls probe.new)) }
    ensures facts { P.facts probe.new ≡ P.facts probe.old }
{
    let first = probe.device(a);
    let second = probe.device(b);
    push(out, device_text(first, second))
}

impl UpperDirs {
    // Which of the two directories is within the other.
    fn prefix_text(&self) -> &'static [u8]
        ensures { result.now ≡ flat_map ended (prefix_parts self.now) }
    {
        if path_starts_with(&self.workdir, &self.upperdir) {
            b"upperdir-prefix-of-workdir, "
        } else if path_starts_with(&self.upperdir, &self.workdir) {
            b"workdir-prefix-of-upperdir, "
        } else {
            b""
        }
    }

    fn tell<P: Probe>(
        &self,
        out: &mut Vec<u8>,
        target: &[u8],
        probe: &mut P,
    ) -> Result<(), NoMemory>
        ensures told { OnOk result
            (Tells (P.facts probe.old)
            (λ f. flat_map ended (upper_parts (Some self.now) target.now f))
            out.old.items out.new.items (P.calls probe.old) (P.calls probe.new)) }
        ensures facts { P.facts probe.new ≡ P.facts probe.old }
    {
        tell_path(out, b"upperdir", &self.upperdir, probe)?;
        tell_path(out, b"workdir", &self.workdir, probe)?;
        tell_devices(out, &self.upperdir, &self.workdir, probe)?;
        push(out, self.prefix_text())?;
        tell_path(out, b"target", target, probe)
    }
}

fn tell_upper<P: Probe>(
    out: &mut Vec<u8>,
    upper: &Option<UpperDirs>,
    target: &[u8],
    probe: &mut P,
) -> Result<(), NoMemory>
    ensures told { OnOk result
        (Tells (P.facts probe.old) (λ f. flat_map ended (upper_parts upper.now target.now f))
        out.old.items out.new.items (P.calls probe.old) (P.calls probe.new)) }
    ensures facts { P.facts probe.new ≡ P.facts probe.old }
{
    match upper {
        Some(upper) => upper.tell(out, target, probe),
        None => Ok(()),
    }
}

// Whether there are too few directories.
fn count_text(dirs: usize, is_writable: &Option<UpperDirs>) -> &'static [u8]
    ensures { result.now ≡ flat_map ended (count_parts dirs is_writable.now) }
{
    if dirs == 0 {
        return b"no-lowerdirs, ";
    }
    match is_writable {
        Some(_) => b"",
        None => { if dirs == 1 { b"single-lowerdir, " } else { b"" } }
    }
}

impl Explainable for Overlay {
    ghost explanation = { overlay_explanation };

    /// The directories, then of a writable overlay what the upper and the work directory are and
    /// whether the target is there, then whether there are too few directories, and the user.
    fn explain<P: Probe>(&self, alloc: Global, probe: &mut P) -> Result<Vec<u8>, NoMemory> {
        let mut out = Vec::new(alloc);
        let dirs = self.lowerdirs.as_slice();
        tell_dirs(alloc, &mut out, dirs, probe)?;
        tell_upper(&mut out, &self.upper, &self.target, probe)?;
        push(&mut out, count_text(dirs.len(), &self.upper))?;
        push(&mut out, user(probe).as_bytes())?;
        Ok(out)
    }
}
