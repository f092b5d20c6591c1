//! Directories over one another.
ghost use Rattle.std.specs.Prelude.{◌≡◌, ◌++◌, ◌||◌, IfOk, OnOk, Some, None, codes};
ghost use Rattle.std.specs.Fmt.{WritesOnOk};
ghost use Rattle.std.specs.List.{join_by, list_any};
ghost use Rattle.libmount.specs.Builders.{has_nul, Makes};
ghost use Rattle.libmount.specs.BuilderTexts.{escaped_byte, escaped_dir, overlay_options};
ghost use Rattle.libmount.specs.BuilderTexts.{overlay_text, upper_options, upper_text};
ghost use Rattle.port_base.specs.Quoting.{quoted};
ghost use Rattle.port_base.specs.Words.{words_of};

mod telling;

use crate::path_list::{PathError, PathList, has_nul};
use crate::texts::Quoted;
use port_base::buffer::push;
use port_base::sink::NoMemory;
use std::alloc::Global;
use std::fmt;
use std::marker::Model;

// Where what is written to an overlay goes.
#[derive(Debug, Drop)]
struct UpperDirs {
    upperdir: Vec<u8>,
    workdir: Vec<u8>,
}

impl Model for UpperDirs {
    ghost use Rattle.libmount.specs.Builders.{Upper};

    ghost Value = { Upper };

    ghost view = { λ u. record { upperdir = u.upperdir.items; workdir = u.workdir.items } };
}

/// A mount that shows directories over one another (`overlay` of Linux).
#[derive(Debug, Drop)]
pub struct Overlay {
    lowerdirs: PathList,
    upper: Option<UpperDirs>,
    target: Vec<u8>,
}

impl Model for Overlay {
    ghost use Rattle.libmount.specs.Builders.{Layers};

    ghost Value = { Layers };

    ghost view = { λ o. record {
      lowerdirs = o.lowerdirs;
      upper = o.upper;
      target =
          o.target.items;
    } };
}

// Whether one of the paths has a zero byte.
fn any_nul(paths: &[Vec<u8>]) -> bool
    ensures { result ≡ list_any has_nul (words_of paths.now) }
{
    for path in paths {
        if has_nul(path) {
            return true;
        }
    }
    false
}

#[tactic(auto, unfolding(crate::specs::BuilderTexts::escaped_dir))]
fn push_escaped(out: &mut Vec<u8>, path: &[u8]) -> Result<(), NoMemory>
    ensures { OnOk result (out.new.items ≡ out.old.items ++ escaped_dir path.now) }
{
    for byte in path {
        match byte {
            b'\\' => push(out, b"\\\\")?,
            b':' => push(out, b"\\:")?,
            b',' => push(out, b"\\,")?,
            other => push(out, &[*other])?,
        }
    }
    Ok(())
}

impl UpperDirs {
    fn try_clone(&self, alloc: Global) -> Result<UpperDirs, NoMemory>
        ensures { IfOk result (λ copy. copy ≡ self.now) }
    {
        Ok(UpperDirs {
            upperdir: self.upperdir.to_vec(alloc).map_err(|_| NoMemory)?,
            workdir: self.workdir.to_vec(alloc).map_err(|_| NoMemory)?,
        })
    }
}

impl Overlay {
    /// An overlay to which nothing can be written. `NulInPath` where a path has a zero byte.
    pub fn readonly(alloc: Global, dirs: PathList, target: &[u8]) -> Result<Overlay, PathError>
        ensures { Makes (list_any has_nul dirs || has_nul target.now)
            (record { lowerdirs = dirs; upper = None; target = target.now }) result }
    {
        if any_nul(dirs.as_slice()) || has_nul(target) {
            return Err(PathError::NulInPath);
        }
        let Ok(target) = target.to_vec(alloc) else {
            return Err(PathError::NoMemory);
        };
        Ok(Overlay {
            lowerdirs: dirs,
            upper: None,
            target,
        })
    }

    /// An overlay that keeps what is written to it in `upperdir`; its file system works in
    /// `workdir`, which is to be beside it. `NulInPath` where a path has a zero byte.
    pub fn writable(
        alloc: Global,
        lowerdirs: PathList,
        upperdir: &[u8],
        workdir: &[u8],
        target: &[u8],
    ) -> Result<Overlay, PathError>
        ensures { Makes
            (list_any has_nul lowerdirs
            || (has_nul upperdir.now || (has_nul workdir.now || has_nul target.now)))
            (record {
              lowerdirs = lowerdirs;
              upper =
                  Some (record { upperdir = upperdir.now; workdir = workdir.now });
              target =
                  target.now;
            }) result }
    {
        if any_nul(lowerdirs.as_slice())
            || has_nul(upperdir)
            || has_nul(workdir)
            || has_nul(target)
        {
            return Err(PathError::NulInPath);
        }
        let Ok(upperdir) = upperdir.to_vec(alloc) else {
            return Err(PathError::NoMemory);
        };
        let Ok(workdir) = workdir.to_vec(alloc) else {
            return Err(PathError::NoMemory);
        };
        let Ok(target) = target.to_vec(alloc) else {
            return Err(PathError::NoMemory);
        };
        Ok(Overlay {
            lowerdirs,
            upper: Some(UpperDirs { upperdir, workdir }),
            target,
        })
    }

    // Where it is mounted.
    pub(crate) fn target(&self) -> &[u8]
        ensures { result.now ≡ self.now.target }
    {
        &self.target
    }

    /// A copy of the builder.
    pub fn try_clone(&self, alloc: Global) -> Result<Overlay, NoMemory>
        ensures { IfOk result (λ copy. copy ≡ self.now) }
    {
        let lowerdirs = self.lowerdirs.try_clone(alloc)?;
        let target = self.target.to_vec(alloc).map_err(|_| NoMemory)?;
        let upper = match &self.upper {
            Some(upper) => Some(upper.try_clone(alloc)?),
            None => None,
        };
        Ok(Overlay {
            lowerdirs,
            upper,
            target,
        })
    }
}

// The directories, with colons between them.
#[tactic(auto, using(crate::proofs::BuilderLemmas::join_words))]
fn push_dirs(out: &mut Vec<u8>, dirs: &[Vec<u8>]) -> Result<(), NoMemory>
    ensures { OnOk result
        (out.new.items ≡ out.old.items ++ join_by escaped_dir (codes ":") (words_of dirs.now)) }
{
    if let Some((first, rest)) = dirs.split_first() {
        push_escaped(out, first)?;
        for dir in rest {
            push(out, b":")?;
            push_escaped(out, dir)?;
        }
    }
    Ok(())
}

fn push_upper(out: &mut Vec<u8>, upper: &Option<UpperDirs>) -> Result<(), NoMemory>
    ensures { OnOk result (out.new.items ≡ out.old.items ++ upper_options upper.now) }
{
    if let Some(upper) = upper {
        push(out, b",upperdir=")?;
        push_escaped(out, &upper.upperdir)?;
        push(out, b",workdir=")?;
        push_escaped(out, &upper.workdir)?;
    }
    Ok(())
}

impl Overlay {
    // The options of the mount: a backslash stands before each backslash, colon and comma of a
    // path.
    #[tactic(auto, unfolding(crate::specs::BuilderTexts::overlay_options))]
    pub(crate) fn options(&self, alloc: Global) -> Result<Vec<u8>, NoMemory>
        ensures { IfOk result (λ text. text.items ≡ overlay_options self.now) }
    {
        let mut out = Vec::new(alloc);
        push(&mut out, b"lowerdir=")?;
        push_dirs(&mut out, self.lowerdirs.as_slice())?;
        push_upper(&mut out, &self.upper)?;
        Ok(out)
    }
}

// The directories as they print, with colons between them.
#[tactic(auto, using(crate::proofs::BuilderLemmas::join_words))]
fn write_dirs<W: fmt::Write>(f: &mut fmt::Formatter<W>, dirs: &[Vec<u8>]) -> fmt::Result
    ensures { WritesOnOk W.write_str_gives f.old result
        (join_by quoted (codes ":") (words_of dirs.now)) f.new }
{
    if let Some((first, rest)) = dirs.split_first() {
        write!(f, "{}", Quoted(first))?;
        for dir in rest {
            write!(f, ":{}", Quoted(dir))?;
        }
    }
    Ok(())
}

impl fmt::Display for UpperDirs {
    ghost output = { λ upper. Some (upper_text (Some upper)) };

    fn fmt<W: fmt::Write>(&self, f: &mut fmt::Formatter<W>) -> fmt::Result {
        write!(
            f,
            ",upperdir={},workdir={}",
            Quoted(&self.upperdir),
            Quoted(&self.workdir)
        )
    }
}

impl fmt::Display for Overlay {
    ghost output = { λ overlay. Some (overlay_text overlay) };

    #[tactic(auto, unfolding(crate::specs::BuilderTexts::overlay_text))]
    fn fmt<W: fmt::Write>(&self, f: &mut fmt::Formatter<W>) -> fmt::Result {
        f.write_str("overlayfs ")?;
        write_dirs(f, self.lowerdirs.as_slice())?;
        if let Some(upper) = &self.upper {
            write!(f, "{upper}")?;
        }
        write!(f, " -> {}", Quoted(&self.target))
    }
}
