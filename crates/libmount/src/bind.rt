//! A place of the tree shown at another place too.
ghost use Rattle.std.specs.Prelude.{◌≡◌, ◌||◌, true, false, IfOk, Some};
ghost use Rattle.libmount.specs.Builders.{has_nul, Makes};
ghost use Rattle.libmount.specs.BuilderTexts.{bind_text};

use crate::path_list::{PathError, has_nul};
use crate::texts::Quoted;
use port_base::sink::NoMemory;
use std::alloc::Global;
use std::fmt;
use std::marker::Model;

/// A bind mount (`MS_BIND` of `mount(2)`).
#[derive(Debug, Drop)]
pub struct BindMount {
    source: Vec<u8>,
    target: Vec<u8>,
    recursive: bool,
    readonly: bool,
}

impl Model for BindMount {
    ghost use Rattle.libmount.specs.Builders.{Bind};

    ghost Value = { Bind };

    ghost view = { λ b. record {
      source = b.source.items;
      target = b.target.items;
      recursive = b.recursive;
      readonly = b.readonly;
    } };
}

impl BindMount {
    /// Shows the source at the target too, with the mounts below it. `NulInPath` where either has
    /// a zero byte.
    pub fn new(alloc: Global, source: &[u8], target: &[u8]) -> Result<BindMount, PathError>
        ensures { Makes (has_nul source.now || has_nul target.now)
            (record {
              source = source.now;
              target = target.now;
              recursive = true;
              readonly =
                  false;
            })
            result }
    {
        if has_nul(source) || has_nul(target) {
            return Err(PathError::NulInPath);
        }
        let Ok(source) = source.to_vec(alloc) else {
            return Err(PathError::NoMemory);
        };
        let Ok(target) = target.to_vec(alloc) else {
            return Err(PathError::NoMemory);
        };
        Ok(BindMount {
            source,
            target,
            recursive: true,
            readonly: false,
        })
    }

    /// Whether the mounts below the source come along. At first they do.
    pub fn recursive(mut self, flag: bool) -> BindMount
        ensures { result ≡ record self { recursive = flag } }
    {
        self.recursive = flag;
        self
    }

    /// Whether the mount is made read-only, by a remount that follows. At first it isn't.
    pub fn readonly(mut self, flag: bool) -> BindMount
        ensures { result ≡ record self { readonly = flag } }
    {
        self.readonly = flag;
        self
    }

    // What is shown.
    pub(crate) fn source(&self) -> &[u8]
        ensures { result.now ≡ self.now.source }
    {
        &self.source
    }

    // Where it is shown too.
    pub(crate) fn target(&self) -> &[u8]
        ensures { result.now ≡ self.now.target }
    {
        &self.target
    }

    // Whether the mounts below the source come along.
    pub(crate) fn is_recursive(&self) -> bool
        ensures { result ≡ self.now.recursive }
    {
        self.recursive
    }

    // Whether the mount is made read-only.
    pub(crate) fn is_readonly(&self) -> bool
        ensures { result ≡ self.now.readonly }
    {
        self.readonly
    }

    /// A copy of the builder.
    pub fn try_clone(&self, alloc: Global) -> Result<BindMount, NoMemory>
        ensures { IfOk result (λ copy. copy ≡ self.now) }
    {
        Ok(BindMount {
            source: self.source.to_vec(alloc).map_err(|_| NoMemory)?,
            target: self.target.to_vec(alloc).map_err(|_| NoMemory)?,
            recursive: self.recursive,
            readonly: self.readonly,
        })
    }
}

impl fmt::Display for BindMount {
    ghost output = { λ bind. Some (bind_text bind) };

    #[tactic(auto, unfolding(crate::specs::BuilderTexts::bind_text))]
    fn fmt<W: fmt::Write>(&self, f: &mut fmt::Formatter<W>) -> fmt::Result {
        if self.recursive {
            f.write_str("recursive ")?;
        }
        write!(
            f,
            "bind mount {} -> {}",
            Quoted(&self.source),
            Quoted(&self.target)
        )
    }
}
