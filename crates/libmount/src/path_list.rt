//! Paths for the builders of mounts.
ghost use Rattle.std.specs.Prelude.{◌≡◌, ◌++◌, ◌∷◌, [], IfOk, OnOk, OnErr, Some};
ghost use Rattle.libmount.specs.Builders.{has_nul};
ghost use Rattle.libmount.specs.ErrorTexts.{path_error_text};
ghost use Rattle.port_base.specs.Words.{words_of};

use crate::texts::Quoted;
use port_base::sink::NoMemory;
use std::alloc::Global;
use std::error::Error;
use std::fmt;
use std::marker::Model;

/// Why a builder can't be made.
#[derive(Clone, Copy, Debug, PartialEq, Eq)]
pub enum PathError {
    /// A path has a zero byte, which the system takes for its end.
    NulInPath,
    NoMemory,
}

impl fmt::Display for PathError {
    ghost output = { λ e. Some (path_error_text e) };

    fn fmt<W: fmt::Write>(&self, f: &mut fmt::Formatter<W>) -> fmt::Result {
        match self {
            PathError::NulInPath => f.write_str("a path has a zero byte"),
            PathError::NoMemory => f.write_str("no memory"),
        }
    }
}

impl Error for PathError {}

// Whether a zero byte is in the path.
pub(crate) fn has_nul(path: &[u8]) -> bool
    ensures { result ≡ has_nul path.now }
{
    path.contains(&0)
}

/// The directories of an overlay, the top one first.
#[derive(Drop)]
pub struct PathList {
    alloc: Global,
    paths: Vec<Vec<u8>>,
}

impl Model for PathList {
    ghost use Rattle.std.specs.Prelude.{List, ℕ};
    ghost use Rattle.port_base.specs.Words.{words_of};

    ghost Value = { List (List ℕ) };

    ghost view = { λ list. words_of list.paths.items };
}

impl PathList {
    /// No paths. It takes no memory yet.
    pub fn new(alloc: Global) -> PathList
        ensures { result ≡ [] }
    {
        PathList {
            alloc,
            paths: Vec::new(alloc),
        }
    }

    /// Adds a path at the end. Without memory nothing changes.
    pub fn push(&mut self, path: &[u8]) -> Result<(), NoMemory>
        ensures ok { OnOk result (self.new ≡ self.old ++ path.now ∷ []) }
        ensures err { OnErr result (self.new ≡ self.old) }
    {
        let Ok(path) = Vec::from_slice(self.alloc, path) else {
            return Err(NoMemory);
        };
        self.paths.push(path).map_err(|_| NoMemory)
    }

    /// The paths, in order.
    pub fn as_slice(&self) -> &[Vec<u8>]
        ensures { words_of result.now ≡ self.now }
    {
        &self.paths
    }

    /// A copy of the list.
    pub fn try_clone(&self, alloc: Global) -> Result<PathList, NoMemory>
        ensures { IfOk result (λ list. list ≡ self.now) }
    {
        let mut copy = PathList::new(alloc);
        for path in self.as_slice() {
            copy.push(path)?;
        }
        Ok(copy)
    }
}

impl fmt::Debug for PathList {
    fn fmt<W: fmt::Write>(&self, f: &mut fmt::Formatter<W>) -> fmt::Result {
        f.write_str("[")?;
        for path in self.as_slice() {
            write!(f, " {}", Quoted(path))?;
        }
        f.write_str(" ]")
    }
}
