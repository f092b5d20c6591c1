//! A mount that goes to another place.
ghost use Rattle.std.specs.Prelude.{◌≡◌, ◌||◌, IfOk, Some};
ghost use Rattle.libmount.specs.Builders.{has_nul, Makes};
ghost use Rattle.libmount.specs.BuilderTexts.{relocation_text};

use crate::path_list::{PathError, has_nul};
use crate::texts::Quoted;
use port_base::sink::NoMemory;
use std::alloc::Global;
use std::fmt;
use std::marker::Model;

/// A move of a mount to another place (`MS_MOVE` of `mount(2)`).
#[derive(Debug, Drop)]
pub struct Move {
    source: Vec<u8>,
    target: Vec<u8>,
}

impl Model for Move {
    ghost use Rattle.libmount.specs.Builders.{Relocation};

    ghost Value = { Relocation };

    ghost view = { λ m. record { source = m.source.items; target = m.target.items } };
}

impl Move {
    /// Moves the mount at the source to the target. `NulInPath` where either has a zero byte.
    pub fn new(alloc: Global, source: &[u8], target: &[u8]) -> Result<Move, PathError>
        ensures { Makes (has_nul source.now || has_nul target.now)
            (record { source = source.now; target = target.now }) result }
    {
        if has_nul(source) || has_nul(target) {
            return Err(PathError::NulInPath);
        }
        let Ok(source) = source.to_vec(alloc) else {
            return Err(PathError::NoMemory);
        };
        let Ok(target) = target.to_vec(alloc) else {
            return Err(PathError::NoMemory);
        };
        Ok(Move { source, target })
    }

    // Where the mount is.
    pub(crate) fn source(&self) -> &[u8]
        ensures { result.now ≡ self.now.source }
    {
        &self.source
    }

    // Where it goes.
    pub(crate) fn target(&self) -> &[u8]
        ensures { result.now ≡ self.now.target }
    {
        &self.target
    }

    /// A copy of the builder.
    pub fn try_clone(&self, alloc: Global) -> Result<Move, NoMemory>
        ensures { IfOk result (λ copy. copy ≡ self.now) }
    {
        Ok(Move {
            source: self.source.to_vec(alloc).map_err(|_| NoMemory)?,
            target: self.target.to_vec(alloc).map_err(|_| NoMemory)?,
        })
    }
}

impl fmt::Display for Move {
    ghost output = { λ relocation. Some (relocation_text relocation) };

    #[tactic(auto, unfolding(crate::specs::BuilderTexts::relocation_text))]
    fn fmt<W: fmt::Write>(&self, f: &mut fmt::Formatter<W>) -> fmt::Result {
        write!(
            f,
            "move {} -> {}",
            Quoted(&self.source),
            Quoted(&self.target)
        )
    }
}
