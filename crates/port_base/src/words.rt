//! Words of a command line.
ghost use Rattle.std.specs.Prelude.{◌≡◌, ◌<◌, ◌++◌, ◌∷◌, [], length, OnOk, OnErr, slice_get};
ghost use Rattle.std.specs.Prelude.{Option};
ghost use Rattle.std.specs.Option.{option_map};
ghost use Rattle.std.specs.Iterator.{YieldsFirstRef, item_count};
ghost use Rattle.port_base.specs.Words.{words_left};

use crate::sink::NoMemory;
use std::alloc::Global;
use std::marker::Model;

/// The words of a command line, each as it was given.
#[derive(Drop)]
pub struct Words {
    alloc: Global,
    words: Vec<Vec<u8>>,
}

impl Model for Words {
    ghost use Rattle.std.specs.Prelude.{List, ℕ};
    ghost use Rattle.port_base.specs.Words.{words_of};

    ghost Value = { List (List ℕ) };

    ghost view = { λ w. words_of w.words.items };
}

impl Words {
    /// No words. It takes no memory yet.
    pub fn new(alloc: Global) -> Words
        ensures { result ≡ [] }
    {
        Words {
            alloc,
            words: Vec::new(alloc),
        }
    }

    /// Adds a word at the end. Without memory nothing changes.
    pub fn push(&mut self, word: &[u8]) -> Result<(), NoMemory>
        ensures ok { OnOk result (self.new ≡ self.old ++ word.now ∷ []) }
        ensures err { OnErr result (self.new ≡ self.old) }
    {
        let Ok(word) = Vec::from_slice(self.alloc, word) else {
            return Err(NoMemory);
        };
        self.words.push(word).map_err(|_| NoMemory)
    }

    /// How many words there are.
    pub fn len(&self) -> usize
        ensures { result ≡ length self.now }
    {
        self.words.len()
    }

    /// The word at a place, from 0 on.
    pub fn get(&self, i: usize) -> Option<&[u8]>
        ensures { option_map (λ w. w.now) result ≡ slice_get self.now i }
    {
        match self.words.get(i) {
            Some(word) => Some(word.as_slice()),
            None => None,
        }
    }

    /// The words, in order.
    pub fn iter(&self) -> Iter<'_>
        ensures { words_left result ≡ self.now }
    {
        Iter { rest: &self.words }
    }
}

/// The words that are left of those of a command line.
#[derive(Drop)]
pub struct Iter<'a> {
    rest: &'a [Vec<u8>],
}

impl<'a> Iterator for Iter<'a> {
    type Item = &'a [u8];

    ghost next_gives = { YieldsFirstRef words_left };

    ghost remaining = { item_count words_left };

    fn next(&mut self) -> Option<&'a [u8]> {
        let (first, rest) = self.rest.split_first()?;
        self.rest = rest;
        Some(first.as_slice())
    }
}

#[cfg(test)]
mod tests {
    use super::*;

    #[test]
    fn words_stand_in_their_order(rt: HostRuntime) {
        let mut words = Words::new(rt.alloc());
        assert!(rt; words.push(b"serve").is_ok());
        assert!(rt; words.push(b"root=/").is_ok());
        assert_eq!(rt; words.len(), 2);
        assert_eq!(rt; words.get(1), Some(b"root=/".as_slice()));
        assert_eq!(rt; words.get(2), None);
        assert!(rt; words.iter().any(|word| word.len() == 6));
    }
}
