//! The entries of a directory as they are kept in memory.
ghost use Rattle.std.specs.Prelude.{◌≡◌, ◌+◌, ◌-◌, ◌^◌, ◌<◌, ◌++◌, ◌∷◌, [], IfSome, OnOk, OnErr};
ghost use Rattle.std.specs.Prelude.{option_copied, length, nat_le, nat_lt};
ghost use Rattle.tree_model.specs.Finding.{entry_named};
ghost use Rattle.tree_model.specs.Reading.{entry_above};
ghost use Rattle.tree_model.specs.Unlinking.{without};
ghost use Rattle.tree_host.specs.NamePlaces.{place_among, without_at, AreInOrder};
ghost use Rattle.tree_host.specs.NameIndex.{IsIndexOf, Records};

use std::alloc::{AllocError, Global};
use std::collections::BTreeMap;
use std::marker::Model;

/// A name in a directory, with its cookie and the inode that it names.
#[derive(Drop)]
pub struct DirEntry {
    cookie: u64,
    name: Vec<u8>,
    ino: u64,
}

impl Model for DirEntry {
    ghost use Rattle.tree_model.specs.Tree.{DirEntry};

    ghost Value = { DirEntry };

    ghost view = { λ a. record { cookie = a.cookie; name = a.name.items; ino = a.ino } };
}

impl DirEntry {
    pub fn cookie(&self) -> u64
        ensures { result ≡ self.now.cookie }
    {
        self.cookie
    }

    pub fn ino(&self) -> u64
        ensures { result ≡ self.now.ino }
    {
        self.ino
    }

    pub fn name(&self) -> &[u8]
        ensures { result.now ≡ self.now.name }
    {
        &self.name
    }
}

// Gives a name a cookie. Without memory nothing changes.
fn give_cookie(
    index: &mut BTreeMap<Vec<u8>, u64>,
    name: Vec<u8>,
    cookie: u64,
) -> Result<(), AllocError>
    ensures ok { OnOk result (Records name.items cookie index.old index.new) }
    ensures err { OnErr result (index.new.entries ≡ index.old.entries) }
{
    index.insert(name, cookie)?;
    Ok(())
}

// Adds an entry and the cookie of its name, or, without memory for both, neither.
fn enter(
    entries: &mut Vec<DirEntry>,
    index: &mut BTreeMap<Vec<u8>, u64>,
    key: Vec<u8>,
    entry: DirEntry,
) -> Result<(), AllocError>
    ensures ok { OnOk result ((entries.new.items ≡ entries.old.items ++ entry ∷ [])
        × Records key.items entry.cookie index.old index.new) }
    ensures err { OnErr result ((entries.new.items ≡ entries.old.items)
        × (index.new.entries ≡ index.old.entries)) }
{
    let cookie = entry.cookie;
    let count = entries.len();
    entries.push(entry)?;
    match give_cookie(index, key, cookie) {
        Ok(()) => Ok(()),
        Err(error) => {
            entries.truncate(count);
            Err(error)
        }
    }
}

// Takes the entry at a place away, where there is a place.
fn remove_at(entries: &mut Vec<DirEntry>, place: Option<usize>)
    requires { IfSome place (λ k. k < length entries.old.items) }
    ensures { entries.new.items ≡ without_at place entries.old.items }
{
    if let Some(place) = place {
        entries.remove(place);
    }
}

/// The entries of a directory in the order of their cookies, the cookie of each name, and the
/// cookie that the next entry gets.
#[derive(Drop)]
pub struct Listing {
    entries: Vec<DirEntry>,
    index: BTreeMap<Vec<u8>, u64>,
    next: u64,
    ghost order: { AreInOrder entries.items next },
    ghost indexed: { IsIndexOf index entries.items },
}

impl Listing {
    /// No entries. It takes no memory yet.
    pub fn new(alloc: Global) -> Self
        ensures entries { result.entries.items ≡ [] }
        ensures next { result.next ≡ 1 }
    {
        Listing {
            entries: Vec::new(alloc),
            index: BTreeMap::new(alloc),
            next: 1,
        }
    }

    /// How many entries there are.
    pub fn len(&self) -> usize
        ensures { result ≡ length self.now.entries.items }
    {
        self.entries.len()
    }

    /// The cookie that the next entry gets.
    pub fn next_cookie(&self) -> u64
        ensures { result ≡ self.now.next }
    {
        self.next
    }

    // Where the entry of a name stands.
    fn place_of(&self, name: &[u8]) -> Option<usize>
        ensures found { result ≡ place_among name.now self.now.entries.items }
        ensures bound { IfSome result (λ k. k < length self.now.entries.items) }
    {
        let Some(found) = self.index.get(name) else {
            return None;
        };
        let cookie = *found;
        let place = self.entries.partition_point(
            |e: &DirEntry| -> bool
                ensures { result ≡ nat_lt e.now.cookie cookie }
            { e.cookie() < cookie },
        );
        Some(place)
    }

    /// The entry of a name.
    pub fn find(&self, name: &[u8]) -> Option<&DirEntry>
        ensures { option_copied result ≡ entry_named name.now self.now.entries.items }
    {
        match self.place_of(name) {
            Some(place) => self.entries.get(place),
            None => None,
        }
    }

    /// The first entry above a cookie.
    pub fn above(&self, cookie: u64) -> Option<&DirEntry>
        ensures { option_copied result ≡ entry_above cookie self.now.entries.items }
    {
        let place = self.entries.partition_point(
            |e: &DirEntry| -> bool
                ensures { result ≡ nat_le e.now.cookie cookie }
            { e.cookie() <= cookie },
        );
        self.entries.get(place)
    }

    /// Adds an entry in the place of the one that has its name, if there is one. Without memory
    /// nothing changes.
    pub fn put(&mut self, alloc: Global, name: &[u8], ino: u64) -> Result<(), AllocError>
        requires room { self.old.next < 2 ^ 64 - 1 }
        ensures ok { OnOk result ((self.new.entries.items ≡ without name.now self.old.entries.items
            ++ record { cookie = self.old.next; name = name.now; ino = ino } ∷ [])
            × (self.new.next ≡ self.old.next + 1)) }
        ensures err { OnErr result ((self.new.entries.items ≡ self.old.entries.items)
            × (self.new.next ≡ self.old.next)) }
    {
        let key = Vec::from_slice(alloc, name)?;
        let entry = DirEntry {
            cookie: self.next,
            name: Vec::from_slice(alloc, name)?,
            ino,
        };
        let place = self.place_of(name);
        enter(&mut self.entries, &mut self.index, key, entry)?;
        remove_at(&mut self.entries, place);
        self.next += 1;
        Ok(())
    }

    /// The entry of a name goes, and the others keep their cookies.
    pub fn remove(&mut self, name: &[u8])
        ensures entries { self.new.entries.items ≡ without name.now self.old.entries.items }
        ensures next { self.new.next ≡ self.old.next }
    {
        let place = self.place_of(name);
        remove_at(&mut self.entries, place);
        self.index.remove(name);
    }
}
