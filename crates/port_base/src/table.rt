//! A map from numbers, which contracts see as a finite map.
ghost use Rattle.std.specs.Prelude.{◌≡◌, ◌<◌, ℕ, Some, None, OnOk, OnErr, IfSome, IfNone, IsSome};
ghost use Rattle.std.specs.Prelude.{IsOk, option_copied, option_map};
ghost use Rattle.port_base.specs.Tables.{next_after};
ghost use Rattle.std.specs.Ordering.{nat_cmp};
ghost use Rattle.std.specs.FinMap as map;
ghost use Rattle.std.specs.Borrow.{sem};
ghost use Rattle.std.specs.Option.{option_copied_mut};
ghost use Rattle.port_base.specs.Lending.{LendsValue};

use std::alloc::{AllocError, Global};
use std::collections::BTreeMap;
use std::marker::Model;
use std::ops::Bound;

/// Values by number, in order.
#[derive(Drop)]
pub struct Table<V> {
    entries: BTreeMap<u64, V>,
}

impl<V> Model for Table<V> {
    ghost use Rattle.std.specs.Ordering.{nat_cmp};
    ghost use Rattle.std.specs.FinMap as map;
    ghost use Rattle.std.specs.Coded.{coded_ℕ};

    ghost Value = { map.FinMap nat_cmp V };

    ghost coded = { map.code coded_ℕ V.code };

    ghost view = { λ a. map.from_entries a.entries.entries };
}

impl<V> Table<V> {
    /// An empty table. It takes no memory yet.
    pub fn new(alloc: Global) -> Self
        ensures { result ≡ map.empty }
    {
        Table {
            entries: BTreeMap::new(alloc),
        }
    }

    /// The value of a key, if it has one.
    pub fn get(&self, key: u64) -> Option<&V>
        ensures { option_copied result ≡ map.get self.now key }
    {
        self.entries.get(&key)
    }

    /// How many keys have a value.
    pub fn len(&self) -> usize
        ensures { result ≡ map.len self.now }
    {
        self.entries.len()
    }

    /// Whether a key has a value.
    pub fn contains_key(&self, key: u64) -> bool
        ensures { result ≡ map.contains_key self.now key }
    {
        self.entries.contains_key(&key)
    }

    /// The least key above the given one, with its value.
    pub fn next_after(&self, key: u64) -> Option<(u64, &V)>
        ensures { option_map (λ e. (e.0, e.1.now)) result ≡ next_after key self.now }
    {
        let mut above = self.entries.range((Bound::Excluded(key), Bound::Unbounded));
        match above.next() {
            Some(entry) => Some((*entry.0, entry.1)),
            None => None,
        }
    }

    /// Gives a key a value. A key that has one already takes no memory; without memory nothing
    /// changes.
    pub fn insert(&mut self, key: u64, value: V) -> Result<(), AllocError>
    where
        V: Drop,
        ensures ok { OnOk result (self.new ≡ map.insert self.old key value) }
        ensures err { OnErr result (self.new ≡ self.old) }
        ensures present { IsSome (map.get self.old key) → IsOk result }
    {
        self.entries.insert(key, value)?;
        Ok(())
    }

    /// Takes a key's value away, and gives it back.
    pub fn remove(&mut self, key: u64) -> Option<V>
        ensures value { result ≡ map.get self.old key }
        ensures removed { self.new ≡ map.remove self.old key }
    {
        self.entries.remove(&key)
    }

    /// Takes the least key that has a value away, and gives both back. It takes no memory.
    pub fn pop_first(&mut self) -> Option<(u64, V)>
        ensures value { IfSome result (λ e. map.get self.old e.0 ≡ Some e.1) }
        ensures removed { IfSome result (λ e. self.new ≡ map.remove self.old e.0) }
        ensures least { IfSome result (λ e. (k : ℕ) → k < e.0 → map.get self.old k ≡ None) }
        ensures none { IfNone result ((self.old ≡ map.empty) × (self.new ≡ self.old)) }
    {
        self.entries.pop_first()
    }

    /// Writes a value in the place of the one that a key has.
    pub fn replace(&mut self, key: u64, value: V)
    where
        V: Drop,
        requires { IsSome (map.get self.old key) }
        ensures { self.new ≡ map.insert self.old key value }
    {
        let _ = self.entries.insert(key, value);
    }

    /// The value of a key, to write to.
    pub fn get_mut(&mut self, key: u64) -> Option<&mut V>
        ensures* writes_back { sem 𝓛 (LendsValue V.row self.entry key result) }
        ensures value { option_copied_mut result ≡ map.get self.old key }
    {
        self.entries.get_mut(&key)
    }
}

#[cfg(test)]
mod tests {
    use super::*;
    use std::test::Fail;

    #[test]
    fn values_stand_by_their_numbers(rt: HostRuntime) -> Result<(), Fail> {
        let mut table = Table::new(rt.alloc());
        table.insert(7, 70u64)?;
        table.insert(3, 30)?;
        table.insert(7, 71)?;
        assert_eq!(rt; table.len(), 2);
        assert_eq!(rt; table.get(7), Some(&71));
        assert!(rt; !table.contains_key(5));
        assert_eq!(rt; table.next_after(3), Some((7, &71)));
        assert_eq!(rt; table.remove(7), Some(71));
        assert_eq!(rt; table.pop_first(), Some((3, 30)));
        assert_eq!(rt; table.pop_first(), None);
        Ok(())
    }
}
