ghost use Rattle.std.specs.Prelude.{◌≡◌, ℕ, OnOk, OnErr};
ghost use Rattle.std.specs.Option.{option_copied};
ghost use Rattle.std.specs.FinMap as map;

use nx_base::{Key, NoMemory};
use std::alloc::Global;
use std::collections::BTreeMap;
use std::collections::btree_map::Iter;
use std::marker::Model;

/// A finite map from keys.
#[derive(Drop)]
pub struct KeyMap<V> {
    tree: BTreeMap<Key, V>,
}

impl<V> Model for KeyMap<V> {
    ghost use Rattle.std.specs.FinMap as map;
    ghost use Rattle.nx_base.specs.Order.{key_cmp};
    ghost use Rattle.nx_base.specs.Codes.{coded_key};

    ghost Value = { map.FinMap key_cmp V };

    ghost coded = { map.code coded_key V.code };

    ghost view = { λ a. map.from_entries a.tree.entries };
}

impl<V> KeyMap<V> {
    pub fn new(alloc: Global) -> Self
        ensures { result ≡ map.empty }
    {
        KeyMap {
            tree: BTreeMap::new(alloc),
        }
    }

    pub fn get(&self, key: &Key) -> Option<&V>
        ensures { option_copied result ≡ map.get self.now key.now }
    {
        self.tree.get(key)
    }

    /// The entries, in order.
    pub fn iter(&self) -> Iter<'_, Key, V>
        ensures { result ≡ map.entries self.now }
    {
        self.tree.iter()
    }

    pub fn len(&self) -> u64
        ensures { result ≡ map.len self.now }
    {
        self.tree.len() as u64
    }
}

impl<V: Drop> KeyMap<V> {
    /// Sets the value of the key. Where memory is refused, nothing changes.
    pub fn insert(&mut self, key: Key, value: V) -> Result<(), NoMemory>
        ensures ok { OnOk result (self.new ≡ map.insert self.old key value) }
        ensures err { OnErr result (self.new ≡ self.old) }
    {
        match self.tree.insert(key, value) {
            Ok(_) => Ok(()),
            Err(_) => Err(NoMemory),
        }
    }

    pub fn remove(&mut self, key: &Key)
        ensures { self.new ≡ map.remove self.old key.now }
    {
        let _value = self.tree.remove(key);
    }
}
