//! Keys with their numbers.

ghost use Rattle.std.specs.Prelude.{◌≡◌, ◌<◌, [], length, Some, slice_get, IfOk, OnOk, IfSome, IfNone, false};
ghost use Rattle.std.specs.List.{IsDistinct, list_any};
ghost use Rattle.interp_graph.specs.KeySet.{TakesKey, keys_in};
ghost use Rattle.interp_graph.specs.StateKey.{state_eq};

use crate::key::Key;
use dns_data::{List, NoMemory};
use indexmap::IndexSet;
use std::alloc::Global;
use std::marker::Model;
use std::mem;

/// So many keys are looked through one by one. Of more each is found by its hash.
const FEW: usize = 24;

/// How keys are kept: a few in a vector, more in a table of their hashes.
#[derive(Drop)]
enum KeyStorage {
    Few(Vec<Key>),
    Many(IndexSet<Key>),
}

/// Keys, no two of them equal, with their numbers from 0 on. Contracts see their states in the order of the numbers.
#[derive(Drop)]
pub(crate) struct KeySet {
    storage: KeyStorage,
}

impl Model for KeySet {
    ghost use Rattle.std.specs.Prelude.{List};
    ghost use Rattle.std.specs.List.{IsDistinct};
    ghost use Rattle.net_model.specs.declared.walk.State.{State};
    ghost use Rattle.interp_graph.specs.KeySet.{keys_in};
    ghost use Rattle.interp_graph.specs.StateKey.{state_eq};

    ghost Value = { List State };

    ghost view = { λ set. keys_in set.storage };

    ghost invariant = { λ set. IsDistinct state_eq (keys_in set.storage) };
}

impl KeySet {
    /// No keys. It takes no memory.
    pub(crate) fn new(alloc: Global) -> KeySet
        ensures { result ≡ [] }
    {
        KeySet {
            storage: KeyStorage::Few(Vec::new(alloc)),
        }
    }

    /// How many keys there are.
    pub(crate) fn len(&self) -> usize
        ensures many { result ≡ length self.now }
        ensures once { IsDistinct state_eq self.now }
    {
        match &self.storage {
            KeyStorage::Few(keys) => keys.len(),
            KeyStorage::Many(keys) => keys.len(),
        }
    }

    /// The key with this number.
    pub(crate) fn key(&self, number: usize) -> &Key
        requires { number < length self.now }
        ensures { slice_get self.now number ≡ Some result.now }
    {
        match &self.storage {
            KeyStorage::Few(keys) => &keys[number],
            KeyStorage::Many(keys) => &keys[number],
        }
    }

    /// The number of the key, and whether it is new. A new one gets the next number.
    pub(crate) fn insert(&mut self, alloc: Global, key: Key) -> Result<(usize, bool), NoMemory>
        ensures taken { IfOk result (λ placed. TakesKey self.old self.new key placed.0 placed.1) }
        ensures distinct { OnOk result (IsDistinct state_eq self.new) }
    {
        self.storage.hash_many(alloc)?;
        self.storage.insert(key)
    }

    /// The keys, in the order of their numbers.
    pub(crate) fn into_keys(self, alloc: Global) -> Result<List<Key>, NoMemory>
        ensures { IfOk result (λ keys. keys ≡ self) }
    {
        match self.storage {
            KeyStorage::Few(keys) => Ok(List::from_vec(keys)),
            KeyStorage::Many(keys) => listed(alloc, keys),
        }
    }
}

impl KeyStorage {
    /// The number of the key, and whether it is new. A new one gets the next number.
    fn insert(&mut self, key: Key) -> Result<(usize, bool), NoMemory>
        requires { IsDistinct state_eq (keys_in self.old) }
        ensures taken { IfOk result (λ placed. TakesKey (keys_in self.old) (keys_in self.new) key placed.0 placed.1) }
        ensures distinct { IsDistinct state_eq (keys_in self.new) }
    {
        match self {
            KeyStorage::Few(keys) => insert_few(keys, key),
            KeyStorage::Many(keys) => insert_many(keys, key),
        }
    }

    /// Finds keys by their hashes from now on, where there are more than a few. After an error there is none.
    fn hash_many(&mut self, alloc: Global) -> Result<(), NoMemory>
        requires { IsDistinct state_eq (keys_in self.old) }
        ensures same { OnOk result (keys_in self.new ≡ keys_in self.old) }
        ensures distinct { IsDistinct state_eq (keys_in self.new) }
    {
        if let KeyStorage::Few(keys) = self {
            if keys.len() >= FEW {
                let keys = mem::replace(keys, Vec::new(alloc));
                *self = KeyStorage::Many(hashed(alloc, keys)?);
            }
        }
        Ok(())
    }
}

/// The number of the key among a few, and whether it is new. A new one gets the next number.
fn insert_few(keys: &mut Vec<Key>, key: Key) -> Result<(usize, bool), NoMemory>
    requires { IsDistinct state_eq keys.old.items }
    ensures taken { IfOk result (λ placed. TakesKey keys.old.items keys.new.items key placed.0 placed.1) }
    ensures distinct { IsDistinct state_eq keys.new.items }
{
    match number_of(keys.as_slice(), &key) {
        Some(number) => Ok((number, false)),
        None => {
            let number = keys.len();
            keys.push(key)?;
            Ok((number, true))
        }
    }
}

/// The number of the key among a few, or `None` where it isn't one of them.
fn number_of(keys: &[Key], key: &Key) -> Option<usize>
    ensures some { IfSome result (λ number. slice_get keys.now number ≡ Some key.now) }
    ensures none { IfNone result (list_any (state_eq key.now) keys.now ≡ false) }
{
    for number in 0..keys.len() {
        if *key == keys[number] {
            return Some(number);
        }
    }
    None
}

/// The number of the key, found by its hash, and whether it is new. A new one gets the next number.
fn insert_many(keys: &mut IndexSet<Key>, key: Key) -> Result<(usize, bool), NoMemory>
    ensures taken { IfOk result (λ placed. TakesKey keys.old.keys keys.new.keys key placed.0 placed.1) }
    ensures distinct { IsDistinct state_eq keys.new.keys }
{
    let (number, is_new) = keys.insert_full(key)?;
    Ok((number, is_new))
}

/// The keys in a table of their hashes.
fn hashed(alloc: Global, keys: Vec<Key>) -> Result<IndexSet<Key>, NoMemory>
    requires { IsDistinct state_eq keys.items }
    ensures { IfOk result (λ table. table.keys ≡ keys.items) }
{
    let mut table = IndexSet::new(alloc);
    for key in List::from_vec(keys) {
        table.insert(key)?;
    }
    Ok(table)
}

/// The keys of a table, in the order of their numbers.
fn listed(alloc: Global, keys: IndexSet<Key>) -> Result<List<Key>, NoMemory>
    ensures { IfOk result (λ list. list ≡ keys.keys) }
{
    let mut list = Vec::with_capacity(alloc, keys.len())?;
    for key in keys {
        list.push(key)?;
    }
    Ok(List::from_vec(list))
}
