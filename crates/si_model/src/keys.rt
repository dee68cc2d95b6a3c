//! The keys that a transaction writes and guards.

ghost use Rattle.std.specs.Prelude.{◌≡◌, [], OnOk, IfOk};
ghost use Rattle.si_model.specs.Evaluation.{with_guard, key_guarded, ops_write, keys_from, guard_keys};
ghost use Rattle.si_model.specs.History.{keys_of};

use crate::op::Op;
use crate::row::{Item, Key};
use lists::List;
use std::alloc::{AllocError, Global};
use std::collections::BTreeSet;
use std::marker::Model;

/// Keys, each once, in the order of first notes.
#[derive(Drop)]
pub(crate) struct KeyList {
    keys: List<Key>,
    /// The same keys, to be found.
    listed: BTreeSet<Key>,
}

impl Model for KeyList {
    ghost use Rattle.std.specs.Prelude.{List};
    ghost use Rattle.si_model.specs.declared.row.Key.{Key};

    ghost Value = { List Key };

    ghost use Rattle.si_model.specs.Places.{HasListed};

    ghost view = { λ k. k.keys };

    ghost invariant = { λ k. HasListed k.listed k.keys };
}

impl KeyList {
    pub fn new(alloc: Global) -> KeyList
        ensures { result ≡ [] }
    {
        KeyList {
            keys: List::new(alloc),
            listed: BTreeSet::new(alloc),
        }
    }

    /// Notes a key, if it is not there.
    pub fn note(&mut self, key: Key) -> Result<(), AllocError>
        ensures { OnOk result (self.new ≡ with_guard self.old key) }
    {
        if self.listed.contains(&key) {
            return Ok(());
        }
        self.listed.insert(key)?;
        if self.keys.push(key).is_err() {
            self.listed.remove(&key);
            return Err(AllocError);
        }
        Ok(())
    }

    pub fn as_slice(&self) -> &[Key]
        ensures { result.now ≡ self.now }
    {
        self.keys.as_slice()
    }
}

/// Does one of the operations write the key?
fn ops_write(ops: &[Op], key: Key) -> bool
    ensures { result ≡ ops_write key ops.now }
{
    ops.iter().any(|op| op.key_written() == Some(key))
}

/// The keys that the operations guard, also those that they write.
fn keys_guarded(alloc: Global, ops: &[Op]) -> Result<KeyList, AllocError>
    ensures { IfOk result (λ keys. keys ≡ keys_from key_guarded [] ops.now) }
{
    let mut keys = KeyList::new(alloc);
    for op in ops {
        if let Some(key) = op.key_guarded() {
            keys.note(key)?;
        }
    }
    Ok(keys)
}

/// The keys that the operations guard and do not write, each once, in the order of first guards.
pub fn guard_keys(alloc: Global, ops: &[Op]) -> Result<List<Key>, AllocError>
    ensures { IfOk result (λ keys. keys ≡ guard_keys ops.now) }
{
    let guards = keys_guarded(alloc, ops)?;
    let mut keys = List::new(alloc);
    for guard in guards.as_slice() {
        if !ops_write(ops, *guard) {
            keys.push(*guard)?;
        }
    }
    Ok(keys)
}

/// The keys that a transaction writes, and then those that it guards.
pub fn keys_of(alloc: Global, writes: &[Item], guards: &[Key]) -> Result<List<Key>, AllocError>
    ensures { IfOk result (λ keys. keys ≡ keys_of writes.now guards.now) }
{
    let mut keys = List::new(alloc);
    for item in writes {
        keys.push(item.key())?;
    }
    for key in guards {
        keys.push(*key)?;
    }
    Ok(keys)
}
