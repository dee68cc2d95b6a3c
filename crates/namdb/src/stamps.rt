//! The newest stamp of each key that was written, and the locks that bear them.

ghost use Rattle.std.specs.Prelude.{◌≡◌, map, IfOk, OnOk, if◌then◌else◌};
ghost use Rattle.si_model.specs.declared.row.Key.{Key};
ghost use Rattle.si_model.specs.Rows.{writes_key};
ghost use Rattle.namdb.specs.Stamps.{stamp_held, lock_held};

use lists::List;
use si_model::{Item, Key, Lock, Stamp};
use std::alloc::{AllocError, Global};
use std::collections::BTreeMap;

/// The stamp of a key, and the loader's where none is noted.
fn stamp_at(stamps: &BTreeMap<Key, Stamp>, key: Key) -> Stamp
    ensures { result ≡ stamp_held stamps.now key }
{
    stamps.get(&key).copied().unwrap_or_default()
}

/// Notes the stamp for each key of a write set.
pub fn note(
    stamps: &mut BTreeMap<Key, Stamp>,
    stamp: Stamp,
    writes: &[Item],
) -> Result<(), AllocError>
    ensures { OnOk result (
        (key : Key) → stamp_held stamps.new key
        ≡ (if writes_key writes.now key then stamp else stamp_held stamps.old key)) }
{
    for item in writes {
        stamps.insert(item.key(), stamp)?;
    }
    Ok(())
}

/// A lock of a key, with its stamp.
fn lock_at(stamps: &BTreeMap<Key, Stamp>, key: Key) -> Lock
    ensures { result ≡ lock_held stamps.now key }
{
    Lock {
        table: key.table,
        key: key.key,
        stamp: stamp_at(stamps, key),
    }
}

/// Locks of keys, in order.
pub fn locks_on(
    alloc: Global,
    stamps: &BTreeMap<Key, Stamp>,
    keys: &[Key],
) -> Result<List<Lock>, AllocError>
    ensures { IfOk result (λ locks. locks ≡ map (lock_held stamps.now) keys.now) }
{
    let mut locks = List::new(alloc);
    for key in keys {
        locks.push(lock_at(stamps, *key))?;
    }
    Ok(locks)
}
