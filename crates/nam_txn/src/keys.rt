//! The keys that a transaction writes, guards and has claimed: at most 16 of each, searched one after another.

ghost use Rattle.std.specs.Prelude.{◌≡◌, ◌<◌, ◌≤◌, length, IfSome};
ghost use Rattle.si_model.specs.Rows.{has_key, writes_key};
ghost use Rattle.si_model.specs.Evaluation.{with_write, with_guard};
ghost use Rattle.si_model.specs.Places.{place_of};
ghost use Rattle.nam_protocol.specs.Txn.{with_claim};
ghost use Rattle.nam_txn.specs.Read.{first_written, has_claim};

use lists::ShortList;
use nam_protocol::Record;
use si_model::{Item, Key};

fn first_written(writes: &[Item], key: Key) -> Option<usize>
    ensures first { result ≡ first_written writes.now key }
    ensures within { IfSome result (λ place. place < length writes.now) }
{
    writes.iter().position(|item| item.key() == key)
}

/// The place of a key's item in the write set.
#[tactic(auto, using(crate::proofs::KeyLemmas::first_is))]
pub(crate) fn place_written(writes: &[Item], key: Key) -> Option<usize>
    ensures place { result ≡ place_of writes.now key }
    ensures within { IfSome result (λ place. place < length writes.now) }
{
    first_written(writes, key)
}

/// Gives the write set's item of the key its place, or the last one where the key was not written.
pub(crate) fn note_write(writes: &mut ShortList<Item, 16>, item: Item)
    requires room { length (with_write writes.old item) ≤ 16 }
    ensures { writes.new ≡ with_write writes.old item }
{
    match place_written(writes.as_slice(), item.key()) {
        Some(place) => writes.set(place, item),
        None => writes.push(item),
    }
}

fn is_guarded(guards: &[Key], key: Key) -> bool
    ensures { result ≡ has_key guards.now key }
{
    guards.iter().any(|guard| *guard == key)
}

/// Notes a guard, if the key is not guarded yet.
pub(crate) fn note_guard(guards: &mut ShortList<Key, 16>, key: Key)
    requires room { length (with_guard guards.old key) ≤ 16 }
    ensures { guards.new ≡ with_guard guards.old key }
{
    if !is_guarded(guards.as_slice(), key) {
        guards.push(key);
    }
}

fn is_claimed(claims: &[Record], key: Key) -> bool
    ensures { result ≡ has_claim claims.now key }
{
    claims.iter().any(|claim| claim.key == key)
}

/// Notes a claim, if the key is not claimed yet.
pub(crate) fn note_claim(claims: &mut ShortList<Record, 16>, claim: Record)
    requires room { length (with_claim claims.old claim) ≤ 16 }
    ensures { claims.new ≡ with_claim claims.old claim }
{
    if !is_claimed(claims.as_slice(), claim.key) {
        claims.push(claim);
    }
}
