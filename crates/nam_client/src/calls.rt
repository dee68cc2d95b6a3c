//! Each call is asked of the machine that runs it, and each word handed to it.

ghost use Rattle.std.specs.Prelude.{◌≡◌, ◌<◌, ◌+◌, ◌^◌, IsSome, IfSome, Some, None, true, false};
ghost use Rattle.nam_verbs.specs.declared.verb.Verb.TheVariants.{Read};
ghost use Rattle.nam_protocol.specs.Client.{client_ask, client_after};
ghost use Rattle.nam_protocol.specs.Own.{MayAsk};
ghost use Rattle.nam_protocol.specs.RoomLaw.{call_room, IsWithin};
ghost use Rattle.nam_txn.specs.Txn.{IsTxnOf};
ghost use Rattle.nam_client.specs.Registers.{client_of, call_of};
ghost use Rattle.nam_client.specs.Client.{spare_of, less_room, verb_of, ops_so_far};
ghost use Rattle.nam_client.specs.Room.{HasRoom, Holds, StepHolds, TxnRests};
ghost use Rattle.nam_client.specs.Fits.{IsClientOf, IsStanding, HandFits};

use crate::beginning::{begin, take_begin};
use crate::collecting::{collect, take_collect, take_snap};
use crate::registers::{Registers, Step};
use crate::scanning::{ask_scan, take_scan};
use crate::tidying::{pass_cell, take_move, take_seek, tidy};
use crate::transacting::{ask_txn, take_txn};
use crate::verbs::keep_verb;
use nam_layout::Layout;
use nam_protocol::Call;
use nam_verbs::Verb;

/// Asks a call, for which there is room.
#[tactic(auto, using(crate::proofs::KeptLemmas::rests_call, crate::proofs::KeptLemmas::rests_scan, crate::proofs::KeptLemmas::in_txn_holds, crate::proofs::KeptLemmas::in_txn_calm,))]
pub fn ask_call(a: &mut Registers, layout: &Layout, call: &Call)
    requires of { IsClientOf layout.now a.old }
    requires holds { Holds a.old }
    requires may { MayAsk layout.now (client_of a.old) call.now }
    requires room { IsWithin (call_room layout.now call.now) (spare_of a.old) }
    requires counted { ops_so_far (client_of a.old).txn + (call_room layout.now call.now).ops < 2 ^ 32 }
    ensures client { client_of a.new ≡ client_ask layout.now (client_of a.old) call.now }
    ensures spare { spare_of a.new ≡ less_room (spare_of a.old) (call_room layout.now call.now) }
    ensures txn { a.new.is_open ≡ true → IsTxnOf layout.now a.new.txn }
    ensures hand { HandFits layout.now a.new (call_of a.new.step a.new) }
    ensures room { HasRoom a.new }
    ensures at { StepHolds a.new.step a.new }
    ensures calm { a.new.is_open ≡ true → TxnRests a.new.step a.new.txn.call }
{
    match call {
        Call::Begin { txn, nth } => begin(a, layout, *txn, *nth),
        Call::Txn(call) => ask_txn(a, layout, call),
        Call::Scan { table, low, high } => ask_scan(a, layout, *table, *low, *high),
        Call::Tidy { table, key } => tidy(a, layout, *table, *key),
        Call::Collect { bucket } => collect(a, layout, *bucket),
    }
}

/// Goes on with the word that the verb found, where that is the tag of a cell that a tidying passes: the address of the
/// next cell's tag, which is read next. Else nothing is done. Most words of a tidying are such tags.
#[inline]
pub fn pass_tag(a: &mut Registers, layout: &Layout, found: u64) -> Option<u64>
    requires of { IsClientOf layout.now a.old }
    requires holds { Holds a.old }
    requires stands { IsSome (verb_of layout.now a.old) }
    ensures none { result ≡ None → a.new ≡ a.old }
    ensures client { IsSome result → client_of a.new ≡ client_after layout.now (client_of a.old) found }
    ensures spare { a.new.spare ≡ a.old.spare }
    ensures closed { IsSome result → a.new.is_open ≡ false }
    ensures hand { HandFits layout.now a.new (call_of a.new.step a.new) }
    ensures room { HasRoom a.new }
    ensures at { StepHolds a.new.step a.new }
    ensures verb { IfSome result (λ at. IsStanding a.new (Some (Read at))) }
{
    match a.step {
        Step::Moving {
            table,
            key,
            position,
        } => pass_cell(a, table, key, position, found),
        _ => None,
    }
}

/// Goes on with any other word, and keeps the verb that stands then.
#[tactic(auto, using(crate::proofs::KeptLemmas::word_holds))]
#[inline(never)]
pub fn go_on(a: &mut Registers, standing: &mut Option<Verb>, layout: &Layout, found: u64)
    requires of { IsClientOf layout.now a.old }
    requires holds { Holds a.old }
    requires stands { IsSome (verb_of layout.now a.old) }
    ensures client { client_of a.new ≡ client_after layout.now (client_of a.old) found }
    ensures spare { a.new.spare ≡ a.old.spare }
    ensures txn { a.new.is_open ≡ true → IsTxnOf layout.now a.new.txn }
    ensures hand { HandFits layout.now a.new (call_of a.new.step a.new) }
    ensures room { HasRoom a.new }
    ensures at { StepHolds a.new.step a.new }
    ensures calm { a.new.is_open ≡ true → TxnRests a.new.step a.new.txn.call }
    ensures verb { IsStanding a.new standing.new }
{
    take_word(a, layout, found);
    keep_verb(a, standing);
}

/// Goes on with the word that the verb found.
#[tactic(auto, using(crate::proofs::KeptLemmas::in_txn_holds, crate::proofs::KeptLemmas::in_txn_calm,))]
#[inline]
fn take_word(a: &mut Registers, layout: &Layout, found: u64)
    requires of { IsClientOf layout.now a.old }
    requires holds { Holds a.old }
    requires stands { IsSome (verb_of layout.now a.old) }
    ensures client { client_of a.new ≡ client_after layout.now (client_of a.old) found }
    ensures spare { a.new.spare ≡ a.old.spare }
    ensures txn { a.new.is_open ≡ true → IsTxnOf layout.now a.new.txn }
    ensures hand { HandFits layout.now a.new (call_of a.new.step a.new) }
    ensures room { HasRoom a.new }
    ensures at { StepHolds a.new.step a.new }
    ensures calm { a.new.is_open ≡ true → TxnRests a.new.step a.new.txn.call }
{
    match a.step {
        Step::Moving {
            table,
            key,
            position,
        } => take_move(a, table, key, position, found),
        Step::InTxn => take_txn(a, layout, found),
        Step::Beginning { txn, nth } => take_begin(a, txn, nth, found),
        Step::Seeking { table, key, passed } => take_seek(a, layout, table, key, passed, found),
        Step::Scanning => take_scan(a, layout, found),
        Step::Snapping { bucket } => take_snap(a, layout, bucket, found),
        Step::Collecting { bucket, prefix } => take_collect(a, bucket, prefix, found),
        Step::Resting | Step::Answered(_) => {}
    }
}
