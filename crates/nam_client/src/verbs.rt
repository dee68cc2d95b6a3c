//! The verb that stands, and how many are to come.

ghost use Rattle.std.specs.Prelude.{◌≡◌};
ghost use Rattle.nam_catalog.specs.declared.shape.Shape.{Shape};
ghost use Rattle.nam_protocol.specs.Left.{client_left};
ghost use Rattle.nam_client.specs.Registers.{client_of};
ghost use Rattle.nam_client.specs.Room.{Holds};
ghost use Rattle.nam_client.specs.Client.{verb_of};
ghost use Rattle.nam_client.specs.Fits.{IsClientOf, IsStanding};

use crate::registers::{Registers, Step};
use nam_index::{find_left, find_verb};
use nam_scan::Scan;
use nam_verbs::Verb;

// The verb that stands, and none where no call runs or the client is cut.
#[tactic(auto, using(crate::proofs::VerbLemmas::in_txn, crate::proofs::VerbLemmas::seeking, crate::proofs::VerbLemmas::scanning,))]
#[inline]
fn verb_of(a: &Registers) -> Option<Verb>
    requires { Holds a.now }
    ensures { (shape : Shape) → IsClientOf shape a.now → result ≡ verb_of shape a.now }
{
    if a.is_cut {
        return None;
    }
    match a.step {
        Step::Moving { .. } => a.mover.verb(),
        Step::InTxn => { if a.is_open { a.txn.verb() } else { None } }
        Step::Beginning { .. } | Step::Snapping { .. } => a.snapper.verb(),
        Step::Seeking { passed, .. } => Some(find_verb(&a.path, passed)),
        Step::Scanning => match &a.scan {
            Some(scan) => scan.verb(),
            None => None,
        },
        Step::Collecting { .. } => a.collector.verb(a.snapper.seen()),
        Step::Resting | Step::Answered(_) => None,
    }
}

/// Keeps the verb that stands.
#[inline(never)]
pub fn keep_verb(a: &Registers, standing: &mut Option<Verb>)
    requires { Holds a.now }
    ensures { IsStanding a.now standing.new }
{
    *standing = verb_of(a);
}

/// How many verbs are to come at the most, and none where no call runs or the client is cut.
pub fn verbs_left(a: &Registers) -> u64
    requires { Holds a.now }
    ensures { (shape : Shape) → IsClientOf shape a.now → result ≡ client_left shape (client_of a.now) }
{
    if a.is_cut {
        return 0;
    }
    match a.step {
        Step::Moving { .. } => a.mover.left(),
        Step::InTxn => { if a.is_open { a.txn.left() } else { 0 } }
        Step::Beginning { .. } => a.snapper.left(),
        Step::Snapping { .. } => match a.snapper.end() {
            None => a.snapper.left() + a.to_follow,
            Some(_) => 0,
        },
        Step::Seeking { passed, .. } => find_left(&a.path, passed) as u64 + a.to_follow,
        Step::Scanning => match &a.scan {
            Some(scan) => scan.left(),
            None => 0,
        },
        Step::Collecting { .. } => a.collector.left(),
        Step::Resting | Step::Answered(_) => 0,
    }
}
