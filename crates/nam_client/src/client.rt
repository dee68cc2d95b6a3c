//! Clients.

ghost use Rattle.std.specs.Prelude.{◌≡◌, ◌<◌, ◌≤◌, ◌+◌, ◌-◌, ◌^◌, ◌↔◌};
ghost use Rattle.std.specs.Prelude.{IsNone, IsSome, IfSome, IsTrue, OnOk, OnErr, length};
ghost use Rattle.std.specs.Prelude.{true, false, Some, None};
ghost use Rattle.nam_verbs.specs.Verb.{address_of};
ghost use Rattle.nam_verbs.specs.declared.now.Now.TheVariants.{Over};
ghost use Rattle.nam_catalog.specs.declared.shape.Shape.{Shape};
ghost use Rattle.nam_catalog.specs.Words.{words_of};
ghost use Rattle.nam_protocol.specs.declared.client.Answer.TheVariants.{Txn};
ghost use Rattle.nam_protocol.specs.Client.{client_ask, client_after, client_abandon};
ghost use Rattle.nam_protocol.specs.ClientFits.{call_bound};
ghost use Rattle.nam_protocol.specs.CutClient.{client_cut, client_treated, into_log};
ghost use Rattle.nam_protocol.specs.Left.{client_left};
ghost use Rattle.nam_protocol.specs.Own.{MayAsk};
ghost use Rattle.nam_protocol.specs.RoomLaw.{call_room, IsWithin};
ghost use Rattle.nam_protocol.specs.Session.{answer_now};
ghost use Rattle.nam_protocol.specs.SessionFits.{is_running};
ghost use Rattle.nam_protocol.specs.Telling.{new_client};
ghost use Rattle.nam_client.specs.Registers.{client_of};
ghost use Rattle.nam_client.specs.Client.{CanServe, spare_of, less_room, verb_of, ops_so_far, written, guarded};
ghost use Rattle.nam_client.specs.Fits.{IsClientOf};

use crate::answering::{answer_of, is_busy};
use crate::calls::{ask_call, go_on, pass_tag};
use crate::closing::{abandon, into_log};
use crate::registers::{Registers, Spare, Step, new_registers};
use crate::room::reserve;
use crate::verbs::{keep_verb, verbs_left};
use nam_layout::Layout;
use nam_protocol::{Answer, Call, TxnAnswer};
use nam_verbs::Verb;
use si_model::{Finish, Log};
use std::alloc::{AllocError, Global};
use std::marker::Model;

/// A client of a worker: its calls one at a time, and its log. A call is asked; then the caller does the verb that
/// stands and hands in the word that it found, until the call is answered.
#[derive(Debug, Drop)]
pub struct Client {
    registers: Registers,
    /// The verb that stands, which is kept from one word to the next.
    standing: Option<Verb>,
}

impl Model for Client {
    ghost use Rattle.nam_client.specs.declared.registers.Registers.{Registers};
    ghost use Rattle.nam_client.specs.Room.{Holds};
    ghost use Rattle.nam_client.specs.Fits.{IsStanding};

    ghost Value = { Registers };

    ghost view = { λ a. a.registers };

    ghost invariant = { λ a. Holds a.registers × IsStanding a.registers a.standing };
}

impl Client {
    /// A new client of a worker, whose commit numbers follow `start`. It has room for no call.
    pub fn new(alloc: Global, worker: u32, start: u64) -> Client
        ensures client { client_of result ≡ new_client worker start }
        ensures spare { spare_of result ≡ record { attempts = 0; ops = 0; tidies = 0 } }
        ensures of { (shape : Shape) → CanServe shape worker start → IsClientOf shape result }
    {
        Client {
            registers: new_registers(alloc, worker, start),
            standing: None,
        }
    }

    /// The worker whose client it is.
    pub fn worker(&self) -> u32
        ensures { result ≡ (client_of self.now).worker }
    {
        self.registers.worker
    }

    /// Makes room for so many begins, operations, and tidyings or collections, and for two events more. A scan takes
    /// the room of as many operations as its table has positions. Where memory is not found all is as before.
    pub fn reserve(&mut self, attempts: u32, ops: u32, tidies: u32) -> Result<(), AllocError>
        ensures client { client_of self.new ≡ client_of self.old }
        ensures ok { OnOk result (
            IsWithin record { attempts = attempts; ops = ops; tidies = tidies } (spare_of self.new)
            × IsWithin (spare_of self.old) (spare_of self.new)) }
        ensures err { OnErr result (spare_of self.new ≡ spare_of self.old) }
        ensures of { (shape : Shape) → IsClientOf shape self.old → IsClientOf shape self.new }
    {
        let asked = Spare {
            attempts,
            ops,
            tidies,
        };
        let reserved = reserve(&mut self.registers, &asked);
        keep_verb(&self.registers, &mut self.standing);
        reserved
    }

    /// How many begins, operations, and tidyings or collections the client has room for.
    pub fn spare(&self) -> (u32, u32, u32)
        ensures { result ≡ ((spare_of self.now).attempts, (spare_of self.now).ops, (spare_of self.now).tidies) }
    {
        let spare = &self.registers.spare;
        (spare.attempts, spare.ops, spare.tidies)
    }

    #[tactic(auto, using(crate::proofs::KeptLemmas::asked_kept, crate::proofs::KeptLemmas::asked_left, crate::proofs::KeptLemmas::asked_holds,))]
    /// Asks a call, for which there is room. It may be answered at once.
    pub fn ask(&mut self, layout: &Layout, call: &Call)
        requires of { IsClientOf layout.now self.old }
        requires may { MayAsk layout.now (client_of self.old) call.now }
        requires room { IsWithin (call_room layout.now call.now) (spare_of self.old) }
        requires counted { ops_so_far (client_of self.old).txn + (call_room layout.now call.now).ops < 2 ^ 32 }
        ensures client { client_of self.new ≡ client_ask layout.now (client_of self.old) call.now }
        ensures spare { spare_of self.new ≡ less_room (spare_of self.old) (call_room layout.now call.now) }
        ensures of { IsClientOf layout.now self.new }
        ensures left { client_left layout.now (client_of self.new)
            ≤ call_bound layout.now (client_of self.old) call.now }
    {
        ask_call(&mut self.registers, layout, call);
        keep_verb(&self.registers, &mut self.standing);
    }

    #[tactic(auto, using(crate::proofs::VerbLemmas::within))]
    /// The verb that stands, at a word of the store, and none exactly where no call runs or the client is cut.
    #[inline]
    pub fn verb(&self) -> Option<Verb>
        ensures verb { (shape : Shape) → IsClientOf shape self.now → result ≡ verb_of shape self.now }
        ensures within { (shape : Shape) → IsClientOf shape self.now
            → IfSome result (λ verb. address_of verb < words_of shape) }
    {
        self.standing
    }

    #[tactic(auto, using(crate::proofs::KeptLemmas::word_kept, crate::proofs::KeptLemmas::word_falls, crate::proofs::KeptLemmas::word_holds,))]
    /// Goes on with the word that the verb found.
    #[inline]
    pub fn take(&mut self, layout: &Layout, found: u64)
        requires of { IsClientOf layout.now self.old }
        requires stands { IsSome (verb_of layout.now self.old) }
        ensures client { client_of self.new ≡ client_after layout.now (client_of self.old) found }
        ensures spare { spare_of self.new ≡ spare_of self.old }
        ensures of { IsClientOf layout.now self.new }
        ensures falls { client_left layout.now (client_of self.new) < client_left layout.now (client_of self.old) }
    {
        match pass_tag(&mut self.registers, layout, found) {
            Some(at) => self.standing = Some(Verb::Read { at }),
            None => go_on(&mut self.registers, &mut self.standing, layout, found),
        }
    }

    /// A number of verbs that are to come at the most before the answer. Each word that is taken lowers it, and right
    /// after a call was asked it is at most the call's part of an attempt's bound.
    pub fn left(&self) -> u64
        ensures { (shape : Shape) → IsClientOf shape self.now → result ≡ client_left shape (client_of self.now) }
    {
        verbs_left(&self.registers)
    }

    /// The answer to the last call, and none exactly where no call was asked or one runs.
    pub fn answer(&self) -> Option<Answer>
        ensures { result ≡ answer_now (client_of self.now).call }
    {
        answer_of(&self.registers)
    }

    #[tactic(auto, using(crate::proofs::VerbLemmas::txn_answered))]
    /// The answer to the last call where it was one of the transaction, and stands there: without a copy.
    #[inline]
    pub fn txn_answer(&self) -> Option<&TxnAnswer>
        ensures { IfSome result (λ end. answer_now (client_of self.now).call ≡ Some (Txn end.now)) }
    {
        match self.registers.step {
            Step::InTxn => self.registers.txn.answered(),
            _ => None,
        }
    }

    /// Whether a call runs.
    pub fn is_busy(&self) -> bool
        ensures { result ≡ is_running (client_of self.now).call }
    {
        is_busy(&self.registers)
    }

    /// Whether a transaction is open.
    pub fn in_txn(&self) -> bool
        ensures { IsTrue result ↔ IsSome (client_of self.now).txn }
    {
        self.registers.is_open
    }

    /// How many operations were asked in the open transaction, a scan being as many as its table has positions, and 0
    /// where none is open.
    pub fn ops_so_far(&self) -> u32
        ensures { result ≡ ops_so_far (client_of self.now).txn }
    {
        if self.registers.is_open {
            self.registers.attempt.ops_so_far
        } else {
            0
        }
    }

    /// How many keys the open transaction's write set has, and 0 where none is open.
    pub fn written(&self) -> u32
        ensures { result ≡ written (client_of self.now).txn }
    {
        if self.registers.is_open {
            self.registers.txn.written()
        } else {
            0
        }
    }

    /// How many keys the open transaction guards and does not write, and 0 where none is open.
    pub fn guarded(&self) -> u32
        ensures { (shape : Shape) → IsClientOf shape self.now → result ≡ guarded (client_of self.now).txn }
    {
        if self.registers.is_open {
            self.registers.txn.guarded()
        } else {
            0
        }
    }

    #[tactic(auto, using(crate::proofs::VerbLemmas::none_rests))]
    /// Gives the open transaction up, between two calls. Its attempt is listed as left.
    pub fn abandon(&mut self)
        requires opened { IsSome (client_of self.old).txn }
        requires rests { is_running (client_of self.old).call ≡ false }
        ensures client { client_of self.new ≡ client_abandon (client_of self.old) }
        ensures spare { spare_of self.new ≡ spare_of self.old }
        ensures of { (shape : Shape) → IsClientOf shape self.old → IsClientOf shape self.new }
    {
        abandon(&mut self.registers);
        self.standing = None;
    }

    #[tactic(auto, using(crate::proofs::VerbLemmas::none_cut))]
    /// Stops the client for good.
    pub fn cut(&mut self)
        ensures client { client_of self.new ≡ client_cut (client_of self.old) }
        ensures spare { spare_of self.new ≡ spare_of self.old }
        ensures of { (shape : Shape) → IsClientOf shape self.old → IsClientOf shape self.new }
    {
        self.registers.is_cut = true;
        self.standing = None;
    }

    /// Whether the client was stopped for good.
    pub fn is_cut(&self) -> bool
        ensures { result ≡ (client_of self.now).cut }
    {
        self.registers.is_cut
    }

    #[tactic(auto, using(crate::proofs::VerbLemmas::none_cut))]
    /// Notes how a medic has finished the client, which is cut.
    pub fn finished(&mut self, how: Finish)
        requires cut { (client_of self.old).cut ≡ true }
        requires once { (client_of self.old).medic ≡ None }
        requires runs { is_running (client_of self.old).call ≡ true }
        ensures client { client_of self.new ≡ client_treated (client_of self.old) (Over how) }
        ensures spare { spare_of self.new ≡ spare_of self.old }
        ensures of { (shape : Shape) → IsClientOf shape self.old → IsClientOf shape self.new }
    {
        self.registers.finish = Some(how);
        self.standing = None;
    }

    #[tactic(auto, using(crate::proofs::ClosingLemmas::log_of))]
    /// The log, where no call runs or the client is cut. A call that was cut is listed as cut, an open transaction
    /// between two calls as left, or as cut where the client is.
    pub fn into_log(self) -> Log
        requires { is_running (client_of self).call ≡ true → (client_of self).cut ≡ true }
        ensures { (shape : Shape) → IsClientOf shape self → result ≡ into_log shape (client_of self) }
    {
        let Client { registers, .. } = self;
        into_log(registers)
    }
}
