//! Sessions.

ghost use Rattle.std.specs.Prelude.{◌≡◌, ◌<◌, ◌≤◌, true, None, IsSome, IfSome, OnOk, OnErr, option_map};
ghost use Rattle.nam_verbs.specs.Verb.{address_of};
ghost use Rattle.nam_catalog.specs.declared.shape.Shape.{Shape};
ghost use Rattle.nam_catalog.specs.Words.{words_of};
ghost use Rattle.nam_layout.specs.Address.{IsWorker};
ghost use Rattle.nam_calls.specs.Memory.{verb_there};
ghost use Rattle.nam_protocol.specs.Driver.{new_driver};
ghost use Rattle.nam_protocol.specs.Left.{session_left};
ghost use Rattle.nam_protocol.specs.Session.{session_verb, session_after, session_cut, session_log, new_session};
ghost use Rattle.nam_protocol.specs.Session.{has_ended};
ghost use Rattle.nam_protocol.specs.SessionFits.{is_running};
ghost use Rattle.nam_client.specs.Registers.{client_of};
ghost use Rattle.nam_worker.specs.Session.{session_of, IsReadyFor, IsSessionOf, IsNewSession, finish_in};
ghost use Rattle.nam_worker.specs.Session.{verbs_to_come};

use crate::asking::{settle, take_word};
use crate::driver::Driver;
use crate::room::needs;
use lists::List;
use nam_catalog::Form;
use nam_client::Client;
use nam_layout::Layout;
use nam_medic::Medic;
use nam_protocol::Job;
use nam_verbs::Verb;
use si_model::{Finish, Log, Policy};
use std::alloc::AllocError;
use std::marker::Model;

/// A worker's session: a client that is asked its driver's calls one after another, through all of its jobs.
///
/// It is prepared for a store, which makes all room that its calls will need. Then the caller does the verb that
/// stands and hands in the word that it found, until none stands. A session that is stopped has no more verbs; in form
/// Held it has a medic's, which finishes the attempt.
#[derive(Debug, Drop)]
pub struct Session {
    client: Client,
    driver: Driver,
    jobs: List<Job>,
    ready: Option<Medic>,
    medic: Option<Medic>,
}

impl Model for Session {
    ghost use Rattle.nam_worker.specs.Session.{SessionParts, Holds};

    ghost Value = { SessionParts };

    ghost view = { λ a. record { client = a.client; driver = a.driver; jobs = a.jobs; ready = a.ready; medic = a.medic } };

    ghost invariant = { λ a. Holds record { client = a.client; driver = a.driver; jobs = a.jobs; ready = a.ready; medic = a.medic } };
}

// The medic that finishes the worker's attempt if it is stopped, in the form that has intents.
fn ready_medic(layout: &Layout, worker: u32) -> Option<Medic>
    requires { IsWorker layout.now worker }
    ensures { IsReadyFor layout.now worker result }
{
    match layout.form() {
        Form::Held => Some(Medic::new(layout, worker)),
        Form::Narrow | Form::Wide => None,
    }
}

// How the medic has finished the attempt, if it has.
fn finish_of(medic: &Option<Medic>) -> Option<Finish>
    ensures { result ≡ finish_in medic.now }
{
    match medic {
        Some(medic) => medic.end(),
        None => None,
    }
}

impl Session {
    /// The session of a client, which follows the policy through the jobs.
    pub fn new(client: Client, jobs: Vec<Job>, policy: Policy) -> Session
        requires { 1 ≤ policy.tries }
        ensures { result ≡ record {
          client = client;
          driver = new_driver policy;
          jobs = jobs.items;
          ready = None;
          medic = None;
        } }
    {
        Session {
            client,
            driver: Driver::new(policy),
            jobs: List::from_vec(jobs),
            ready: None,
            medic: None,
        }
    }

    /// Makes the room that the jobs need, and asks the first call. Where memory is not found the session stays as it
    /// was.
    pub fn prepare(&mut self, layout: &Layout) -> Result<(), AllocError>
        requires { IsNewSession layout.now self.old }
        ensures ok { OnOk result (session_of self.new
            ≡ new_session layout.now (client_of self.old.client) self.old.jobs self.old.driver.policy) }
        ensures of { OnOk result (IsSessionOf layout.now self.new) }
        ensures err { OnErr result (session_of self.new ≡ session_of self.old) }
        ensures again { OnErr result (IsNewSession layout.now self.new) }
    {
        let (attempts, ops, tidies) = needs(layout, self.driver.policy(), self.jobs.as_slice());
        self.client.reserve(attempts, ops, tidies)?;
        self.ready = ready_medic(layout, self.client.worker());
        settle(
            &mut self.client,
            &mut self.driver,
            self.jobs.as_slice(),
            layout,
        );
        Ok(())
    }

    /// The verb that stands, at a word of the store. None exactly where the session has ended, or was stopped and has no
    /// medic.
    #[inline]
    pub fn verb(&self) -> Option<Verb>
        ensures verb { (shape : Shape) → IsSessionOf shape self.now
            → result ≡ option_map (verb_there shape) (session_verb shape (session_of self.now)) }
        ensures within { (shape : Shape) → IsSessionOf shape self.now
            → IfSome result (λ verb. address_of verb < words_of shape) }
    {
        match &self.medic {
            Some(medic) => medic.verb(),
            None => self.client.verb(),
        }
    }

    /// Goes on with the word that the verb found.
    #[inline]
    pub fn take(&mut self, layout: &Layout, found: u64)
        requires of { IsSessionOf layout.now self.old }
        requires stands { IsSome (session_verb layout.now (session_of self.old)) }
        ensures value { session_of self.new ≡ session_after layout.now (session_of self.old) found }
        ensures of { IsSessionOf layout.now self.new }
        ensures falls { session_left layout.now (session_of self.new)
            < session_left layout.now (session_of self.old) }
    {
        match &mut self.medic {
            Some(medic) => medic.take(layout, found),
            None => take_word(
                &mut self.client,
                &mut self.driver,
                self.jobs.as_slice(),
                layout,
                found,
            ),
        }
    }

    /// How many verbs are to come at the most before the call that runs is answered, or before the medic has ended.
    pub fn left(&self) -> u64
        ensures { (shape : Shape) → IsSessionOf shape self.now
            → result ≡ verbs_to_come shape (session_of self.now) }
    {
        match &self.medic {
            Some(medic) => medic.left(),
            None => self.client.left(),
        }
    }

    /// Whether it has ended: its jobs are through, or, where it was stopped, its medic has answered.
    pub fn ended(&self) -> bool
        ensures { (shape : Shape) → IsSessionOf shape self.now → result ≡ has_ended (session_of self.now) }
    {
        if self.client.is_cut() {
            finish_of(&self.medic).is_some()
        } else {
            self.driver.is_through(self.jobs.as_slice())
        }
    }

    /// Stops the session before its next verb. One whose jobs are through stays as it is.
    pub fn cut(&mut self)
        ensures value { (shape : Shape) → IsSessionOf shape self.old
            → session_of self.new ≡ session_cut shape.form (session_of self.old) }
        ensures of { (shape : Shape) → IsSessionOf shape self.old → IsSessionOf shape self.new }
    {
        if self.driver.is_through(self.jobs.as_slice()) || self.client.is_cut() {
            return;
        }
        self.client.cut();
        self.medic = self.ready.take();
    }

    /// Whether it was stopped.
    pub fn is_cut(&self) -> bool
        ensures { result ≡ (session_of self.now).client.cut }
    {
        self.client.is_cut()
    }

    /// The log of what it did, where no call runs or it was stopped.
    pub fn into_log(self) -> Log
        requires { is_running (session_of self).client.call ≡ true → (session_of self).client.cut ≡ true }
        ensures { (shape : Shape) → IsSessionOf shape self → result ≡ session_log shape (session_of self) }
    {
        let Session { client, medic, .. } = self;
        let mut client = client;
        if let Some(how) = finish_of(&medic) {
            client.finished(how);
        }
        client.into_log()
    }
}
