//! A session's client is asked its driver's calls, one after another.

ghost use Rattle.std.specs.Prelude.{◌≡◌, IsSome, Some, None, true, false};
ghost use Rattle.nam_protocol.specs.declared.client.Answer.{Answer};
ghost use Rattle.nam_protocol.specs.Client.{client_verb};
ghost use Rattle.nam_protocol.specs.Driver.{driver_next};
ghost use Rattle.nam_protocol.specs.Session.{answer_now, settled, call_taken};
ghost use Rattle.nam_client.specs.Fits.{IsClientOf};
ghost use Rattle.nam_client.specs.Registers.{client_of};
ghost use Rattle.nam_worker.specs.Answering.{AnswersNext, AreJobs};
ghost use Rattle.nam_worker.specs.Session.{asking, answered, CanAskNext, HasRoomAfter, HasTaken, IsUncut};
ghost use Rattle.nam_worker.specs.Session.{MayTakeAnswer, Occurs};

use crate::driver::Driver;
use nam_client::Client;
use nam_layout::Layout;
use nam_protocol::Job;

/// The driver takes the client's answer, if there is one. One of the transaction it takes without a copy.
#[inline]
fn hand_answer(client: &Client, driver: &mut Driver, jobs: &[Job]) -> bool
    requires answers { (end : Answer) → answer_now (client_of client.now).call ≡ Some end
        → AnswersNext (driver_next jobs.now driver.old) end }
    requires jobs { AreJobs jobs.now }
    ensures none { result ≡ false → (answer_now (client_of client.now).call ≡ None) × (driver.new ≡ driver.old) }
    ensures some { result ≡ true → HasTaken client.now jobs.now driver.old driver.new }
{
    match client.txn_answer() {
        Some(end) => {
            driver.take_txn(jobs, end);
            true
        }
        None => hand_other(client, driver, jobs),
    }
}

/// The same with any answer.
#[inline(never)]
fn hand_other(client: &Client, driver: &mut Driver, jobs: &[Job]) -> bool
    requires answers { (end : Answer) → answer_now (client_of client.now).call ≡ Some end
        → AnswersNext (driver_next jobs.now driver.old) end }
    requires jobs { AreJobs jobs.now }
    ensures none { result ≡ false → (answer_now (client_of client.now).call ≡ None) × (driver.new ≡ driver.old) }
    ensures some { result ≡ true → HasTaken client.now jobs.now driver.old driver.new }
{
    match client.answer() {
        Some(answer) => {
            driver.take(jobs, &answer);
            true
        }
        None => false,
    }
}

/// The driver's calls are asked until one takes a verb, or all jobs are through.
pub fn settle(client: &mut Client, driver: &mut Driver, jobs: &[Job], layout: &Layout)
    requires { CanAskNext layout.now client.old driver.old jobs.now }
    ensures value { asking client.new driver.new jobs.now
        ≡ settled layout.now (asking client.old driver.old jobs.now) }
    ensures of { IsClientOf layout.now client.new }
    ensures room { HasRoomAfter layout.now client.new driver.new jobs.now }
    ensures uncut { IsUncut (client_of client.new) }
    ensures worker { (client_of client.new).worker ≡ (client_of client.old).worker }
{
    while let Some(call) = driver.next(jobs) {
        client.ask(layout, &call);
        if !hand_answer(client, driver, jobs) {
            return;
        }
    }
}

/// The driver takes the client's answer, if there is one, and the next call is asked.
#[inline(never)]
fn take_answer(client: &mut Client, driver: &mut Driver, jobs: &[Job], layout: &Layout)
    requires { MayTakeAnswer layout.now client.old driver.old jobs.now }
    ensures value { asking client.new driver.new jobs.now
        ≡ answered layout.now (asking client.old driver.old jobs.now) }
    ensures of { IsClientOf layout.now client.new }
    ensures room { HasRoomAfter layout.now client.new driver.new jobs.now }
    ensures uncut { IsUncut (client_of client.new) }
    ensures worker { (client_of client.new).worker ≡ (client_of client.old).worker }
{
    if hand_answer(client, driver, jobs) {
        settle(client, driver, jobs, layout);
    }
}

/// The client takes a word. Where that answers its call, the driver takes the answer, and the next call is asked.
#[inline]
pub fn take_word(
    client: &mut Client,
    driver: &mut Driver,
    jobs: &[Job],
    layout: &Layout,
    found: u64,
)
    requires of { IsClientOf layout.now client.old }
    requires occurs { Occurs layout.now (asking client.old driver.old jobs.now) }
    requires room { HasRoomAfter layout.now client.old driver.old jobs.now }
    requires jobs { AreJobs jobs.now }
    requires stands { IsSome (client_verb layout.now (client_of client.old)) }
    requires medic { (client_of client.old).medic ≡ None }
    ensures value { asking client.new driver.new jobs.now
        ≡ call_taken layout.now (asking client.old driver.old jobs.now) found }
    ensures of { IsClientOf layout.now client.new }
    ensures room { HasRoomAfter layout.now client.new driver.new jobs.now }
    ensures uncut { IsUncut (client_of client.new) }
    ensures worker { (client_of client.new).worker ≡ (client_of client.old).worker }
{
    client.take(layout, found);
    if client.verb().is_none() {
        take_answer(client, driver, jobs, layout);
    }
}
