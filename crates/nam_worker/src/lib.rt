//! What a worker asks: the retry policy as a value, the room that its calls need, and the session that asks them.
//!
//! A [`Driver`] tells the next call for a worker's jobs and takes each call's answer. It is exactly the driver of
//! nam_protocol, on whose laws it rests: a session of any kind that asks its calls follows the policy. A [`Session`] is a
//! client that is asked them; it is exactly the session of nam_protocol, with its medic. No call takes memory but
//! `Session::prepare`.
#![tactic(auto)]

mod answering;
mod asking;
mod driver;
mod driving;
mod gate;
mod keys;
mod laws;
mod room;
mod session;
#[cfg(test)]
mod tests;

pub use answering::is_answer_to;
pub use driver::Driver;
pub use gate::{Gate, OpenGate};
pub use keys::are_jobs;
pub use laws::answers_fit;
pub use nam_client::Client;
pub use nam_protocol::{Answer, Call, Job, TxnAnswer, TxnCall};
pub use room::needs;
pub use session::Session;
pub use si_model::Policy;
