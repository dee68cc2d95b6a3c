//! A worker's client: its calls one at a time, and its log.
//!
//! [`Client`] is the client of nam_protocol in registers: what it does with each call and each word is exactly the
//! definitions' `client_ask` and `client_after`, what it lists is exactly theirs, and it takes no memory but in
//! `reserve`. It does no input or output: it tells the verb that stands and takes the word that was found.
#![tactic(auto)]

mod answering;
mod beginning;
mod calls;
mod client;
mod closing;
mod collecting;
mod ending;
mod registers;
mod room;
mod scanning;
#[cfg(test)]
mod tests;
mod tidying;
mod transacting;
mod verbs;

pub use client::Client;
pub use nam_protocol::{Answer, Call, TxnAnswer, TxnCall};
