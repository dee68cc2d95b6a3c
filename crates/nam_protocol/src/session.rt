//! A session: a client that follows the retry policy through its jobs.

use crate::client::ClientState;
use lists::{List, ShortList};
use si_model::{Key, Op, Policy};

/// A transaction that a worker is to run.
#[derive(Debug, Drop)]
pub struct Job {
    pub txn: u32,
    pub ops: List<Op>,
}

/// What is to be asked next.
#[derive(Debug, Drop)]
pub enum DriverPoint {
    /// The begin of a try.
    ToBegin,
    /// An operation, counted from 0, or the commit after the last.
    ToAsk {
        nth: u32,
    },
    /// The tidying of a key. `again`: its bucket was collected for it; `retry`: another try follows.
    ToTidy {
        keys: ShortList<Key, 16>,
        nth: u32,
        again: bool,
        retry: bool,
    },
    /// The collection of the bucket that had no room for that key.
    ToCollect {
        bucket: u32,
        keys: ShortList<Key, 16>,
        nth: u32,
        retry: bool,
    },
}

/// The policy as a value: job number `job`, counted from 0, at its try number `nth`, counted from 1.
#[derive(Debug, Drop)]
pub struct DriverState {
    pub policy: Policy,
    pub job: u32,
    pub nth: u32,
    pub place: DriverPoint,
}

/// A client, its driver and its jobs.
#[derive(Debug, Drop)]
pub struct SessionState {
    pub client: ClientState,
    pub driver: DriverState,
    pub jobs: List<Job>,
}
