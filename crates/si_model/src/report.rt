//! Histories, audits and reports.

use crate::log::Log;
use crate::row::{Items, Value};
use lists::List;

/// An entry of a history: a transaction's write set, committed on the state at a prefix.
#[derive(Debug, Drop)]
pub struct CommitLine {
    pub worker: u32,
    pub number: u64,
    pub prefix: u64,
    pub txn: u32,
    pub writes: Items,
}

/// A row as the audit found it.
#[derive(Debug, Drop)]
pub struct AuditRow {
    pub table: u32,
    pub key: u64,
    pub value: Option<Value>,
    pub locked: bool,
}

/// What is left of a store that was closed: the workers' logs in order, and the audit.
#[derive(Debug, Drop)]
pub struct Closed {
    pub logs: List<Log>,
    pub audit: List<AuditRow>,
}

/// What is written of a run.
#[derive(Debug, Drop)]
pub struct Report {
    pub history: List<CommitLine>,
    pub logs: List<Log>,
    pub audit: List<AuditRow>,
}
