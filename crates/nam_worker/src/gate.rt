//! Gates, which a worker passes before each transaction.

/// A worker passes its gate before it begins a transaction, and tells it when it is done with it.
pub trait Gate {
    /// The worker is to begin the transaction, which is the one of this number.
    fn pass(&self, worker: u32, txn: u32);

    /// The worker is done with the transaction.
    fn done(&self, worker: u32, txn: u32);
}

/// The gate that is always open.
#[derive(Clone, Copy, Debug, Default)]
pub struct OpenGate;

impl Gate for OpenGate {
    fn pass(&self, _worker: u32, _txn: u32) {}

    fn done(&self, _worker: u32, _txn: u32) {}
}
