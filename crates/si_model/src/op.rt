//! The operations of a transaction, and the keys that they name.

ghost use Rattle.std.specs.Prelude.{◌≡◌};

use crate::row::{Key, Value};

/// One operation. Fields are counted from 1.
#[derive(Debug, Drop)]
pub enum Op {
    /// Reads a key.
    Get {
        table: u32,
        key: u64,
    },
    /// Gives a key a value.
    Put {
        table: u32,
        key: u64,
        value: Value,
    },
    /// Reads a key and adds `by` to one of its fields, or takes it away where not `up`.
    Add {
        table: u32,
        key: u64,
        field: u32,
        up: bool,
        by: u64,
    },
    /// Makes a key absent.
    Del {
        table: u32,
        key: u64,
    },
    /// Reads a key and declines the transaction where a field is below `least`.
    Need {
        table: u32,
        key: u64,
        field: u32,
        least: u64,
    },
    /// Reads a key that no concurrent transaction may write.
    Guard {
        table: u32,
        key: u64,
    },
    /// Reads each present row whose key is from `low` to `high`.
    Scan {
        table: u32,
        low: u64,
        high: u64,
    },
}

impl Op {
    ghost use Rattle.si_model.specs.Evaluation.{op_key, key_read, key_written, key_guarded, key_claimed};

    /// An equal operation, made without memory.
    pub fn copy(&self) -> Op
        ensures { result ≡ self.now }
    {
        match self {
            Op::Get { table, key } => Op::Get {
                table: *table,
                key: *key,
            },
            Op::Put { table, key, value } => Op::Put {
                table: *table,
                key: *key,
                value: value.copy(),
            },
            Op::Add {
                table,
                key,
                field,
                up,
                by,
            } => Op::Add {
                table: *table,
                key: *key,
                field: *field,
                up: *up,
                by: *by,
            },
            Op::Del { table, key } => Op::Del {
                table: *table,
                key: *key,
            },
            Op::Need {
                table,
                key,
                field,
                least,
            } => Op::Need {
                table: *table,
                key: *key,
                field: *field,
                least: *least,
            },
            Op::Guard { table, key } => Op::Guard {
                table: *table,
                key: *key,
            },
            Op::Scan { table, low, high } => Op::Scan {
                table: *table,
                low: *low,
                high: *high,
            },
        }
    }

    /// The key that the operation names; of a scan its lowest.
    pub fn key(&self) -> Key
        ensures { result ≡ op_key self.now }
    {
        match self {
            Op::Get { table, key }
            | Op::Put { table, key, .. }
            | Op::Add { table, key, .. }
            | Op::Del { table, key }
            | Op::Need { table, key, .. }
            | Op::Guard { table, key } => Key {
                table: *table,
                key: *key,
            },
            Op::Scan { table, low, .. } => Key {
                table: *table,
                key: *low,
            },
        }
    }

    /// The key that the operation reads. A scan reads a range, and has none.
    pub fn key_read(&self) -> Option<Key>
        ensures { result ≡ key_read self.now }
    {
        match self {
            Op::Get { .. } | Op::Add { .. } | Op::Need { .. } | Op::Guard { .. } => {
                Some(self.key())
            }
            Op::Put { .. } | Op::Del { .. } | Op::Scan { .. } => None,
        }
    }

    /// The key that the operation writes.
    pub fn key_written(&self) -> Option<Key>
        ensures { result ≡ key_written self.now }
    {
        match self {
            Op::Put { .. } | Op::Add { .. } | Op::Del { .. } => Some(self.key()),
            Op::Get { .. } | Op::Need { .. } | Op::Guard { .. } | Op::Scan { .. } => None,
        }
    }

    /// The key that the operation guards.
    pub fn key_guarded(&self) -> Option<Key>
        ensures { result ≡ key_guarded self.now }
    {
        match self {
            Op::Guard { .. } => Some(self.key()),
            _ => None,
        }
    }

    /// The key that the operation writes or guards, which so needs a position.
    pub fn key_claimed(&self) -> Option<Key>
        ensures { result ≡ key_claimed self.now }
    {
        self.key_written().or(self.key_guarded())
    }
}

/// How often a transaction is tried at the most, and whether old versions are moved away afterwards.
#[derive(Clone, Copy, Debug, PartialEq, Eq)]
pub struct Policy {
    pub tries: u32,
    pub tidy: bool,
}
