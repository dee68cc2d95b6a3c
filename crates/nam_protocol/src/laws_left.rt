//! Verbs to come: fewer with each word taken, and how many there are at the begin; and which field each of them is at.

ghost use Rattle.nam_protocol.specs.FallsLaw.{TxnLaw, TxnBeginsLaw, ScanLaw, ClientLaw, ClientBeginsLaw};
ghost use Rattle.nam_protocol.specs.AttemptLaw.{NewAskedLaw, AskLaw, TakeLaw, AttemptLaw};
ghost use Rattle.nam_protocol.specs.FieldLaw.{TableFieldsLaw, CommitFieldsLaw, TxnFieldsLaw, CallFieldsLaw};
ghost use Rattle.nam_protocol.specs.FieldLaw.{ClientFieldsLaw, WithinLaw};

/// At each point of a call of a transaction, its commit included, that fits, each word leads to a point that fits with
/// fewer verbs to come, or to an answer: what the transaction has at hand fits after each word, and a call begins with
/// no more verbs than its bound.
pub fn txn_falls()
    ensures falls { TxnLaw }
    ensures begins { TxnBeginsLaw }
{}

/// The same for a scan, which begins with no more verbs than its table's bound, and goes on after each key and each row
/// as its caller says.
pub fn scan_falls()
    ensures { ScanLaw }
{}

/// The same for each call of a client that isn't cut off: a word leaves fewer verbs to come, and a call begins with no
/// more than its bound.
pub fn client_falls()
    ensures falls { ClientLaw }
    ensures begins { ClientBeginsLaw }
{}

/// The bound of a whole attempt is the sum of those of its snapshot, of its operations and of the commit after them:
/// the keys that a transaction writes and guards are those of the operations that have passed, in their order.
pub fn attempt_bound()
    ensures new { NewAskedLaw }
    ensures ask { AskLaw }
    ensures take { TakeLaw }
    ensures sum { AttemptLaw }
{}

/// Each verb of each call at a table's positions, of each call of a transaction, its commit included, and of each call
/// of a client is at a field of the shape, and so is a client's next verb. This needs no more than that the point fits,
/// which the other laws keep. The place of each record of a commit is that of its row.
pub fn calls_at_fields()
    ensures table { TableFieldsLaw }
    ensures commit { CommitFieldsLaw }
    ensures txn { TxnFieldsLaw }
    ensures call { CallFieldsLaw }
    ensures client { ClientFieldsLaw }
{}

/// A verb at a field of the shape has an address below the number of the shape's words, where that field stands.
pub fn reached_within()
    ensures { WithinLaw }
{}
