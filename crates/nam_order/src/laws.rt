//! How commits and snapshots that logs list stand to one another.

ghost use Rattle.nam_order.specs.OrderLaw.{CircleLaw, GuardsLaw, OrderLaw, WinsLaw};

/// The logs that the clients of a store would leave, were each of them cut now, have an order.
///
/// Each worker's commits are numbered one by one from the start; each snapshot has an entry for each worker, from the
/// start to the worker's last number; and of two snapshots one is at most the other in every entry, where each event's
/// prefix is its snapshot's (`order`). Of two commits that write one key one is in the other's snapshot (`wins`: first
/// committer wins, Berenson and others 1995). A snapshot that contains a commit contains those that it overtakes
/// (`guards`), and overtaking goes in no circle (`circle`).
pub fn order_law()
    ensures order { OrderLaw }
    ensures wins { WinsLaw }
    ensures guards { GuardsLaw }
    ensures circle { CircleLaw }
{}
