//! The horizon, up to which no snapshot needs a version that ended there.
//!
//! `Collect` raises the horizon's entries to a snapshot's, and then sets free the cells of a bucket whose versions
//! ended within the horizon that it knows. `ShowOld` shows that the horizon has passed a snapshot. Whatever words their
//! verbs find, `collect_law` and `old_law` say exactly what they do and how they end, `exchange_law` what a collection
//! exchanges, and `field_law` that each verb is at an entry of a worker or at a field of the bucket's cells. No call
//! takes memory.
#![tactic(auto)]

mod collect;
mod laws;
mod old;
#[cfg(test)]
mod tests;

pub use collect::{Collect, collect_after, collect_begin, collect_left, collect_verb};
pub use laws::{collect_law, exchange_law, field_law, old_law};
pub use nam_calls::{CollectPoint, OldEnd};
pub use old::{ShowOld, old_after, old_begin, old_left, old_verb};
