//! What logs tell of a store, as definitions alone: what a snapshot shows, by words; the logs that its clients would
//! leave, were each of them cut now; the setting that a store is of; and how listed commits stand to publications. What
//! holds of them is proved in the crates above.
#![tactic(auto)]
