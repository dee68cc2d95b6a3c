//! One-sided verbs on words, and calls that are cut into them.
//!
//! A `Region` is a list of words, which change by single verbs alone, exactly as the definitions `found_by` and
//! `after_verb` say. A `Machine` is one call: a verb stands exactly until it has ended, and each word that it takes
//! lowers the number of verbs to come. A contract sees a call as the value `Running`; `steps_law` and `verbs_law` say
//! what its steps, verb by verb with the words found, tell of its end. `PlainRegion` is a region over a vector, and
//! `drive` runs a machine to its end on words that nobody else changes.
#![tactic(auto)]

mod driver;
mod laws;
mod machine;
mod now;
mod region;
#[cfg(test)]
mod tests;
mod verb;

pub use driver::drive;
pub use laws::{steps_law, verbs_law};
pub use machine::Machine;
pub use now::Now;
pub use region::{PlainRegion, Region};
pub use verb::Verb;
