//! The simulated run of a script: the turns of its workers over one world, and the text of the report on it.
//!
//! A run takes the turns of the script's schedule, and then rounds until no worker has a verb to come. Each verb is
//! asked of its worker's line, which serves it or stops the worker. `simulated` does it all, from a script to the text;
//! `sessions_of` gives the sessions that it runs. `simulated_text` runs a world in which nothing was
//! done yet to its end and gives the report's text; `jobs_of` gives the jobs that the sessions of such a world begin
//! with. The run is exactly the definition of `nam_protocol`, and takes no memory; the report does.
#![tactic(auto)]

mod jobs;
mod reporting;
mod rounds;
mod schedule;
mod sessions;
mod simulate;
#[cfg(test)]
mod tests;
mod turns;
mod whole_run;

pub use jobs::jobs_of;
pub use nam_core::{Runs, World};
pub use nam_protocol::Job;
pub use sessions::sessions_of;
pub use simulate::simulated_text;
pub use whole_run::simulated;
