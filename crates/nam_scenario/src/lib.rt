//! The scenario of a script: what is simulated of it.
//!
//! The crate has no code that runs. `specs/` says which scenario of `nam_protocol` a script of `nam_script` is; the
//! laws say that each script within the limits makes a scenario that fits, so that it has exactly one simulated run,
//! whatever the workers' lines do.
#![tactic(auto)]

mod laws;

pub use laws::{scripts_fit, scripts_run};
