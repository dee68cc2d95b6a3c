//! Worlds: sessions that take turns over one region of words.
//!
//! `World` is made of a shape, rows and sessions. Its workers take turns: a step does the verb that a worker's session
//! asks for and hands it the word that was found, and a cut stops a session. In the end `finish` gives the logs and the
//! audit. `opening` makes the words of a new store, and `audit` says what is left in a store's words under their last
//! vector. Each is exactly the definition of its name in `nam_protocol`. A turn takes no memory; where memory is
//! refused, nothing is given.
#![tactic(auto)]

mod audited;
mod blank;
mod load;
mod make_error;
mod opened;
mod runs;
mod session;
#[cfg(test)]
mod tests;
mod turn;
mod world;

pub use audited::audit;
pub use make_error::MakeError;
pub use nam_worker::Session;
pub use opened::opening;
pub use runs::Runs;
pub use turn::Turn;
pub use world::World;
