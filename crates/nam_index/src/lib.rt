//! The index: the position of a key in its table.
//!
//! A key is looked for along its path, which begins at the key modulo the table's capacity and goes from one position
//! to the next. `Find` reads key words up to the key or a free position, and `FindOrClaim` claims the first free
//! position by an exchange. Whatever words their verbs find, `find_law` and `claim_law` say exactly how they end,
//! `path_law` that a path goes through each position once, and `field_law` that each verb is at the key of one of the
//! table's rows. No call takes memory.
#![tactic(auto)]

mod claim;
mod find;
mod laws;
mod path;
#[cfg(test)]
mod tests;

pub use claim::{FindOrClaim, claim_key_after, claim_key_begin, claim_key_left, claim_key_verb};
pub use find::{Find, find_after, find_begin, find_left, find_verb};
pub use laws::{claim_law, field_law, find_law, path_law};
pub use nam_calls::{ClaimKeyEnd, ClaimKeyPoint, FindEnd, Path};
pub use path::path_of;
