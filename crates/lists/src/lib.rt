//! Lists for the fields of public types.
//!
//! A contract sees a bare `Vec` or `ArrayVec` as a buffer. These two types hold one each, and a contract sees
//! them as the list of their elements: `List` grows on the heap, `ShortList` holds a fixed number and takes no memory.
#![tactic(auto)]

mod list;
mod short;
#[cfg(test)]
mod tests;

pub use list::List;
pub use short::ShortList;
