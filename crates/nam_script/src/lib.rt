//! Scripts and the text that spells them: what a store is made of, what is loaded into it, and the transactions
//! that its workers run.
//!
//! `print` gives the one text of any script, exactly. `parse` gives the script of a text, or else the first line that
//! no script has there, with the first kind of fault that it has. What it gives keeps to all limits, and its text is
//! what was read, but that stints may stand in other groups on their lines: `grouping_law` says when it is so to the
//! byte. Each script within the limits is read from any text that spells it so.
//! `bank` makes a script from a number.
#![tactic(auto)]

mod banking;
mod checks;
mod draft;
mod laws;
mod line;
mod lines;
mod ops;
mod parsing;
mod parts;
mod printing;
mod refusal;
mod rows;
mod script;
mod stage;
mod taking;
#[cfg(test)]
mod tests;

pub use banking::bank;
pub use laws::grouping_law;
pub use parsing::parse;
pub use printing::print;
pub use refusal::{Kind, ParseEnd};
pub use script::{Script, ScriptTxn, Stint, Turns};
