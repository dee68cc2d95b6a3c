//! Whole calls of the protocol, made of machines that are driven one after another on plain words: how many verbs each
//! takes. There are tests alone.
#![tactic(auto)]

#[cfg(test)]
mod commit;
#[cfg(test)]
mod tests;
#[cfg(test)]
mod tidy;
