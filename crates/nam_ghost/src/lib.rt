//! What is known of the words, versions and calls of a store beside what stands in them.
#![tactic(auto)]
