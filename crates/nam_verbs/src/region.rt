//! Regions of words.

ghost use Rattle.std.specs.Prelude.{◌≡◌, ◌<◌, length};
ghost use Rattle.nam_verbs.specs.Verb.{address_of, found_by, after_verb};

use crate::verb::Verb;
use std::marker::Model;

/// Words that are reached by single verbs alone.
pub trait Region {
    ghost use Rattle.std.specs.Prelude.{List, ℕ};

    /// The words by their addresses.
    ghost words: { Self → List ℕ };

    /// Does a verb, and answers the word that it found: 0 for a write. Nothing but the word at its address changes.
    fn verb(&mut self, verb: Verb) -> u64
        requires { address_of verb < length (words self.old) }
        ensures found { result ≡ found_by (words self.old) verb }
        ensures changed { words self.new ≡ after_verb (words self.old) verb };
}

/// A region over a vector, for one caller.
#[derive(Debug, Drop)]
pub struct PlainRegion {
    words: Vec<u64>,
}

impl Model for PlainRegion {
    ghost use Rattle.std.specs.Prelude.{List, ℕ};

    ghost Value = { List ℕ };

    ghost view = { λ a. a.words.items };
}

impl PlainRegion {
    /// A region of these words.
    pub fn new(words: Vec<u64>) -> PlainRegion
        ensures { result ≡ words.items }
    {
        PlainRegion { words }
    }
}

impl Region for PlainRegion {
    ghost words = { λ a. a };

    fn verb(&mut self, verb: Verb) -> u64 {
        match verb {
            Verb::Read { at } => self.words[at as usize],
            Verb::Write { at, word } => {
                self.words[at as usize] = word;
                0
            }
            Verb::Exchange { at, expect, word } => {
                let entry = &mut self.words[at as usize];
                let found = *entry;
                if found == expect {
                    *entry = word;
                }
                found
            }
        }
    }
}
