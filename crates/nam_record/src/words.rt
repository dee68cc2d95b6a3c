//! Reading the data words of a record.

ghost use Rattle.std.specs.Prelude.{◌≡◌, ◌<◌};
ghost use Rattle.nam_verbs.specs.Verb.{address_of};
ghost use Rattle.nam_verbs.specs.VerbAt.{verb_by};
ghost use Rattle.nam_verbs.specs.Running.{verbs_left};
ghost use Rattle.nam_layout.specs.Place.{position_address, place_end};
ghost use Rattle.nam_layout.specs.PlaceFits.{FitsPlace};
ghost use Rattle.nam_calls.specs.Record.{words_begin, words_verb, words_after, words_left};
ghost use Rattle.nam_calls.specs.Fits.{WordsFit};
ghost use Rattle.nam_record.specs.ReadWords.{reading_words, running};

use nam_layout::{Field, Place};
use nam_verbs::{Machine, Now, Verb};
use si_model::Value;
use std::marker::Model;
use std::mem::replace;

/// Where the reading of the data words begins: no word is got. Each point is the words got so far.
pub fn words_begin() -> Value
    ensures { result ≡ words_begin }
{
    Value::new()
}

/// The verb that stands where these words are got.
pub fn words_verb(place: &Place, got: &Value) -> Verb
    requires fits { FitsPlace place.now }
    requires got { WordsFit place.now got.now }
    ensures value { result ≡ verb_by (position_address place.now) (words_verb place.now got.now) }
    ensures within { address_of result < place_end place.now }
{
    Verb::Read {
        at: place.word(got.len() as u32),
    }
}

/// The reading after the word that its verb found.
pub fn words_after(place: &Place, got: Value, found: u64) -> Now<Value, Value>
    requires fits { FitsPlace place.now }
    requires got { WordsFit place.now got }
    ensures { result ≡ words_after place.now got found }
{
    let mut more = got;
    more.push(found);
    if more.len() == place.width as usize {
        Now::Over(more)
    } else {
        Now::At(more)
    }
}

/// How many verbs are to come where these words are got.
pub fn words_left(place: &Place, got: &Value) -> u64
    requires fits { FitsPlace place.now }
    requires got { WordsFit place.now got.now }
    ensures { result ≡ words_left place.now got.now }
{
    place.width as u64 - got.len() as u64
}

/// The reading of a record's data words, in order.
#[derive(Debug, Drop)]
pub struct ReadWords {
    place: Place,
    state: Now<Value, Value>,
}

impl Model for ReadWords {
    ghost use Rattle.nam_verbs.specs.Now.{FitsNow};
    ghost use Rattle.nam_layout.specs.PlaceFits.{FitsPlace};
    ghost use Rattle.nam_calls.specs.Fits.{WordsFit};
    ghost use Rattle.nam_record.specs.ReadWords.{WordsReading};

    ghost Value = { WordsReading };

    ghost view = { λ a. record { place = a.place; state = a.state } };

    ghost invariant = { λ a. FitsPlace a.place × FitsNow (WordsFit a.place) a.state };
}

impl ReadWords {
    /// A reading of as many verbs as there are data words.
    pub fn new(place: Place) -> ReadWords
        requires { FitsPlace place }
        ensures begins { result ≡ reading_words place }
        ensures left { verbs_left (running result) ≡ place.width }
    {
        ReadWords {
            place,
            state: Now::At(words_begin()),
        }
    }
}

impl Machine for ReadWords {
    ghost use Rattle.nam_record.specs.ReadWords.{running};

    type Word = Field;

    type Point = Value;

    type End = Value;

    ghost running = { running };

    fn state(&self) -> &Now<Value, Value> {
        &self.state
    }

    fn verb_from(&self, got: &Value) -> Verb {
        words_verb(&self.place, got)
    }

    fn left_from(&self, got: &Value) -> u64 {
        words_left(&self.place, got)
    }

    fn take(&mut self, found: u64) {
        self.state = match replace(&mut self.state, Now::At(words_begin())) {
            Now::At(got) => words_after(&self.place, got, found),
            Now::Over(value) => Now::Over(value),
        };
    }

    fn end(&self) -> Option<Value> {
        match &self.state {
            Now::At(_) => None,
            Now::Over(value) => Some(value.copy()),
        }
    }
}
