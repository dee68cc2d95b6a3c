//! What stands in lines, as it is spelt. Numbers are none where they are above 2^64 - 1.

use lists::ShortList;
use nam_text::Number;

/// A change of a field: is it added or taken away, and how much.
#[derive(Clone, Copy, Debug)]
pub struct Change {
    pub up: bool,
    pub by: Number,
}

/// So many turns of one worker, as they are spelt.
#[derive(Clone, Copy, Debug)]
pub struct SpeltStint {
    pub worker: Number,
    pub steps: Number,
}

/// One to eight numbers.
pub type Numbers = ShortList<Number, 8>;
