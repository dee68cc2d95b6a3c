//! Loading a row into a new store.

ghost use Rattle.std.specs.Prelude.{◌≡◌, ◌<◌, ◌≤◌, ◌+◌, ◌-◌, ◌^◌, ℕ, length};
ghost use Rattle.nam_catalog.specs.declared.shape.Shape.{Shape};
ghost use Rattle.nam_catalog.specs.Words.{words_of};
ghost use Rattle.nam_layout.specs.Place.{place_at};
ghost use Rattle.nam_layout.specs.PlaceFits.{FitsPlace};
ghost use Rattle.nam_calls.specs.Words.{capacity_of, on_path};
ghost use Rattle.nam_protocol.specs.OpeningLaw.{IsOfTable};
ghost use Rattle.nam_protocol.specs.Opening.{with_row, load_from};

use nam_layout::{Layout, Place};
use si_model::Row;

// Puts the row into a free position, under the loader's stamp.
fn put_row(place: &Place, row: &Row, words: &mut [u64])
    requires key { row.now.key < 2 ^ 64 - 1 }
    requires wide { length row.now.value ≡ place.now.width }
    requires fits { FitsPlace place.now }
    requires within { place.now.words_at + place.now.width ≤ length words.old }
    ensures value { (shape : Shape) (at : ℕ) → place.now ≡ place_at shape at
        → words.new ≡ with_row shape at row.now words.old }
    ensures long { length words.new ≡ length words.old }
{
    words[place.key_at as usize] = row.key + 1;
    words[place.header_at as usize] = 0;
    let first = place.words_at as usize;
    for (nth, word) in row.value.as_slice().iter().enumerate() {
        words[first + nth] = *word;
    }
}

// The first position of a key's path.
fn first_on_path(key: u64, capacity: u32) -> u32
    requires { 1 ≤ capacity }
    ensures value { result ≡ on_path capacity key 0 }
    ensures within { result < capacity }
{
    (key % capacity as u64) as u32
}

// The next position of a path: the first follows the last.
#[tactic(auto, using(crate::proofs::LoadLemmas::path_turns, crate::proofs::LoadLemmas::path_goes))]
fn next_on_path(position: u32, capacity: u32) -> u32
    requires { position < capacity }
    ensures value { (key passed : ℕ) → position ≡ on_path capacity key passed
        → result ≡ on_path capacity key (passed + 1) }
    ensures within { result < capacity }
{
    if position + 1 == capacity {
        0
    } else {
        position + 1
    }
}

/// Loads the row at the first free position of its key's path, if there is one.
pub(crate) fn load(layout: &Layout, row: &Row, words: &mut [u64])
    requires key { row.now.key < 2 ^ 64 - 1 }
    requires of { IsOfTable layout.now row.now }
    requires long { length words.old ≡ words_of layout.now }
    ensures value { words.new ≡ load_from layout.now row.now (capacity_of layout.now row.now.table) 0 words.old }
    ensures long { length words.new ≡ length words.old }
{
    // A layout's total says that the shape is within its limits: the table has a position.
    let _words = layout.total();
    let capacity = layout.capacity(row.table);
    let mut position = first_on_path(row.key, capacity);
    for _ in 0..capacity {
        let place = layout.place(row.table, position);
        if words[place.key_at as usize] == 0 {
            put_row(&place, row, words);
            return;
        }
        position = next_on_path(position, capacity);
    }
}
