//! Where the positions of a key's path stand.

ghost use Rattle.std.specs.Prelude.{◌≡◌, ◌<◌, ◌≤◌, ◌-◌, ◌^◌, length};
ghost use Rattle.nam_catalog.specs.Words.{words_of};
ghost use Rattle.nam_calls.specs.Words.{path_of};
ghost use Rattle.nam_calls.specs.Index.{nth_position, nth_key};
ghost use Rattle.nam_index.specs.Path.{path_address, path_end, FitsPath};

use nam_calls::Path;
use nam_catalog::slot_words;
use nam_layout::Layout;

/// The path of a key of a table.
pub fn path_of(layout: &Layout, table: u32, key: u64) -> Path
    requires table { table < length layout.now.tables }
    requires key { key < 2 ^ 64 - 1 }
    ensures value { result ≡ path_of layout.now table key }
    ensures fits { FitsPath result }
    ensures within { path_end result ≤ words_of layout.now }
{
    // A layout's total says that the shape is within its limits: the table has a position.
    let _words = layout.total();
    let place = layout.place(table, 0);
    Path {
        key,
        capacity: layout.capacity(table),
        row: place.row,
        first: place.key_at,
        words: 3 + place.width as u64 + place.ring as u64 * slot_words(place.width),
    }
}

/// The position after so many others of the path.
pub fn position_at(path: &Path, passed: u32) -> u32
    requires fits { FitsPath path.now }
    requires passed { passed < path.now.capacity }
    ensures value { result ≡ nth_position path.now passed }
    ensures within { result < path.now.capacity }
{
    ((path.key % path.capacity as u64 + passed as u64) % path.capacity as u64) as u32
}

/// The address of its key word.
pub fn key_at(path: &Path, passed: u32) -> u64
    requires fits { FitsPath path.now }
    requires passed { passed < path.now.capacity }
    ensures value { result ≡ path_address path.now (nth_key path.now passed) }
    ensures within { result < path_end path.now }
{
    path.first + position_at(path, passed) as u64 * path.words
}
