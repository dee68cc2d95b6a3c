//! Finding the position of a key.

ghost use Rattle.std.specs.Prelude.{◌≡◌, ◌<◌, ◌≤◌, ◌-◌, ◌^◌, length};
ghost use Rattle.nam_verbs.specs.Verb.{address_of};
ghost use Rattle.nam_verbs.specs.VerbAt.{verb_by};
ghost use Rattle.nam_verbs.specs.Running.{verbs_left};
ghost use Rattle.nam_catalog.specs.Words.{words_of};
ghost use Rattle.nam_calls.specs.Words.{capacity_of};
ghost use Rattle.nam_calls.specs.Fits.{FindFits};
ghost use Rattle.nam_calls.specs.Index.{find_begin, find_verb, find_after, find_left};
ghost use Rattle.nam_index.specs.Path.{path_address, path_end, FitsPath};
ghost use Rattle.nam_index.specs.Find.{finding, running};

use crate::path::{key_at, path_of, position_at};
use nam_calls::{FindEnd, Path};
use nam_layout::{Field, Layout};
use nam_verbs::{Machine, Now, Verb};
use std::marker::Model;
use std::mem::replace;

/// Where a search begins: no position of the key's path has been passed.
pub fn find_begin() -> u32
    ensures { result ≡ find_begin }
{
    0
}

/// The verb that stands after so many positions of the path.
pub fn find_verb(path: &Path, passed: u32) -> Verb
    requires fits { FitsPath path.now }
    requires passed { FindFits path.now.capacity passed }
    ensures value { result ≡ verb_by (path_address path.now) (find_verb path.now passed) }
    ensures within { address_of result < path_end path.now }
{
    Verb::Read {
        at: key_at(path, passed),
    }
}

/// What follows the word that this verb found.
pub fn find_after(path: &Path, passed: u32, found: u64) -> Now<u32, FindEnd>
    requires fits { FitsPath path.now }
    requires passed { FindFits path.now.capacity passed }
    ensures { result ≡ find_after path.now passed found }
{
    if found == path.key + 1 {
        Now::Over(FindEnd::At(position_at(path, passed)))
    } else if found == 0 || passed + 1 == path.capacity {
        Now::Over(FindEnd::Absent)
    } else {
        Now::At(passed + 1)
    }
}

/// A number of verbs that are to come after so many positions at the most.
pub fn find_left(path: &Path, passed: u32) -> u64
    requires { FindFits path.now.capacity passed }
    ensures { result ≡ find_left path.now passed }
{
    (path.capacity - passed) as u64
}

/// The search for the position that bears a key. It reads the key words along the key's path.
#[derive(Debug, Drop)]
pub struct Find {
    path: Path,
    state: Now<u32, FindEnd>,
}

impl Model for Find {
    ghost use Rattle.nam_verbs.specs.Now.{FitsNow};
    ghost use Rattle.nam_calls.specs.Fits.{FindFits};
    ghost use Rattle.nam_index.specs.Path.{FitsPath};
    ghost use Rattle.nam_index.specs.Find.{Finding};

    ghost Value = { Finding };

    ghost view = { λ a. record { path = a.path; state = a.state } };

    ghost invariant = { λ a. FitsPath a.path × FitsNow (FindFits a.path.capacity) a.state };
}

impl Find {
    /// The search for a key of a table.
    pub fn new(layout: &Layout, table: u32, key: u64) -> Find
        requires table { table < length layout.now.tables }
        requires key { key < 2 ^ 64 - 1 }
        ensures begins { result ≡ finding layout.now table key }
        ensures left { verbs_left (running result) ≡ capacity_of layout.now table }
        ensures within { (running result).reach ≤ words_of layout.now }
    {
        Find {
            path: path_of(layout, table, key),
            state: Now::At(find_begin()),
        }
    }
}

impl Machine for Find {
    ghost use Rattle.nam_index.specs.Find.{running};

    type Word = Field;

    type Point = u32;

    type End = FindEnd;

    ghost running = { running };

    fn state(&self) -> &Now<u32, FindEnd> {
        &self.state
    }

    fn verb_from(&self, place: &u32) -> Verb {
        find_verb(&self.path, *place)
    }

    fn left_from(&self, place: &u32) -> u64 {
        find_left(&self.path, *place)
    }

    fn take(&mut self, found: u64) {
        self.state = match replace(&mut self.state, Now::At(find_begin())) {
            Now::At(passed) => find_after(&self.path, passed, found),
            Now::Over(end) => Now::Over(end),
        };
    }

    fn end(&self) -> Option<FindEnd> {
        self.state.end()
    }
}
