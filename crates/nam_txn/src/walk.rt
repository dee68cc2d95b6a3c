//! The path of a key, walked from one position to the next.

ghost use Rattle.std.specs.Prelude.{◌≡◌, ◌<◌, ◌+◌, ◌-◌, ◌^◌, length};
ghost use Rattle.nam_calls.specs.Words.{path_of};
ghost use Rattle.nam_calls.specs.Index.{nth_key, nth_position};
ghost use Rattle.nam_index.specs.Path.{path_address, path_end};
ghost use Rattle.nam_txn.specs.Walk.{IsWalk};

use nam_calls::Path;
use nam_index::path_of;
use nam_layout::Layout;

/// A walk along the path of a key: how many positions it has passed, and at which it is.
#[derive(Debug, Drop)]
pub(crate) struct Walk {
    pub path: Path,
    pub passed: u32,
    pub position: u32,
    /// The first position of the path.
    pub start: u32,
}

impl Walk {
    pub fn new() -> Walk
        ensures { IsWalk result }
    {
        Walk {
            path: Path {
                key: 0,
                capacity: 1,
                row: 0,
                first: 0,
                words: 1,
            },
            passed: 0,
            position: 0,
            start: 0,
        }
    }

    /// Begins at the first position of the path of a key.
    pub fn begin(&mut self, layout: &Layout, table: u32, key: u64)
        requires table { table < length layout.now.tables }
        requires key { key < 2 ^ 64 - 1 }
        ensures path { self.new.path ≡ path_of layout.now table key }
        ensures passed { self.new.passed ≡ 0 }
        ensures walk { IsWalk self.new }
    {
        self.path = path_of(layout, table, key);
        self.passed = 0;
        self.start = (key % self.path.capacity as u64) as u32;
        self.position = self.start;
    }

    /// Begins again at the first position.
    #[inline]
    pub fn restart(&mut self)
        requires { IsWalk self.old }
        ensures path { self.new.path ≡ self.old.path }
        ensures passed { self.new.passed ≡ 0 }
        ensures walk { IsWalk self.new }
    {
        self.passed = 0;
        self.position = self.start;
    }

    /// Goes on to the next position; after the table's last one its first follows.
    #[inline]
    pub fn pass(&mut self)
        requires walk { IsWalk self.old }
        requires more { self.old.passed + 1 < self.old.path.capacity }
        ensures path { self.new.path ≡ self.old.path }
        ensures passed { self.new.passed ≡ self.old.passed + 1 }
        ensures walk { IsWalk self.new }
    {
        self.position = self.next_position();
        self.passed += 1;
    }

    #[inline]
    #[tactic(auto, using(crate::proofs::WalkLemmas::on_path_wraps, crate::proofs::WalkLemmas::on_path_next, crate::proofs::WalkLemmas::on_path_less))]
    fn next_position(&self) -> u32
        requires { IsWalk self.now }
        ensures { result ≡ nth_position self.now.path (self.now.passed + 1) }
    {
        if self.position + 1 == self.path.capacity {
            0
        } else {
            self.position + 1
        }
    }

    /// The address of the position's key word.
    #[inline]
    pub fn key_at(&self) -> u64
        requires { IsWalk self.now }
        ensures value { result ≡ path_address self.now.path (nth_key self.now.path self.now.passed) }
        ensures within { result < path_end self.now.path }
    {
        self.path.first + self.position as u64 * self.path.words
    }
}
