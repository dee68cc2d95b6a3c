//! Lists of a fixed capacity.

ghost use Rattle.std.specs.Prelude.{◌≡◌, ◌<◌, ◌≤◌, [], ◌∷◌, ◌++◌, length, slice_index_or, slice_set, IsTrue, ◌↔◌};

use arrayvec::ArrayVec;
use std::marker::Model;

/// A list of at most `N` elements, which takes no memory.
#[derive(Debug, Drop, PartialEq, Eq)]
pub struct ShortList<T, const N: usize> {
    buffer: ArrayVec<T, N>,
}

impl<T, const N: usize> Model for ShortList<T, N> {
    ghost use Rattle.std.specs.Prelude.{List};

    ghost Value = { List T };

    ghost view = { λ a. a.buffer.items };

    ghost inverse = { λ xs. record { buffer = record { items = xs } } };
}

impl<T: Default, const N: usize> ShortList<T, N> {
    pub fn new() -> Self
        ensures { result ≡ [] }
    {
        ShortList {
            buffer: ArrayVec::new(),
        }
    }
}

impl<T, const N: usize> ShortList<T, N> {
    pub fn len(&self) -> usize
        ensures value { result ≡ length self.now }
        ensures fits { result ≤ N }
    {
        self.buffer.len()
    }

    pub fn is_empty(&self) -> bool
        ensures { IsTrue result ↔ (self.now ≡ []) }
    {
        self.buffer.as_slice().is_empty()
    }

    pub fn as_slice(&self) -> &[T]
        ensures value { result.now ≡ self.now }
        ensures fits { length result.now ≤ N }
    {
        self.buffer.as_slice()
    }

    /// The element at a place, counted from 0.
    pub fn at(&self, place: usize) -> &T
        requires { place < length self.now }
        ensures { result.now ≡ slice_index_or self.now place result.now }
    {
        &self.buffer.as_slice()[place]
    }
}

impl<T: Default + Drop, const N: usize> ShortList<T, N> {
    /// Makes the list empty. Only the places that were used are written.
    pub fn clear(&mut self)
        ensures { self.new ≡ [] }
    {
        self.buffer.clear();
    }
}

impl<T: Drop, const N: usize> ShortList<T, N> {
    /// Appends an element, for which there is room.
    pub fn push(&mut self, item: T)
        requires { length self.old < N }
        ensures { self.new ≡ self.old ++ item ∷ [] }
    {
        self.buffer.push(item);
    }

    /// Puts an element in the place of another.
    pub fn set(&mut self, place: usize, item: T)
        requires { place < length self.old }
        ensures { self.new ≡ slice_set self.old place item }
    {
        self.buffer.as_mut_slice()[place] = item;
    }
}

impl<T: Copy + Default, const N: usize> ShortList<T, N> {
    /// An equal list, made without memory.
    pub fn copy(&self) -> Self
        ensures { result ≡ self.now }
    {
        let mut buffer = ArrayVec::new();
        for item in self.buffer.as_slice() {
            buffer.push(*item);
        }
        ShortList { buffer }
    }
}
