//! Old versions in a record's ring of slots.

ghost use Rattle.std.specs.Prelude.{◌≡◌};

use si_model::Value;

/// Where the look at the slot stands that the next version needs.
#[derive(Clone, Copy, Debug, PartialEq, Eq)]
pub enum SlotPoint {
    /// Read the number of the current version.
    CheckCount,
    /// Read the header of that version's slot.
    CheckHead { count: u64 },
}

/// How the look at the slot ended.
#[derive(Clone, Copy, Debug, PartialEq, Eq)]
pub enum SlotEnd {
    /// Its version was moved: the current version, of this number, may be copied there.
    Free { count: u64 },
    /// Its version was not moved yet; the slot bears this header.
    NotMoved { slot: u32, found: u64 },
}

/// Where the copy of the current version into its slot stands.
#[derive(Clone, Copy, Debug, PartialEq, Eq)]
pub enum CopyPoint {
    /// Write the mark in the place of the slot's header.
    CopyMark,
    /// Write the slot's end.
    CopyEnding,
    /// Write a slot word.
    CopyWord { nth: u32 },
    /// Write the slot's header.
    CopyHead,
}

/// Where the search of a ring stands.
#[derive(Debug, Drop)]
pub enum RingPoint {
    /// Read the slot's header.
    SlotHead {
        slot: u32,
    },
    /// Read the slot's end.
    SlotEnding {
        slot: u32,
        header: u64,
    },
    /// Read the slot word after those got.
    SlotWords {
        slot: u32,
        header: u64,
        got: Value,
    },
    /// Read the slot's header again.
    SlotAgain {
        slot: u32,
        header: u64,
        value: Value,
    },
}

/// How a search of old versions ended.
#[derive(Debug, Drop, PartialEq, Eq)]
pub enum SearchEnd {
    /// The version that the snapshot sees; a deletion has no value.
    Found(Option<Value>),
    /// It does not stand here.
    NotThere,
}

impl SearchEnd {
    /// An equal end, made without memory.
    pub fn copy(&self) -> SearchEnd
        ensures { result ≡ self.now }
    {
        match self {
            SearchEnd::Found(None) => SearchEnd::Found(None),
            SearchEnd::Found(Some(value)) => SearchEnd::Found(Some(value.copy())),
            SearchEnd::NotThere => SearchEnd::NotThere,
        }
    }
}
