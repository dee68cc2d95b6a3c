//! Tags of overflow cells.

ghost use Rattle.std.specs.Prelude.{◌≡◌};
ghost use Rattle.nam_header.specs.Tag.{is_free, is_full, written, full, has_next, freed};

/// How many states a tag can have in a generation.
const STATES: u64 = 4;

const WRITTEN: u64 = 1;

const FULL: u64 = 2;

/// The generation after which no cell is set free again.
const LAST_GENERATION: u64 = 4_611_686_018_427_387_903;

/// A cell's tag as its word: a generation, and whether the cell is free, being written or full.
#[derive(Clone, Copy, Debug, PartialEq, Eq)]
pub struct Tag(pub u64);

impl Tag {
    /// Whether the cell is free.
    pub fn is_free(self) -> bool
        ensures { result ≡ is_free self.0 }
    {
        self.0 % STATES == 0
    }

    /// Whether the cell has a version.
    pub fn is_full(self) -> bool
        ensures { result ≡ is_full self.0 }
    {
        self.0 % STATES == FULL
    }

    /// The tag of the same generation that says that the cell is being written.
    pub fn written(self) -> Tag
        ensures { result.0 ≡ written self.0 }
    {
        Tag(self.0 / STATES * STATES + WRITTEN)
    }

    /// The tag of the same generation that says that the cell has a version.
    pub fn full(self) -> Tag
        ensures { result.0 ≡ full self.0 }
    {
        Tag(self.0 / STATES * STATES + FULL)
    }

    /// Whether there is a next generation.
    pub fn has_next(self) -> bool
        ensures { result ≡ has_next self.0 }
    {
        self.0 / STATES < LAST_GENERATION
    }

    /// The free tag of the next generation. A tag of the last generation stays as it is.
    pub fn freed(self) -> Tag
        ensures { result.0 ≡ freed self.0 }
    {
        if self.has_next() {
            Tag((self.0 / STATES + 1) * STATES)
        } else {
            self
        }
    }
}
