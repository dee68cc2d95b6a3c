//! Fields of a store, and where those of a position and of a bucket stand.

use nam_catalog::Form;

/// What a word of a store is. Workers are counted from 1, all else from 0; `row` counts the positions of all tables,
/// table by table.
#[derive(Clone, Copy, Debug, PartialEq, Eq)]
pub enum Field {
    /// A worker's entry of the vector of published commit numbers.
    Entry { worker: u32 },
    /// A worker's entry of the horizon.
    Horizon { worker: u32 },
    /// A position's key.
    Key { row: u32 },
    /// The header of its current version.
    Header { row: u32 },
    /// The number of its current version.
    Count { row: u32 },
    /// A data word of its current version.
    Word { row: u32, nth: u32 },
    /// The header of an old version.
    SlotHeader { row: u32, slot: u32 },
    /// The end of an old version.
    SlotEnd { row: u32, slot: u32 },
    /// A data word of an old version.
    SlotWord { row: u32, slot: u32, nth: u32 },
    /// The state of an overflow cell.
    Tag { bucket: u32, cell: u32 },
    /// The row of the version in a cell.
    Owner { bucket: u32, cell: u32 },
    /// The header of the version in a cell.
    Begin { bucket: u32, cell: u32 },
    /// The end of the version in a cell.
    End { bucket: u32, cell: u32 },
    /// A data word of the version in a cell.
    CellWord { bucket: u32, cell: u32, nth: u32 },
    /// A word of a worker's intent, in the form that has intents.
    Intent { worker: u32, nth: u32 },
}

/// A position: the addresses of its words, and how many there are. From `words_at` on stand `width` data words, and
/// from `ring_at` on `ring` slots of a header, an end and `width` words each.
#[derive(Clone, Copy, Debug, PartialEq, Eq)]
pub struct Place {
    pub row: u32,
    pub key_at: u64,
    pub header_at: u64,
    pub count_at: u64,
    pub words_at: u64,
    pub ring_at: u64,
    pub width: u32,
    pub ring: u32,
    pub form: Form,
}

impl Default for Place {
    ghost use Rattle.std.specs.Prelude.{◌≡◌};
    ghost use Rattle.nam_layout.specs.Place.{no_place};

    ghost is_default = { λ place. place ≡ no_place };

    /// No position of a store. Lists of places need one to begin with.
    fn default() -> Place {
        Place {
            row: 0,
            key_at: 0,
            header_at: 0,
            count_at: 0,
            words_at: 0,
            ring_at: 0,
            width: 0,
            ring: 0,
            form: Form::Narrow,
        }
    }
}

/// The cells of a bucket, of `CELL_WORDS` words each from the address `first` on.
#[derive(Clone, Copy, Debug, PartialEq, Eq)]
pub struct Cells {
    pub bucket: u32,
    pub first: u64,
    pub cells: u32,
    pub form: Form,
}
