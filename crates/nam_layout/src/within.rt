//! Fields within positions, cells and intents.

ghost use Rattle.std.specs.Prelude.{◌≡◌, ◌≤◌, ◌<◌, ◌^◌, ◌*◌};
ghost use Rattle.nam_layout.specs.FieldAt.{field_in_slot, field_in_position, field_in_cell, field_in_cells};
ghost use Rattle.nam_layout.specs.FieldAt.{field_in_intents};

use crate::field::Field;
use nam_catalog::bounds::{CELL_WORDS, MOST_WIDTH};
use nam_catalog::slot_words;

/// A word of a position, counted from its first.
pub fn field_in_position(width: u32, row: u32, rest: u64) -> Field
    requires width { width ≤ MOST_WIDTH }
    requires rest { rest < 2 ^ 32 }
    ensures { result ≡ field_in_position width row rest }
{
    let slots = 3 + width as u64;
    match rest {
        0 => Field::Key { row },
        1 => Field::Header { row },
        2 => Field::Count { row },
        rest if rest < slots => Field::Word {
            row,
            nth: (rest - 3) as u32,
        },
        rest => {
            let words = slot_words(width);
            let slot = (rest - slots) / words;
            field_in_slot(row, slot as u32, (rest - slots) % words)
        }
    }
}

fn field_in_slot(row: u32, slot: u32, rest: u64) -> Field
    requires { rest < 2 ^ 32 }
    ensures { result ≡ field_in_slot row slot rest }
{
    match rest {
        0 => Field::SlotHeader { row, slot },
        1 => Field::SlotEnd { row, slot },
        rest => Field::SlotWord {
            row,
            slot,
            nth: (rest - 2) as u32,
        },
    }
}

/// A word of the cells, counted from their first, where each bucket has so many.
pub fn field_in_cells(cells: u32, offset: u64) -> Field
    requires cells { 1 ≤ cells }
    requires offset { offset < 2 ^ 32 }
    ensures { result ≡ field_in_cells cells offset }
{
    let nth = offset / CELL_WORDS;
    let bucket = nth / cells as u64;
    let cell = nth % cells as u64;
    field_in_cell(bucket as u32, cell as u32, offset % CELL_WORDS)
}

fn field_in_cell(bucket: u32, cell: u32, rest: u64) -> Field
    requires { rest < 2 ^ 32 }
    ensures { result ≡ field_in_cell bucket cell rest }
{
    match rest {
        0 => Field::Tag { bucket, cell },
        1 => Field::Owner { bucket, cell },
        2 => Field::Begin { bucket, cell },
        3 => Field::End { bucket, cell },
        rest => Field::CellWord {
            bucket,
            cell,
            nth: (rest - 4) as u32,
        },
    }
}

/// A word of the intents, counted from their first, where each worker has so many.
pub fn field_in_intents(words: u64, offset: u64) -> Field
    requires words { 1 ≤ words }
    requires offset { offset < 2 ^ 31 }
    ensures { result ≡ field_in_intents words offset }
{
    Field::Intent {
        worker: (offset / words) as u32 + 1,
        nth: (offset % words) as u32,
    }
}
