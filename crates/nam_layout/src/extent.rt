//! Where the tables stand.

ghost use Rattle.std.specs.Prelude.{◌≡◌, ◌+◌, ◌*◌, ◌≤◌, ◌^◌, ◌<◌, length, All};
ghost use Rattle.nam_catalog.specs.Words.{tables_words};
ghost use Rattle.nam_catalog.specs.Fits.{FitsTable};
ghost use Rattle.nam_layout.specs.Extent.{extents_of, IsIn, field_in_extents, place_in, position_in};

use crate::field::{Field, Place};
use crate::within::field_in_position;
use lists::ShortList;
use nam_catalog::bounds::{MOST_TABLES, MOST_WORDS};
use nam_catalog::{Form, Table, position_words};

/// Where a table stands: its first row, the address of its first position, and the words of each of its positions.
#[derive(Clone, Copy, Debug, Default, PartialEq, Eq)]
pub struct Extent {
    pub row: u32,
    pub at: u64,
    pub words: u64,
    pub width: u32,
    pub capacity: u32,
    pub ring: u32,
}

/// Where tables stand, and the address after them.
#[derive(Debug, Drop)]
pub struct Extents {
    pub extents: ShortList<Extent, MOST_TABLES>,
    pub after: u64,
}

/// Where the tables stand that begin at an address.
pub fn lay_out(tables: &[Table], begin: u64) -> Extents
    requires count { length tables.now ≤ MOST_TABLES }
    requires tables { All FitsTable tables.now }
    requires words { begin + tables_words tables.now ≤ MOST_WORDS }
    ensures extents { result.extents ≡ extents_of begin 0 tables.now }
    ensures after { result.after ≡ begin + tables_words tables.now }
{
    let mut extents = ShortList::new();
    let mut row: u32 = 0;
    let mut at = begin;
    for table in tables {
        let words = position_words(table);
        extents.push(Extent {
            row,
            at,
            words,
            width: table.width,
            capacity: table.capacity,
            ring: table.ring,
        });
        row += table.capacity;
        at += table.capacity as u64 * words;
    }
    Extents { extents, after: at }
}

/// The place of a table's position.
pub fn place_in(extent: &Extent, position: u32, form: Form) -> Place
    requires row { extent.now.row + position < 2 ^ 32 }
    requires address { extent.now.at + position * extent.now.words + 3 + extent.now.width < 2 ^ 32 }
    ensures { result ≡ place_in extent.now position form }
{
    let key_at = extent.at + position as u64 * extent.words;
    Place {
        row: extent.row + position,
        key_at,
        header_at: key_at + 1,
        count_at: key_at + 2,
        words_at: key_at + 3,
        ring_at: key_at + 3 + extent.width as u64,
        width: extent.width,
        ring: extent.ring,
        form,
    }
}

/// The field at an address within one of the extents.
pub fn field_in(extents: &[Extent], address: u64) -> Field
    requires { IsIn address extents.now }
    ensures { result ≡ field_in_extents extents.now address }
{
    for extent in extents {
        let words = extent.capacity as u64 * extent.words;
        if address < extent.at + words {
            let offset = address - extent.at;
            let row = extent.row + (offset / extent.words) as u32;
            return field_in_position(extent.width, row, offset % extent.words);
        }
    }
    unreachable!()
}

/// The extent that has a row, and the row's position there, and none where no extent has it.
pub fn position_in(extents: &[Extent], row: u64) -> Option<(u32, u32)>
    requires { length extents.now ≤ MOST_TABLES }
    ensures { result ≡ position_in 0 extents.now row }
{
    let mut table: u32 = 0;
    let mut position = row;
    for extent in extents {
        if position < extent.capacity as u64 {
            return Some((table, position as u32));
        }
        table += 1;
        position -= extent.capacity as u64;
    }
    None
}
