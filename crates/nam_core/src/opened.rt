//! The words of a new store.

ghost use Rattle.std.specs.Prelude.{◌≡◌, ◌+◌, ◌≤◌, None, length, All, IfOk, MatchResult};
ghost use Rattle.nam_catalog.specs.Words.{words_of};
ghost use Rattle.nam_protocol.specs.Opening.{opening_words};
ghost use Rattle.nam_core.specs.Opening.{FitsRow, rows_of, first_overfull, overfull, NotOpened};

use crate::blank::blank_words;
use crate::load::load;
use crate::make_error::MakeError;
use nam_catalog::bounds::MOST_TABLES;
use nam_catalog::{Shape, Table};
use nam_layout::Layout;
use si_model::Row;
use std::alloc::Global;

// How many of the rows are the table's.
fn rows_of(table: u32, rows: &[Row]) -> usize
    ensures { result ≡ rows_of table rows.now }
{
    rows.iter().filter(|row| row.table == table).count()
}

// The first table that has more rows than positions.
fn overfull(tables: &[Table], rows: &[Row]) -> Option<u32>
    requires { length tables.now ≤ MOST_TABLES }
    ensures { result ≡ first_overfull 0 tables.now rows.now }
{
    let mut number = 0;
    for table in tables {
        if rows_of(number, rows) > table.capacity as usize {
            return Some(number);
        }
        number += 1;
    }
    None
}

/// The words of a new store of the layout's shape: each row stands, under the loader's stamp, at the first position of
/// its key's path that was free when its turn came. `NoSpace` where a table has more rows than positions, and `Memory`
/// where the words find no room.
pub fn opening(
    alloc: Global,
    shape: &Shape,
    layout: &Layout,
    rows: &[Row],
) -> Result<Vec<u64>, MakeError>
    requires layout { layout.now ≡ shape.now }
    requires rows { All (FitsRow shape.now) rows.now }
    ensures exact { MatchResult result
        (λ words. (overfull shape.now rows.now ≡ None) × (words.items ≡ opening_words shape.now rows.now))
        (λ error. NotOpened shape.now rows.now error) }
    ensures long { IfOk result (λ words. length words.items ≡ words_of shape.now) }
{
    if let Some(table) = overfull(shape.tables.as_slice(), rows) {
        return Err(MakeError::NoSpace { table });
    }
    let mut words = blank_words(alloc, shape, layout)?;
    for row in rows {
        load(layout, row, words.as_mut_slice());
    }
    Ok(words)
}
