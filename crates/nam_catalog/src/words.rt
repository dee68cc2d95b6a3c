//! How many words a shape takes.

ghost use Rattle.std.specs.Prelude.{◌≡◌, ◌≤◌, length, All};
ghost use Rattle.nam_catalog.specs.Words.{slot_words, position_words, table_words, tables_words, intent_words};
ghost use Rattle.nam_catalog.specs.Words.{words_of};
ghost use Rattle.nam_catalog.specs.Fits.{FitsTable};

use crate::bounds::{
    CELL_WORDS, INTENT_WORDS, MOST_BUCKETS, MOST_CELLS, MOST_TABLES, MOST_WORKERS,
};
use crate::form::Form;
use crate::shape::{Shape, Table};

/// The words of a shape whose numbers are within their limits.
pub(crate) fn words(shape: &Shape) -> u64
    requires workers { shape.now.workers ≤ MOST_WORKERS }
    requires count { length shape.now.tables ≤ 8 }
    requires tables { All FitsTable shape.now.tables }
    requires buckets { shape.now.buckets ≤ MOST_BUCKETS }
    requires cells { shape.now.cells ≤ MOST_CELLS }
    ensures { result ≡ words_of shape.now }
{
    let workers = shape.workers as u64;
    let cells = shape.buckets as u64 * shape.cells as u64;
    2 * workers
        + tables_words(shape.tables.as_slice())
        + cells * CELL_WORDS
        + workers * intent_words(shape.form)
}

fn tables_words(tables: &[Table]) -> u64
    requires count { length tables.now ≤ MOST_TABLES }
    requires fit { All FitsTable tables.now }
    ensures value { result ≡ tables_words tables.now }
    ensures bound { result ≤ 5603328 }
{
    let mut words: u64 = 0;
    for table in tables {
        words += table_words(table);
    }
    words
}

fn table_words(table: &Table) -> u64
    requires { FitsTable table.now }
    ensures { result ≡ table_words table.now }
{
    table.capacity as u64 * position_words(table)
}

/// The words of a table's position: a key, a header, a count, the current value, and a slot for each old version.
pub fn position_words(table: &Table) -> u64
    requires { FitsTable table.now }
    ensures { result ≡ position_words table.now.width table.now.ring }
{
    3 + table.width as u64 + table.ring as u64 * slot_words(table.width)
}

/// The words of a slot of this width: a header, an end and a value.
#[inline]
pub fn slot_words(width: u32) -> u64
    ensures { result ≡ slot_words width }
{
    2 + width as u64
}

/// How many words a worker's intent has, which only form Held has.
pub fn intent_words(form: Form) -> u64
    ensures value { result ≡ intent_words form }
    ensures bound { result ≤ INTENT_WORDS }
{
    match form {
        Form::Narrow | Form::Wide => 0,
        Form::Held => INTENT_WORDS,
    }
}
