//! What is left in the words of a store.

ghost use Rattle.std.specs.Prelude.{◌≡◌, ◌<◌, ◌≤◌, ◌++◌, length, take, IfOk, OnOk};
ghost use Rattle.std.specs.Option.{option_to_list};
ghost use Rattle.nam_verbs.specs.Verb.{address_of, found_by};
ghost use Rattle.nam_catalog.specs.Words.{words_of};
ghost use Rattle.nam_layout.specs.Rows.{row_of};
ghost use Rattle.nam_layout.specs.RowLaw.{IsPosition};
ghost use Rattle.nam_calls.specs.Words.{capacity_of};
ghost use Rattle.nam_protocol.specs.Closed.{vector, value_under, audit_row, table_rows, audit_of};
ghost use Rattle.nam_core.specs.Audit.{value_in};

use lists::List;
use nam_catalog::Shape;
use nam_catalog::bounds::MOST_WORKERS;
use nam_header::is_locked;
use nam_layout::Layout;
use nam_reader::{Reader, ReaderEnd};
use nam_verbs::Verb;
use si_model::{AuditRow, Snapshot, Value};
use std::alloc::{AllocError, Global};

// The word that a verb finds which changes nothing.
fn found_by(words: &[u64], verb: Verb) -> u64
    requires { address_of verb < length words.now }
    ensures { result ≡ found_by words.now verb }
{
    match verb {
        Verb::Read { at } | Verb::Exchange { at, .. } => words[at as usize],
        Verb::Write { .. } => 0,
    }
}

// The last vector: the first words, one for each worker.
fn vector(workers: u32, words: &[u64]) -> Snapshot
    requires few { workers ≤ MOST_WORKERS }
    requires there { workers ≤ length words.now }
    ensures { result ≡ take workers words.now }
{
    let mut vector = Snapshot::new();
    for word in &words[..workers as usize] {
        vector.push(*word);
    }
    vector
}

// What the read got.
fn value_of(reader: &Reader) -> Option<Value>
    ensures { result ≡ value_in reader.now.state }
{
    match reader.end() {
        Some(ReaderEnd::Present) => Some(reader.value().copy()),
        _ => None,
    }
}

// What a position holds under the last vector. Nobody changes the words.
fn value_under(
    reader: &mut Reader,
    layout: &Layout,
    seen: &Snapshot,
    words: &[u64],
    table: u32,
    position: u32,
) -> Option<Value>
    requires position { IsPosition layout.now.tables table position }
    requires long { length words.now ≡ words_of layout.now }
    requires seen { seen.now ≡ vector layout.now words.now }
    ensures { result ≡ value_under layout.now words.now table position }
{
    // A layout's total says that the shape is within its limits.
    let _words = layout.total();
    let place = layout.place(table, position);
    let cells = layout.cells(layout.bucket_of(place.row));
    reader.begin(&place, &cells, seen.len() as u32);
    while let Some(verb) = reader.verb() {
        let found = found_by(words, verb);
        reader.take(seen, found);
    }
    value_of(reader)
}

// A position that bears a key, and is present or locked.
fn audit_row(
    reader: &mut Reader,
    layout: &Layout,
    seen: &Snapshot,
    words: &[u64],
    table: u32,
    position: u32,
) -> Option<AuditRow>
    requires position { IsPosition layout.now.tables table position }
    requires long { length words.now ≡ words_of layout.now }
    requires seen { seen.now ≡ vector layout.now words.now }
    ensures { option_to_list result ≡ audit_row layout.now words.now table (row_of layout.now.tables table position)
        (value_under layout.now words.now table position) }
{
    let place = layout.place(table, position);
    let key = words[place.key_at as usize];
    if key == 0 {
        return None;
    }
    let locked = is_locked(layout.form(), words[place.header_at as usize]);
    let value = value_under(reader, layout, seen, words, table, position);
    if value.is_none() && !locked {
        return None;
    }
    Some(AuditRow {
        table,
        key: key - 1,
        value,
        locked,
    })
}

// Appends the row, if there is one.
fn push_some(rows: &mut Vec<AuditRow>, row: Option<AuditRow>) -> Result<(), AllocError>
    ensures { OnOk result (rows.new.items ≡ rows.old.items ++ option_to_list row) }
{
    if let Some(row) = row {
        rows.push(row)?;
    }
    Ok(())
}

// The rows of a table in order of keys. Of positions that bear one key, which are in no world, the last comes first.
fn table_rows(
    alloc: Global,
    reader: &mut Reader,
    layout: &Layout,
    seen: &Snapshot,
    words: &[u64],
    table: u32,
) -> Result<List<AuditRow>, AllocError>
    requires table { table < length layout.now.tables }
    requires long { length words.now ≡ words_of layout.now }
    requires seen { seen.now ≡ vector layout.now words.now }
    ensures { IfOk result (λ rows. rows ≡ table_rows layout.now words.now table 0 (capacity_of layout.now table)) }
{
    let capacity = layout.capacity(table);
    let mut rows = Vec::new(alloc);
    for passed in 0..capacity {
        let position = capacity - 1 - passed;
        let row = audit_row(reader, layout, seen, words, table, position);
        push_some(&mut rows, row)?;
    }
    rows.sort_by_key(|row| row.key)?;
    Ok(List::from_vec(rows))
}

/// The audit of a store's words: of each table, in order of keys, the positions that bear a key and are present under
/// the last vector or locked.
pub fn audit(
    alloc: Global,
    shape: &Shape,
    layout: &Layout,
    words: &[u64],
) -> Result<List<AuditRow>, AllocError>
    requires layout { layout.now ≡ shape.now }
    requires long { length words.now ≡ words_of shape.now }
    ensures { IfOk result (λ rows. rows ≡ audit_of shape.now words.now) }
{
    // A layout's total says that the shape is within its limits.
    let _words = layout.total();
    let seen = vector(shape.workers, words);
    let mut reader = Reader::new();
    let mut rows = List::new(alloc);
    for table in 0..shape.tables.len() as u32 {
        rows.append(table_rows(alloc, &mut reader, layout, &seen, words, table)?)?;
    }
    Ok(rows)
}
