//! Tables and shapes.

ghost use Rattle.std.specs.Prelude.{◌≡◌};
ghost use Rattle.nam_catalog.specs.Tables.{name_of};

use crate::bounds::MOST_TABLES;
use crate::form::Form;
use crate::name::TableName;
use lists::ShortList;

/// A table. A row has `width` words; `capacity` keys have a position, and each position keeps `ring` old versions.
#[derive(Debug, Default, Drop)]
pub struct Table {
    pub name: TableName,
    pub width: u32,
    pub capacity: u32,
    pub ring: u32,
}

/// What a store is made of. Each of its `buckets` has as many overflow `cells`, and commit numbers follow `start`.
#[derive(Debug, Drop)]
pub struct Shape {
    pub form: Form,
    pub workers: u32,
    pub tables: ShortList<Table, MOST_TABLES>,
    pub buckets: u32,
    pub cells: u32,
    pub start: u64,
}

/// The name of a table, and an empty text where there is no such table.
pub fn name_at(tables: &[Table], table: u32) -> &str
    ensures { result.now ≡ name_of tables.now table }
{
    match tables.get(table as usize) {
        Some(table) => table.name.as_str(),
        None => "",
    }
}
