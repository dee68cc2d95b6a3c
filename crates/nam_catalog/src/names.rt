//! Tables by their names.

ghost use Rattle.std.specs.Prelude.{◌≡◌, ◌<◌, [], length, IfSome};
ghost use Rattle.nam_catalog.specs.Tables.{first_named};
ghost use Rattle.nam_catalog.specs.Limits.{first_twice_named};

use crate::shape::{Shape, Table};

/// The number of the first table that bears the name.
pub fn table_named(shape: &Shape, name: &str) -> Option<u32>
    ensures first { result ≡ first_named name.now shape.now.tables }
    ensures within { IfSome result (λ table. table < length shape.now.tables) }
{
    let table = first_named(shape.tables.as_slice(), name)?;
    Some(table as u32)
}

fn first_named(tables: &[Table], name: &str) -> Option<usize>
    ensures first { result ≡ first_named name.now tables.now }
    ensures within { IfSome result (λ table. table < length tables.now) }
{
    tables.iter().position(|table| table.name.as_str() == name)
}

/// The first table that bears the name of an earlier one.
pub(crate) fn first_twice_named(tables: &[Table]) -> Option<usize>
    ensures first { result ≡ first_twice_named [] 0 tables.now }
    ensures within { IfSome result (λ table. table < length tables.now) }
{
    for place in 0..tables.len() {
        let name = tables[place].name.as_str();
        if first_named(&tables[..place], name).is_some() {
            return Some(place);
        }
    }
    None
}
