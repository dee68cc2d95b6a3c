//! The lines of items and locks.

ghost use Rattle.std.specs.Prelude.{◌≡◌, ◌++◌, OnOk, string_bytes};
ghost use Rattle.nam_report.specs.Text.{key_text, lock_text, item_line, items_text, lock_line, locks_text};

use nam_catalog::{Table, name_at};
use nam_text::push_value;
use si_model::{Item, Lock};
use std::alloc::AllocError;
use std::fmt::Write;

/// Appends the name of a table and a key of it, each behind a space.
pub fn push_key(out: &mut String, tables: &[Table], table: u32, key: u64) -> Result<(), AllocError>
    ensures { OnOk result (string_bytes out.new ≡ string_bytes out.old ++ key_text tables.now table key) }
{
    write!(out, " {} {key}", name_at(tables, table))
}

/// Appends a record and its stamp, all behind spaces.
pub fn push_lock(out: &mut String, tables: &[Table], lock: Lock) -> Result<(), AllocError>
    ensures { OnOk result (string_bytes out.new ≡ string_bytes out.old ++ lock_text tables.now lock) }
{
    push_key(out, tables, lock.table, lock.key)?;
    write!(out, " {} {}", lock.stamp.thread, lock.stamp.number)
}

/// Appends the line of an item, behind the letter of its kind.
fn push_item(
    out: &mut String,
    tables: &[Table],
    letter: &str,
    item: &Item,
) -> Result<(), AllocError>
    ensures { OnOk result (string_bytes out.new ≡ string_bytes out.old ++ item_line tables.now letter.now item.now) }
{
    out.push_str(letter)?;
    push_key(out, tables, item.table, item.key)?;
    push_value(out, &item.value)?;
    out.push('\n')
}

/// Appends a line for each item.
pub fn push_items(
    out: &mut String,
    tables: &[Table],
    letter: &str,
    items: &[Item],
) -> Result<(), AllocError>
    ensures { OnOk result (string_bytes out.new ≡ string_bytes out.old ++ items_text tables.now letter.now items.now) }
{
    for item in items {
        push_item(out, tables, letter, item)?;
    }
    Ok(())
}

fn push_lock_line(out: &mut String, tables: &[Table], lock: Lock) -> Result<(), AllocError>
    ensures { OnOk result (string_bytes out.new ≡ string_bytes out.old ++ lock_line tables.now lock) }
{
    out.push('l')?;
    push_lock(out, tables, lock)?;
    out.push('\n')
}

/// Appends a line for each lock.
pub fn push_locks(out: &mut String, tables: &[Table], locks: &[Lock]) -> Result<(), AllocError>
    ensures { OnOk result (string_bytes out.new ≡ string_bytes out.old ++ locks_text tables.now locks.now) }
{
    for lock in locks {
        push_lock_line(out, tables, *lock)?;
    }
    Ok(())
}
