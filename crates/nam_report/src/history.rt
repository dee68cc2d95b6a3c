//! The lines of a history.

ghost use Rattle.std.specs.Prelude.{◌≡◌, ◌++◌, OnOk, string_bytes};
ghost use Rattle.nam_report.specs.Text.{commit_line, entry_text, entries_text, history_text};

use crate::item::push_items;
use nam_catalog::Table;
use si_model::CommitLine;
use std::alloc::AllocError;
use std::fmt::Write;

/// Appends the first line of an entry.
fn push_commit(out: &mut String, place: usize, entry: &CommitLine) -> Result<(), AllocError>
    ensures { OnOk result (string_bytes out.new ≡ string_bytes out.old ++ commit_line place entry.now) }
{
    write!(
        out,
        "c {place} worker {} number {}",
        entry.worker, entry.number
    )?;
    writeln!(out, " prefix {} txn {}", entry.prefix, entry.txn)
}

/// Appends an entry and its write set.
fn push_entry(
    out: &mut String,
    tables: &[Table],
    place: usize,
    entry: &CommitLine,
) -> Result<(), AllocError>
    ensures { OnOk result (string_bytes out.new ≡ string_bytes out.old ++ entry_text tables.now place entry.now) }
{
    push_commit(out, place, entry)?;
    push_items(out, tables, "w", entry.writes.as_slice())
}

/// Appends the entries, counted from 1.
fn push_entries(
    out: &mut String,
    tables: &[Table],
    history: &[CommitLine],
) -> Result<(), AllocError>
    ensures { OnOk result (string_bytes out.new ≡ string_bytes out.old ++ entries_text tables.now 1 history.now) }
{
    for (place, entry) in history.iter().enumerate() {
        push_entry(out, tables, place + 1, entry)?;
    }
    Ok(())
}

/// Appends the length of a history and its entries.
pub fn push_history(
    out: &mut String,
    tables: &[Table],
    history: &[CommitLine],
) -> Result<(), AllocError>
    ensures { OnOk result (string_bytes out.new ≡ string_bytes out.old ++ history_text tables.now history.now) }
{
    writeln!(out, "history {}", history.len())?;
    push_entries(out, tables, history)
}
