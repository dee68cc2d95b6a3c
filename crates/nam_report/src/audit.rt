//! The lines of an audit.

ghost use Rattle.std.specs.Prelude.{◌≡◌, ◌++◌, OnOk, codes, string_bytes};
ghost use Rattle.nam_text.specs.Spelling.{mark};
ghost use Rattle.nam_text.specs.Kinds.{behind_spaces};
ghost use Rattle.nam_report.specs.Text.{audit_line, audit_rows_text, audit_text};

use crate::item::push_key;
use nam_catalog::Table;
use nam_text::push_value;
use si_model::AuditRow;
use std::alloc::AllocError;
use std::fmt::Write;

/// Appends the mark of a row that was found locked.
fn push_mark(out: &mut String, locked: bool) -> Result<(), AllocError>
    ensures { OnOk result
        (string_bytes out.new ≡ string_bytes out.old ++ behind_spaces (mark (codes "locked") locked)) }
{
    if locked {
        out.push_str(" locked")?;
    }
    Ok(())
}

fn push_row(out: &mut String, tables: &[Table], row: &AuditRow) -> Result<(), AllocError>
    ensures { OnOk result (string_bytes out.new ≡ string_bytes out.old ++ audit_line tables.now row.now) }
{
    out.push('a')?;
    push_key(out, tables, row.table, row.key)?;
    push_value(out, &row.value)?;
    push_mark(out, row.locked)?;
    out.push('\n')
}

fn push_rows(out: &mut String, tables: &[Table], audit: &[AuditRow]) -> Result<(), AllocError>
    ensures { OnOk result (string_bytes out.new ≡ string_bytes out.old ++ audit_rows_text tables.now audit.now) }
{
    for row in audit {
        push_row(out, tables, row)?;
    }
    Ok(())
}

/// Appends the length of an audit and its rows.
pub fn push_audit(out: &mut String, tables: &[Table], audit: &[AuditRow]) -> Result<(), AllocError>
    ensures { OnOk result (string_bytes out.new ≡ string_bytes out.old ++ audit_text tables.now audit.now) }
{
    writeln!(out, "audit {}", audit.len())?;
    push_rows(out, tables, audit)
}
