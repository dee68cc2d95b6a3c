//! The text of a report.

ghost use Rattle.std.specs.Prelude.{◌≡◌, IfOk};
ghost use Rattle.nam_report.specs.Text.{report_text};
ghost use Rattle.nam_report.specs.Fits.{FitsScript};

use crate::audit::push_audit;
use crate::history::push_history;
use crate::log::push_logs;
use nam_script::Script;
use si_model::Report;
use std::alloc::{AllocError, Global};

/// The text of a report on a run of the script: the history with each entry's writes, each worker's events with the
/// reads and locks of its attempts, and the audit. Each line ends with a newline, its fields are parted by one space,
/// numbers are decimal, tables go by their names, and what is absent is a dash.
///
/// # Errors
///
/// Only where memory is not found.
pub fn report_text(alloc: Global, script: &Script, report: &Report) -> Result<Vec<u8>, AllocError>
    requires { FitsScript script.now report.now }
    ensures { IfOk result (λ text. text.items ≡ report_text script.now.shape.tables report.now) }
{
    let tables = script.shape.tables.as_slice();
    let mut out = String::from_str(alloc, "report 1\n")?;
    push_history(&mut out, tables, report.history.as_slice())?;
    push_logs(&mut out, tables, report.logs.as_slice())?;
    push_audit(&mut out, tables, report.audit.as_slice())?;
    out.push_str("end\n")?;
    Ok(out.into_bytes())
}
