//! The logs and the audit of a run fit its script.

ghost use Rattle.nam_simulated.specs.LogLaw.{SessionLogLaw};
ghost use Rattle.nam_simulated.specs.AuditLaw.{AuditLaw};
ghost use Rattle.nam_simulated.specs.RunLaw.{RunLaw, WorldLaw};
ghost use Rattle.nam_simulated.specs.ReportLaw.{OneReportLaw, ReportFitsLaw, SimulatedFitsLaw};

use nam_report::arranged_law;

/// Each log of a session that occurs fits its shape, at each moment and however the session is closed.
///
/// Its events name tables of the shape, and a collection has an entry for each worker. Each read, lock and write is of
/// a table, and each value has the table's width. The events own all reads, locks, writes and snapshots that the log
/// lists, and no more.
pub fn logs_fit()
    ensures { SessionLogLaw }
{}

/// The audit of any words fits their shape: each row is of a table, and its value has the table's width.
pub fn audits_fit()
    ensures { AuditLaw }
{}

/// What is left of each world of a scenario that fits is of its shape, whatever turns its workers have had: a log for
/// each worker, each of which fits, and an audit that fits. So `arrange` of `nam_report` may take the logs.
pub fn worlds_fit()
    ensures { WorldLaw }
{}

/// The same of each simulated run, after its schedule and any number of rounds, whatever the lines of its workers do.
pub fn runs_fit()
    ensures { RunLaw }
{}

/// A report on what is left of a script's world fits the script, so that `report_text` of `nam_report` spells it: its
/// history is any order of the entries of the commits that the logs publish, and its numbers fit their fields, which
/// `numbers_fit` of `nam_report` tells of any report.
///
/// So does each report of a simulated run, whose history is the arranged one.
pub fn reports_fit()
    ensures left { ReportFitsLaw }
    ensures simulated { SimulatedFitsLaw }
{
    arranged_law();
}

/// Each script within the limits has a report of a simulated run under any lines of its workers, and no other.
pub fn one_report()
    ensures { OneReportLaw }
{}
