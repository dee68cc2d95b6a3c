//! The evaluation of a transaction on the committed rows.

ghost use Rattle.std.specs.Prelude.{◌≡◌, ◌^◌, ◌<◌, ◌≤◌, length, IfOk};
ghost use Rattle.std.specs.List.{AllByRecursion};
ghost use Rattle.si_model.specs.Committed.{rows_held};
ghost use Rattle.si_model.specs.Evaluation.{evaluation_of, reads_of, OpFits, AreWide};
ghost use Rattle.namdb.specs.Serial.{claims_of};

use si_model::{CommittedRows, Evaluated, Op, eval_on};
use std::alloc::{AllocError, Global};

/// What the operations do on the committed rows. It looks at the rows that the operations name or scan, and at no
/// others.
pub fn evaluate(
    alloc: Global,
    widths: &[u32],
    rows: &CommittedRows,
    ops: &[Op],
) -> Result<Evaluated, AllocError>
    requires fit { AllByRecursion (OpFits widths.now) ops.now }
    requires wide { AreWide widths.now (rows_held rows.now) }
    requires short { length ops.now < 2 ^ 32 }
    requires few { length (reads_of (evaluation_of widths.now (rows_held rows.now) ops.now)) < 2 ^ 32 }
    ensures value { IfOk result (λ e. e ≡ evaluation_of widths.now (rows_held rows.now) ops.now) }
    ensures few_reads { IfOk result (λ e. length (reads_of e) < 2 ^ 32) }
    ensures few_keys { IfOk result (λ e. claims_of e ≤ length ops.now) }
{
    eval_on(alloc, widths, ops, rows)
}
