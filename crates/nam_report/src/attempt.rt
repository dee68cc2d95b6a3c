//! The line of an attempt.

ghost use Rattle.std.specs.Prelude.{◌≡◌, ◌++◌, OnOk, string_bytes};
ghost use Rattle.std.specs.Fmt.{decimal};
ghost use Rattle.nam_text.specs.Spelling.{dash_text};
ghost use Rattle.nam_report.specs.Text.{lock_text, outcome_text, attempt_line};

use crate::item::push_lock;
use nam_catalog::{Table, name_at};
use si_model::{Attempt, Lock, Outcome};
use std::alloc::AllocError;
use std::fmt::Write;

/// Appends the length of the prefix that was seen, or a dash where there was no snapshot.
fn push_prefix(out: &mut String, prefix: Option<u64>) -> Result<(), AllocError>
    ensures { OnOk result (string_bytes out.new ≡ string_bytes out.old ++ dash_text decimal prefix) }
{
    match prefix {
        Some(length) => write!(out, "{length}"),
        None => out.push('-'),
    }
}

/// Appends how an attempt ended.
#[tactic(auto, unfolding(crate::specs::Spelling::spelt_outcome))]
fn push_outcome(out: &mut String, tables: &[Table], outcome: Outcome) -> Result<(), AllocError>
    ensures { OnOk result (string_bytes out.new ≡ string_bytes out.old ++ outcome_text tables.now outcome) }
{
    match outcome {
        Outcome::Commit { number } => write!(out, "commit {number}"),
        Outcome::ReadOnly => out.push_str("read"),
        Outcome::Declined { op } => write!(out, "declined {op}"),
        Outcome::NoSpace { table } => write!(out, "nospace {}", name_at(tables, table)),
        Outcome::Spent => out.push_str("spent"),
        Outcome::Again {
            worker,
            first,
            second,
        } => write!(out, "again {worker} {first} {second}"),
        Outcome::Locked(lock) => push_refusal(out, tables, "locked", lock),
        Outcome::Newer(lock) => push_refusal(out, tables, "newer", lock),
        Outcome::TooOld {
            worker,
            entry,
            horizon,
        } => write!(out, "old {worker} {entry} {horizon}"),
        Outcome::Full(lock) => push_refusal(out, tables, "full", lock),
        Outcome::Cut => out.push_str("cut"),
        Outcome::Left => out.push_str("left"),
    }
}

/// Appends a word and the record that it is said of.
fn push_refusal(
    out: &mut String,
    tables: &[Table],
    word: &str,
    lock: Lock,
) -> Result<(), AllocError>
    ensures { OnOk result (string_bytes out.new ≡ string_bytes out.old ++ (word.now ++ lock_text tables.now lock)) }
{
    out.push_str(word)?;
    push_lock(out, tables, lock)
}

/// Appends the line of an attempt, without those of its reads and locks.
pub fn push_attempt(out: &mut String, tables: &[Table], attempt: &Attempt) -> Result<(), AllocError>
    ensures { OnOk result (string_bytes out.new ≡ string_bytes out.old ++ attempt_line tables.now attempt.now) }
{
    write!(out, "t {} try {} prefix ", attempt.txn, attempt.nth)?;
    push_prefix(out, attempt.prefix)?;
    out.push(' ')?;
    push_outcome(out, tables, attempt.outcome)?;
    out.push('\n')
}
