//! The lines of an event.

ghost use Rattle.std.specs.Prelude.{◌≡◌, ◌++◌, OnOk, string_bytes};
ghost use Rattle.nam_report.specs.Spelling.{move_end_word, collect_end_word, finish_word};
ghost use Rattle.nam_report.specs.Text.{lock_text, move_line, collect_line, tidy_cut_line, event_line, event_text};

use crate::attempt::push_attempt;
use crate::item::{push_items, push_key, push_lock, push_locks};
use nam_catalog::Table;
use nam_text::push_words;
use si_model::{Event, Finish, Item, Lock, MoveEnd};
use std::alloc::AllocError;
use std::fmt::Write;

fn move_end_word(how: MoveEnd) -> &'static str
    ensures { result.now ≡ move_end_word how }
{
    match how {
        MoveEnd::Done => "done",
        MoveEnd::Back => "back",
        MoveEnd::Cut => "cut",
    }
}

fn finish_word(how: Finish) -> &'static str
    ensures { result.now ≡ finish_word how }
{
    match how {
        Finish::Clean => "clean",
        Finish::Undone => "undone",
        Finish::RolledOn => "on",
    }
}

fn collect_end_word(cut: bool) -> &'static str
    ensures { result.now ≡ collect_end_word cut }
{
    if cut { "cut" } else { "done" }
}

/// Appends the line of a move of the version `moved`.
fn push_move(
    out: &mut String,
    tables: &[Table],
    bucket: u32,
    moved: Lock,
    how: MoveEnd,
) -> Result<(), AllocError>
    ensures { OnOk result (string_bytes out.new ≡ string_bytes out.old ++ move_line tables.now bucket moved how) }
{
    write!(out, "move {bucket}")?;
    push_lock(out, tables, moved)?;
    writeln!(out, " {}", move_end_word(how))
}

/// Appends the line of a collect that got a snapshot.
fn push_collect(
    out: &mut String,
    bucket: u32,
    prefix: u64,
    entries: &[u64],
    cut: bool,
) -> Result<(), AllocError>
    ensures { OnOk result (string_bytes out.new ≡ string_bytes out.old ++ collect_line bucket prefix entries.now cut) }
{
    write!(out, "collect {bucket} prefix {prefix}")?;
    push_words(out, entries)?;
    writeln!(out, " {}", collect_end_word(cut))
}

fn push_tidy_cut(out: &mut String, tables: &[Table], table: u32, key: u64) -> Result<(), AllocError>
    ensures { OnOk result (string_bytes out.new ≡ string_bytes out.old ++ tidy_cut_line tables.now table key) }
{
    out.push_str("tidy")?;
    push_key(out, tables, table, key)?;
    out.push_str(" cut\n")
}

/// Appends an event's own line.
#[tactic(auto, unfolding(crate::specs::Spelling::spelt_event))]
fn push_line(out: &mut String, tables: &[Table], event: &Event) -> Result<(), AllocError>
    ensures { OnOk result (string_bytes out.new ≡ string_bytes out.old ++ event_line tables.now event.now) }
{
    match event {
        Event::Tried(attempt) => push_attempt(out, tables, attempt),
        Event::NoRoom { bucket } => writeln!(out, "noroom {bucket}"),
        Event::Moved {
            bucket,
            table,
            key,
            stamp,
            how,
        } => {
            let moved = Lock {
                table: *table,
                key: *key,
                stamp: *stamp,
            };
            push_move(out, tables, *bucket, moved, *how)
        }
        Event::Collected {
            bucket,
            prefix,
            entries,
            cut,
        } => push_collect(out, *bucket, *prefix, entries.as_slice(), *cut),
        Event::CollectAgain {
            bucket,
            worker,
            first,
            second,
        } => writeln!(out, "collect {bucket} again {worker} {first} {second}"),
        Event::CollectCut { bucket } => writeln!(out, "collect {bucket} cut"),
        Event::TidyCut { table, key } => push_tidy_cut(out, tables, *table, *key),
        Event::TailCut => out.push_str("tail cut\n"),
        Event::Finished { how } => writeln!(out, "medic {}", finish_word(*how)),
    }
}

/// Appends the line of an event, and those of the reads and locks that it owns.
pub fn push_event(
    out: &mut String,
    tables: &[Table],
    event: &Event,
    reads: &[Item],
    locks: &[Lock],
) -> Result<(), AllocError>
    ensures { OnOk result
        (string_bytes out.new ≡ string_bytes out.old ++ event_text tables.now event.now reads.now locks.now) }
{
    push_line(out, tables, event)?;
    push_items(out, tables, "r", reads)?;
    push_locks(out, tables, locks)
}
