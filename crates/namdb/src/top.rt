//! The top call.

ghost use Rattle.std.specs.Prelude.{◌≡◌, ◌≤◌, ℕ, Some, length, map, List, ◌⊎◌, IfSome, IfNone, IfOk, IfErr, codes};
ghost use Rattle.std.specs.Prelude.{string_bytes};
ghost use Rattle.std.specs.Io.KnownBytes.{Appends};
ghost use Rattle.nam_io.specs.Faults.{Rose};
ghost use Rattle.nam_io.specs.Fronts.{AppendsFront};
ghost use Rattle.nam_script.specs.declared.refusal.Kind.{Kind};
ghost use Rattle.nam_script.specs.Limits.{IsScript};
ghost use Rattle.nam_script.specs.Parse.{script_of};
ghost use Rattle.namdb.specs.declared.command.Command.{Command};
ghost use Rattle.namdb.specs.declared.status.Status.{Status};
ghost use Rattle.namdb.specs.Status.{script_line, line_of};
ghost use Rattle.namdb.specs.Ending.{IsAnswerToInput, HasLine, MakesLine, Sends};
ghost use Rattle.namdb.specs.Headline.{AreWords, AreWordsFor, IsReportOn, IsRunText, IsTextFor, IsWholeInput};
ghost use Rattle.namdb.specs.Headline.{IsBadScript, IsAnsweredBy, HasTooMuch, MayBeDone};
ghost use Rattle.namdb.specs.Headline.{HasAtMost, MayRefuse, MayWrite};

use crate::command::Command;
use crate::serial::run_serial;
use crate::status::{Status, kind_word};
use nam_io::{Sink, Source};
use nam_line::Line;
use nam_script::{Kind, Script};
use nam_simulation::simulated;
use std::alloc::{AllocError, Global};
use std::fmt::Write;

/// The most bytes that an input may have.
const LIMIT: usize = 1_048_576;

/// Reads a script from the source, runs it and writes its report to the sink.
///
/// The words are the program's name and a command. On `run` the workers are taken in turn. On `sim` they take turns by
/// the script's schedule, and each verb is asked of its worker's line: worker 1 has the first, and a worker without a
/// line is never refused. A call that is refused writes one line, which names the cause. The
/// text is made whole before its first byte is written.
pub fn namdb<S: Source, K: Sink>(
    alloc: Global,
    words: &[String],
    source: &mut S,
    sink: &mut K,
    lines: Vec<Box<dyn Line + Send>>,
) -> Status
    // Done: the sink took what the command writes and nothing else, for the script that the whole input spells: on
    // `run` the text of a report which is a run of the script, on `sim` that of its simulated run under the lines.
    ensures done { result ≡ Status.Done →
        (command : Command) × AreWordsFor words.now command
        × ((input : List ℕ) × IsWholeInput (S.left source.old) (S.left source.new) input
        × ((text : List ℕ) × IsReportOn command (map (λ line. state line) lines.items) input text
        × Appends (K.taken sink.old) (K.taken sink.new) text)) }

    ensures usage { result ≡ Status.Usage →
        ¬ AreWords words.now
        × (S.left source.new ≡ S.left source.old)
        × Appends (K.taken sink.old) (K.taken sink.new) (codes "error usage\n") }
    ensures usage_exactly { ¬ AreWords words.now →
        ((result ≡ Status.Usage) ⊎ (result ≡ Status.WriteFault)) × (source.new ≡ source.old) }

    ensures bad_script { (line : ℕ) → (kind : Kind) → result ≡ Status.BadScript line kind →
        AreWords words.now
        × ((input : List ℕ) × IsWholeInput (S.left source.old) (S.left source.new) input × IsBadScript input line kind)
        × Appends (K.taken sink.old) (K.taken sink.new) (script_line line kind) }

    // Of a source that tells its content, without a fault of source or sink: Done exactly where the input is a script,
    // and BadScript exactly where it is none, if memory is found.
    ensures exactly { (input : List ℕ) →
        AreWords words.now
        → S.left source.old ≡ Some input
        → length input ≤ 1048576
        → ¬ Rose (S.faults source.old) (S.faults source.new)
        → ¬ Rose (K.faults sink.old) (K.faults sink.new)
        → IsAnsweredBy (script_of input) result }

    ensures read_fault { result ≡ Status.ReadFault →
        AreWords words.now
        × Rose (S.faults source.old) (S.faults source.new)
        × HasAtMost (S.left source.old) (S.left source.new)
        × Appends (K.taken sink.old) (K.taken sink.new) (codes "error read\n") }

    // TooLong comes exactly where more than the limit was got: Done, BadScript, ReadFault and Memory say that at most
    // the limit was.
    ensures too_long { result ≡ Status.TooLong →
        AreWords words.now
        × HasTooMuch (S.left source.old) (S.left source.new)
        × Appends (K.taken sink.old) (K.taken sink.new) (codes "error long\n") }

    // WriteFault stands in the place of another status, and a front of what that one writes went out.
    ensures write_fault { result ≡ Status.WriteFault →
        Rose (K.faults sink.old) (K.faults sink.new)
        × ((status : Status) × ((text : List ℕ)
        × MayWrite words.now (S.left source.old) (S.left source.new) (S.faults source.old) (S.faults source.new)
        (map (λ line. state line) lines.items) status text
        × AppendsFront (K.taken sink.old) (K.taken sink.new) text)) }

    ensures memory { result ≡ Status.Memory →
        AreWords words.now
        × HasAtMost (S.left source.old) (S.left source.new)
        × (sink.new ≡ sink.old) }
{
    match report_of(alloc, words, source, lines) {
        Ok(text) => end_with(sink, Status::Done, text.as_slice()),
        Err(status) => refuse(alloc, sink, status),
    }
}

/// The text of the report on the script that the source has, or the status of the refusal.
fn report_of<S: Source>(
    alloc: Global,
    words: &[String],
    source: &mut S,
    lines: Vec<Box<dyn Line + Send>>,
) -> Result<Vec<u8>, Status>
    ensures report { IfOk result (λ text.
        MayBeDone words.now (S.left source.old) (S.left source.new)
        (map (λ line. state line) lines.items) text.items) }
    ensures refusal { IfErr result (λ status.
        MayRefuse words.now (S.left source.old) (S.left source.new) (S.faults source.old) (S.faults source.new)
        status) }
    ensures usage { ¬ AreWords words.now → (result ≡ Err Status.Usage) × (source.new ≡ source.old) }
{
    let Some(command) = command_of(words) else {
        return Err(Status::Usage);
    };
    let input = nam_io::read_all(alloc, source, LIMIT)?;
    report_on(alloc, command, input.as_slice(), lines)
}

/// The text of the report on the script that an input spells.
fn report_on(
    alloc: Global,
    command: Command,
    input: &[u8],
    lines: Vec<Box<dyn Line + Send>>,
) -> Result<Vec<u8>, Status>
    ensures report { IfOk result (λ text.
        IsReportOn command (map (λ line. state line) lines.items) input.now text.items) }
    ensures refusal { IfErr result (λ status. IsAnswerToInput input.now status) }
{
    let script = nam_script::parse(alloc, input)?;
    Ok(text_for(alloc, command, &script, lines)?)
}

/// What the command writes for a script.
fn text_for(
    alloc: Global,
    command: Command,
    script: &Script,
    lines: Vec<Box<dyn Line + Send>>,
) -> Result<Vec<u8>, AllocError>
    requires { IsScript script.now }
    ensures { IfOk result (λ text.
        IsTextFor command (map (λ line. state line) lines.items) script.now text.items) }
{
    let mut lines = lines;
    match command {
        Command::Run => run_text(alloc, script),
        Command::Sim => simulated(alloc, script, lines.as_mut_slice()),
    }
}

/// The text of the report of the serial run of a script.
fn run_text(alloc: Global, script: &Script) -> Result<Vec<u8>, AllocError>
    requires { IsScript script.now }
    ensures { IfOk result (λ text. IsRunText script.now text.items) }
{
    let report = run_serial(alloc, script)?;
    nam_report::report_text(alloc, script, &report)
}

/// The command of the words, which are the program's name and that command.
fn command_of(words: &[String]) -> Option<Command>
    ensures some { IfSome result (AreWordsFor words.now) }
    ensures none { IfNone result (¬ AreWords words.now) }
{
    if words.len() != 2 {
        return None;
    }
    let word = words[1].as_str();
    if word == "run" {
        Some(Command::Run)
    } else if word == "sim" {
        Some(Command::Sim)
    } else {
        None
    }
}

/// Writes the line of a refusal, and ends with it.
fn refuse<K: Sink>(alloc: Global, sink: &mut K, status: Status) -> Status
    ensures line { HasLine status →
        Sends (K.taken sink.old) (K.taken sink.new) (K.faults sink.old) (K.faults sink.new)
        status (line_of status) result
        ⊎ (MakesLine status × (result ≡ Status.Memory) × (sink.new ≡ sink.old)) }
    ensures memory { status ≡ Status.Memory → (result ≡ Status.Memory) × (sink.new ≡ sink.old) }
{
    match status {
        Status::Usage => end_with(sink, status, b"error usage\n"),
        Status::ReadFault => end_with(sink, status, b"error read\n"),
        Status::TooLong => end_with(sink, status, b"error long\n"),
        Status::BadScript { line, kind } => match script_line(alloc, line, kind) {
            Ok(text) => end_with(sink, status, text.as_bytes()),
            Err(_) => Status::Memory,
        },
        Status::Done | Status::WriteFault | Status::Memory => status,
    }
}

/// The line that names a bad line of a script.
fn script_line(alloc: Global, line: u32, kind: Kind) -> Result<String, AllocError>
    ensures { IfOk result (λ text. string_bytes text ≡ script_line line kind) }
{
    let word = kind_word(kind);
    let mut text = String::new(alloc);
    write!(text, "error script {line} {word}\n")?;
    Ok(text)
}

/// Writes a text, and ends with the status, or with `WriteFault` where the text did not go out whole.
fn end_with<K: Sink>(sink: &mut K, status: Status, text: &[u8]) -> Status
    ensures { Sends (K.taken sink.old) (K.taken sink.new) (K.faults sink.old) (K.faults sink.new)
        status text.now result }
{
    match nam_io::write_all(sink, text) {
        Ok(()) => status,
        Err(_) => Status::WriteFault,
    }
}
