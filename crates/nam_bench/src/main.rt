//! How fast sessions run over plain words.
//!
//! Reads a script from standard input, and lets its workers run one after another on one thread, each through all of its
//! transactions, over the words of a new store. It prints how many verbs they did, and how long they took. What is
//! measured is the sessions alone: their driver, client and log, without a world, a line or a report.
#![tactic(auto)]

mod running;

use nam_io::{StdSink, StdSource, read_all, write_all};
use nam_script::parse;
use running::{Measure, measured};
use std::fmt::Write;
use std::process::ExitCode;

/// The most bytes of a script.
const LIMIT: usize = 1_048_576;

/// Reads the script and measures its run. None where the input is no script, or memory or a stream or the clock fails.
fn call(rt: &HostRuntime) -> Option<Measure> {
    let input = read_all(rt.alloc(), &mut StdSource::new(rt.stdin()), LIMIT).ok()?;
    let script = parse(rt.alloc(), input.as_slice()).ok()?;
    measured(rt, &script)
}

/// Writes what was measured.
fn tell(rt: &HostRuntime, measure: &Measure) -> Option<()> {
    let mut text = String::new(rt.alloc());
    write!(
        text,
        "verbs {} nanoseconds {}\n",
        measure.verbs, measure.nanoseconds
    )
    .ok()?;
    write_all(&mut StdSink::new(rt.stdout()), text.as_bytes()).ok()
}

fn main(rt: HostRuntime) -> ExitCode {
    let told = match call(&rt) {
        Some(measure) => tell(&rt, &measure),
        None => None,
    };
    match told {
        Some(()) => ExitCode::from(0u8),
        None => ExitCode::from(1u8),
    }
}
