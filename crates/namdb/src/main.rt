//! The program `namdb`: it reads a script of transactions, runs it on a store with snapshot isolation, and writes a
//! report.
//!
//! `namdb` is the top call, over any source, any sink and any lines. Where it ends with `Done`, the sink took one text
//! and nothing else, for the script that the whole input spells: on `run` that of a report which is a run of the
//! snapshot isolation machine, on `sim` that of the report of the script's simulated run. Each other status has its cause, its line and its exit code. `main` makes the call over the standard
//! streams.
#![tactic(auto)]

ghost use Rattle.std.specs.Prelude.{◌≡◌, ◌≢◌, [], IfErr, IsErr, IsOkAnd};
ghost use Rattle.std.specs.IoError.{error_kind};
ghost use Rattle.std.specs.declared.io.ErrorKind.TheVariants.{OutOfMemory};

mod attempt;
mod command;
mod evaluate;
mod serial;
mod stamps;
mod status;
mod store;
#[cfg(test)]
mod tests;
mod top;

use nam_catalog::bounds::MOST_WORKERS;
use nam_io::{StdSink, StdSource};
use nam_line::{Line, UpLine};
use status::Status;
use std::alloc::{AllocError, Global};
use std::env::Args;
use std::{env, io};
use top::namdb;

/// The words of the call, of what the system gives: none where it gives none.
fn words(alloc: Global, given: io::Result<Args>) -> Result<Vec<String>, AllocError>
    ensures none { IfErr given (λ error.
        error_kind error ≢ OutOfMemory → IsOkAnd result (λ words. words.items ≡ [])) }
    ensures memory { IfErr given (λ error. error_kind error ≡ OutOfMemory → IsErr result) }
{
    match given {
        Ok(words) => words.collect(alloc),
        Err(error) if error.kind() == io::ErrorKind::OutOfMemory => Err(AllocError),
        Err(_) => Ok(Vec::new(alloc)),
    }
}

/// Calls the program with these words over the standard streams, and with a line for each worker that a script may
/// have, of which none fails.
fn call(rt: &HostRuntime) -> Result<Status, AllocError> {
    let words = words(rt.alloc(), env::args(rt))?;
    let mut lines: Vec<Box<dyn Line + Send>> = Vec::new(rt.alloc());
    for _worker in 0..MOST_WORKERS {
        lines.push(Box::new(rt.alloc(), UpLine::new())?)?;
    }
    let mut source = StdSource::new(rt.stdin());
    let mut sink = StdSink::new(rt.stdout());
    Ok(namdb(rt.alloc(), words.as_slice(), &mut source, &mut sink, lines))
}

fn main(rt: HostRuntime) -> Status {
    match call(&rt) {
        Ok(status) => status,
        Err(no_memory) => Status::from(no_memory),
    }
}
