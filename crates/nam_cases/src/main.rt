//! Compares simulated runs with the reports that an independent implementation made of them.
//!
//! The standard input has cases, one after another: a line, and as many bytes of script and of report as that line
//! says. The line is `case NAME SCRIPT REPORT` and then a word for each line that fails: `J:K` is the line of worker J
//! that refuses its Kth verb and all later ones, `J=A,B` one that refuses those. The names of the cases that differ
//! are printed, and how many agree.
#![tactic(auto)]

mod case;
mod words;

use case::Case;
use nam_io::{ReadEnd, StdSink, StdSource, read_all, write_all};
use std::alloc::{AllocError, Global};
use std::fmt::Write;
use std::process::ExitCode;

/// The most bytes of all cases.
const LIMIT: usize = 16_777_216;

/// Runs each case: the text that tells which differ, and how many agree.
fn compared(alloc: Global, input: &[u8]) -> Result<String, AllocError> {
    let mut told = String::new(alloc);
    let mut agreed: u32 = 0;
    let mut rest = input;
    while !rest.is_empty() {
        let Some((case, after)) = Case::read(rest) else {
            write!(told, "what stands after {agreed} cases is none\n")?;
            return Ok(told);
        };
        if case.agrees(alloc)? {
            agreed = agreed.saturating_add(1);
        } else {
            write!(told, "{} differs\n", case.name)?;
        }
        rest = after;
    }
    write!(told, "{agreed} cases agree\n")?;
    Ok(told)
}

/// Reads all cases and tells how they compare.
fn call(rt: &HostRuntime) -> Result<(), ReadEnd> {
    let input = read_all(rt.alloc(), &mut StdSource::new(rt.stdin()), LIMIT)?;
    let told = compared(rt.alloc(), input.as_slice())?;
    write_all(&mut StdSink::new(rt.stdout()), told.as_bytes())?;
    Ok(())
}

fn main(rt: HostRuntime) -> ExitCode {
    match call(&rt) {
        Ok(()) => ExitCode::from(0u8),
        Err(_) => ExitCode::from(1u8),
    }
}
