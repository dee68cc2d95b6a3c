//! Worked scripts through the top call on `sim`.

mod ends;
mod meetings;

use crate::status::Status;
use crate::top::namdb;
use nam_io::{MemSink, MemSource};
use nam_line::{FuseLine, Line, UpLine};
use std::alloc::{AllocError, Global};

/// A script, the verb from which on worker 1's line refuses, if it does, and the report.
#[derive(Clone, Copy)]
pub struct Row {
    fuse: Option<u64>,
    script: &'static str,
    report: &'static str,
}

/// The lines of two workers.
fn lines(alloc: Global, fuse: Option<u64>) -> Result<Vec<Box<dyn Line + Send>>, AllocError> {
    let mut lines: Vec<Box<dyn Line + Send>> = Vec::new(alloc);
    match fuse {
        Some(at) => lines.push(Box::new(alloc, FuseLine::new(at))?)?,
        None => lines.push(Box::new(alloc, UpLine::new())?)?,
    }
    lines.push(Box::new(alloc, UpLine::new())?)?;
    Ok(lines)
}

/// How the call ends, and what it wrote.
fn ending(alloc: Global, script: &str, fuse: Option<u64>) -> Result<(Status, MemSink), AllocError> {
    let mut words = Vec::new(alloc);
    for word in ["namdb", "sim"] {
        words.push(String::from_str(alloc, word)?)?;
    }
    let input = Vec::from_slice(alloc, script.as_bytes())?;
    let mut source = MemSource::new(input, 64, Vec::new(alloc));
    let mut sink = MemSink::new(alloc, 100_000, 64, Vec::new(alloc))?;
    let lines = lines(alloc, fuse)?;
    let status = namdb(alloc, words.as_slice(), &mut source, &mut sink, lines);
    Ok((status, sink))
}

#[test]
fn each_worked_script_is_answered_by_its_report(rt: HostRuntime) -> Result<(), AllocError> {
    for row in [
        meetings::TRANSFER,
        meetings::ONE_ROW,
        meetings::ABSENT_KEY,
        meetings::FIRST_COMMITTER_WINS,
        meetings::WRITE_SKEW,
        meetings::SNAPSHOT_AGAIN,
        meetings::CAUSE_WITHOUT_EFFECT,
        meetings::WRITER_MEETS_A_LOCK,
        meetings::READER_PASSES_A_LOCK,
        meetings::RING_IS_FULL,
        meetings::READER_FINDS_A_CELL,
        meetings::READER_IS_TOO_OLD,
        ends::NUMBERS_ARE_SPENT,
        ends::DELETE_AND_PUT,
        ends::TABLE_HAS_NO_SPACE,
        ends::DECLINED,
        ends::WIDE_NUMBERS,
        ends::GUARD_FORBIDS_SKEW,
        ends::ORDER_UNDER_GUARDS,
        ends::SCAN_WITH_OWN_WRITES,
        ends::SCAN_BEFORE_OWN_WRITES,
        ends::SCAN_SEES_ITS_PREFIX,
        ends::FUSE_BEFORE_THE_LAST_VERB,
        ends::FUSE_AFTER_THE_LAST_VERB,
        ends::STINTS,
    ] {
        let (status, sink) = ending(rt.alloc(), row.script, row.fuse)?;
        assert!(rt; status == Status::Done, "{}", row.script);
        assert!(rt; sink.bytes() == row.report.as_bytes(), "{}", row.script);
    }
    Ok(())
}

/// Worker 1 is stopped before each of its verbs in turn, and the other goes on to its end.
#[test]
fn a_stopped_worker_stops_no_other(rt: HostRuntime) -> Result<(), AllocError> {
    for at in 1..=50 {
        let (status, sink) = ending(rt.alloc(), meetings::WRITE_SKEW.script, Some(at))?;
        assert!(rt; status == Status::Done, "at {at}");
        assert!(rt; sink.bytes().ends_with(b"\nend\n"), "at {at}");
    }
    Ok(())
}
