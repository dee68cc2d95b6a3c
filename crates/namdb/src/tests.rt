ghost use Rattle.std.specs.Prelude.{◌≡◌};

mod simulated;

use crate::status::Status;
use crate::top::namdb;
use nam_io::{MemSink, MemSource};
use nam_script::Kind;
use std::alloc::{AllocError, Global};
use std::test::Fail;

const TRANSFER: &str = "\
namdb 1
header narrow
workers 1
tries 1
tidy off
start 0
overflow 1 1
table acct width 1 capacity 2 ring 1
row acct 0 100
row acct 1 0
txn 1
need acct 0 1 10
add acct 0 1 -10
add acct 1 1 +10
end
";

const TRANSFER_REPORT: &str = "\
report 1
history 1
c 1 worker 1 number 1 prefix 0 txn 1
w acct 0 90
w acct 1 10
worker 1 events 1
t 1 try 1 prefix 0 commit 1
r acct 0 100
r acct 0 100
r acct 1 0
l acct 0 0 0
l acct 1 0 0
audit 2
a acct 0 90
a acct 1 10
end
";

const ONE_ROW: &str = "\
namdb 1
header narrow
workers 1
tries 1
tidy off
start 0
overflow 1 1
table t width 1 capacity 1 ring 1
row t 0 7
";

const ONE_ROW_REPORT: &str = "\
report 1
history 0
worker 1 events 0
audit 1
a t 0 7
end
";

const DECLINED: &str = "\
namdb 1
header narrow
workers 1
tries 1
tidy off
start 0
overflow 1 1
table t width 1 capacity 1 ring 1
row t 0 5
txn 1
need t 0 1 6
end
txn 1
add t 0 1 +18446744073709551615
end
txn 1
add t 0 1 -6
end
";

const DECLINED_REPORT: &str = "\
report 1
history 0
worker 1 events 3
t 1 try 1 prefix 0 declined 1
r t 0 5
t 2 try 1 prefix 0 declined 1
r t 0 5
t 3 try 1 prefix 0 declined 1
r t 0 5
audit 1
a t 0 5
end
";

const TWO_WORKERS: &str = "\
namdb 1
header narrow
workers 2
tries 1
tidy off
start 4294967294
overflow 1 1
table acct width 1 capacity 4 ring 2
row acct 0 60
row acct 1 60
txn 2
get acct 0
end
txn 1
need acct 0 1 60
need acct 1 1 60
add acct 0 1 -60
end
txn 2
need acct 1 1 60
need acct 0 1 60
add acct 1 1 -60
end
txn 1
add acct 0 1 +1
end
";

const TWO_WORKERS_REPORT: &str = "\
report 1
history 1
c 1 worker 1 number 4294967295 prefix 0 txn 2
w acct 0 0
worker 1 events 2
t 2 try 1 prefix 0 commit 4294967295
r acct 0 60
r acct 1 60
r acct 0 60
l acct 0 0 0
t 4 try 1 prefix 1 spent
r acct 0 0
worker 2 events 2
t 1 try 1 prefix 1 read
r acct 0 0
t 3 try 1 prefix 1 declined 2
r acct 1 60
r acct 0 0
audit 2
a acct 0 0
a acct 1 60
end
";

/// A script that reads a key which no row has.
const ABSENT_KEY: &str = "\
namdb 1
header narrow
workers 1
tries 1
tidy off
start 0
overflow 1 1
table t width 1 capacity 1 ring 1
row t 0 7
txn 1
get t 0
get t 5
end
";

const ABSENT_KEY_REPORT: &str = "\
report 1
history 0
worker 1 events 1
t 1 try 1 prefix 0 read
r t 0 7
r t 5 -
audit 1
a t 0 7
end
";

/// The last number of narrow headers is taken; a later write finds the numbers spent.
const SPENT: &str = "\
namdb 1
header narrow
workers 1
tries 1
tidy off
start 4294967294
overflow 1 1
table t width 1 capacity 1 ring 1
row t 0 1
txn 1
put t 0 2
end
txn 1
put t 0 3
end
txn 1
get t 0
end
";

const SPENT_REPORT: &str = "\
report 1
history 1
c 1 worker 1 number 4294967295 prefix 0 txn 1
w t 0 2
worker 1 events 3
t 1 try 1 prefix 0 commit 4294967295
l t 0 0 0
t 2 try 1 prefix 1 spent
t 3 try 1 prefix 1 read
r t 0 2
audit 1
a t 0 2
end
";

/// A row is deleted, and put again twice in one transaction.
const DELETED: &str = "\
namdb 1
header narrow
workers 1
tries 1
tidy off
start 0
overflow 1 1
table t width 2 capacity 2 ring 4
row t 0 1 2
txn 1
del t 0
get t 0
end
txn 1
get t 0
put t 0 3 4
put t 0 5 6
get t 0
end
";

const DELETED_REPORT: &str = "\
report 1
history 2
c 1 worker 1 number 1 prefix 0 txn 1
w t 0 -
c 2 worker 1 number 2 prefix 1 txn 2
w t 0 5 6
worker 1 events 2
t 1 try 1 prefix 0 commit 1
r t 0 -
l t 0 0 0
t 2 try 1 prefix 1 commit 2
r t 0 -
r t 0 5 6
l t 0 1 1
audit 1
a t 0 5 6
end
";

/// The last number of wide headers is taken.
const WIDE: &str = "\
namdb 1
header wide
workers 1
tries 1
tidy off
start 35184372088830
overflow 1 1
table t width 1 capacity 1 ring 1
row t 0 1
txn 1
put t 0 2
end
txn 1
put t 0 3
end
txn 1
get t 0
end
";

const WIDE_REPORT: &str = "\
report 1
history 1
c 1 worker 1 number 35184372088831 prefix 0 txn 1
w t 0 2
worker 1 events 3
t 1 try 1 prefix 0 commit 35184372088831
l t 0 0 0
t 2 try 1 prefix 1 spent
t 3 try 1 prefix 1 read
r t 0 2
audit 1
a t 0 2
end
";

/// A scan shows the writes of its transaction, and ends below the greatest key.
const SCANNED: &str = "\
namdb 1
header narrow
workers 1
tries 1
tidy off
start 0
overflow 1 1
table t width 1 capacity 4 ring 1
row t 3 30
row t 1 10
row t 7 70
txn 1
put t 2 20
del t 1
scan t 1 3
end
txn 1
scan t 0 18446744073709551614
end
";

const SCANNED_REPORT: &str = "\
report 1
history 1
c 1 worker 1 number 1 prefix 0 txn 1
w t 2 20
w t 1 -
worker 1 events 2
t 1 try 1 prefix 0 commit 1
r t 2 20
r t 3 30
l t 2 0 0
l t 1 0 0
t 2 try 1 prefix 1 read
r t 2 20
r t 3 30
r t 7 70
audit 3
a t 2 20
a t 3 30
a t 7 70
end
";

/// A scan ahead of the writes shows what stood before them.
const SCANNED_FIRST: &str = "\
namdb 1
header narrow
workers 1
tries 1
tidy off
start 0
overflow 1 1
table t width 1 capacity 4 ring 1
row t 3 30
row t 1 10
row t 7 70
txn 1
scan t 1 3
put t 2 20
del t 1
end
txn 1
scan t 0 18446744073709551614
end
";

const SCANNED_FIRST_REPORT: &str = "\
report 1
history 1
c 1 worker 1 number 1 prefix 0 txn 1
w t 2 20
w t 1 -
worker 1 events 2
t 1 try 1 prefix 0 commit 1
r t 1 10
r t 3 30
l t 2 0 0
l t 1 0 0
t 2 try 1 prefix 1 read
r t 2 20
r t 3 30
r t 7 70
audit 3
a t 2 20
a t 3 30
a t 7 70
end
";

/// A script whose last transaction has no end.
const UNENDED: &str = "\
namdb 1
header narrow
workers 1
tries 1
tidy off
start 0
overflow 1 1
table t width 1 capacity 1 ring 1
row t 0 0
txn 1
add t 0 1 +1
";

/// A number of workers that no word holds.
const WORKERS_ABOVE: &str = "\
namdb 1
header narrow
workers 18446744073709551616
tries 1
tidy off
start 0
overflow 1 1
table t width 1 capacity 1 ring 1
row t 0 7
";

/// A start above what narrow headers hold.
const START_ABOVE: &str = "\
namdb 1
header narrow
workers 1
tries 1
tidy off
start 35184372088830
overflow 1 1
table t width 1 capacity 1 ring 1
row t 0 1
txn 1
put t 0 2
end
txn 1
put t 0 3
end
txn 1
get t 0
end
";

/// Mistakes behind `ONE_ROW`, whose last line is 9: what stands there, and the refusal's line and kind.
const MISTAKES: [(&str, u32, Kind, &str); 21] = [
    ("row t 0 8\n", 10, Kind::Twice, "error script 10 twice\n"),
    ("row t 1 8\n", 10, Kind::Size, "error script 10 size\n"),
    ("row u 1 8\n", 10, Kind::Name, "error script 10 name\n"),
    (
        "row u 1 8\nrow t 0 8\n",
        10,
        Kind::Name,
        "error script 10 name\n",
    ),
    ("row t 00 8\n", 10, Kind::Word, "error script 10 word\n"),
    (
        "table t width 1 capacity 1 ring 1\n",
        10,
        Kind::Word,
        "error script 10 word\n",
    ),
    ("txn 2\n", 10, Kind::Range, "error script 10 range\n"),
    ("txn 1\n", 11, Kind::Cut, "error script 11 cut\n"),
    ("txn 1\nend\n", 11, Kind::Word, "error script 11 word\n"),
    (
        "txn 1\nget t 18446744073709551615\n",
        11,
        Kind::Range,
        "error script 11 range\n",
    ),
    (
        "txn 1\nput t 0 1 2\n",
        11,
        Kind::Size,
        "error script 11 size\n",
    ),
    (
        "txn 1\nadd t 0 1 -0\n",
        11,
        Kind::Word,
        "error script 11 word\n",
    ),
    (
        "txn 1\nneed t 0 2 1\n",
        11,
        Kind::Range,
        "error script 11 range\n",
    ),
    (
        "txn 1\nguard u 0\n",
        11,
        Kind::Name,
        "error script 11 name\n",
    ),
    (
        "txn 1\nscan t 1 0\n",
        11,
        Kind::Range,
        "error script 11 range\n",
    ),
    (
        "txn 1\nget t 0\nend",
        12,
        Kind::Cut,
        "error script 12 cut\n",
    ),
    (
        "txn 1\nget t 0\nend\nrow t 1 8\n",
        13,
        Kind::Word,
        "error script 13 word\n",
    ),
    ("turns 1*0\n", 10, Kind::Range, "error script 10 range\n"),
    (
        "turns 1*1\ntxn 1\n",
        11,
        Kind::Word,
        "error script 11 word\n",
    ),
    (
        "seed 1 1000001\n",
        10,
        Kind::Range,
        "error script 10 range\n",
    ),
    (
        "seed 1 2\nturns 1*1\n",
        11,
        Kind::Word,
        "error script 11 word\n",
    ),
];

/// The most bytes that a call of a source or a sink passes here.
const PIECE: usize = 16;

const RUN: &[&str] = &["namdb", "run"];

/// A call over memory, whose reads and writes of these numbers fail.
#[derive(Drop)]
struct Call<'a> {
    words: &'a [&'a str],
    input: &'a [u8],
    failing_reads: &'a [u64],
    failing_writes: &'a [u64],
    room: usize,
}

/// A call on which nothing fails.
fn unfailing<'a>(words: &'a [&'a str], input: &'a [u8]) -> Call<'a> {
    Call {
        words,
        input,
        failing_reads: &[],
        failing_writes: &[],
        room: 1000,
    }
}

/// How the call ends, and the sink after it.
fn ending(alloc: Global, call: &Call<'_>) -> Result<(Status, MemSink), AllocError> {
    let mut words = Vec::new(alloc);
    for word in call.words {
        words.push(String::from_str(alloc, word)?)?;
    }
    let input = Vec::from_slice(alloc, call.input)?;
    let reads = Vec::from_slice(alloc, call.failing_reads)?;
    let writes = Vec::from_slice(alloc, call.failing_writes)?;
    let mut source = MemSource::new(input, PIECE, reads);
    let mut sink = MemSink::new(alloc, call.room, PIECE, writes)?;
    let status = namdb(
        alloc,
        words.as_slice(),
        &mut source,
        &mut sink,
        Vec::new(alloc),
    );
    Ok((status, sink))
}

#[test]
fn a_script_is_answered_by_its_report(rt: HostRuntime) -> Result<(), AllocError> {
    for (script, report) in [
        (TRANSFER, TRANSFER_REPORT),
        (ONE_ROW, ONE_ROW_REPORT),
        (DECLINED, DECLINED_REPORT),
        (TWO_WORKERS, TWO_WORKERS_REPORT),
        (ABSENT_KEY, ABSENT_KEY_REPORT),
        (SPENT, SPENT_REPORT),
        (DELETED, DELETED_REPORT),
        (WIDE, WIDE_REPORT),
        (SCANNED, SCANNED_REPORT),
        (SCANNED_FIRST, SCANNED_FIRST_REPORT),
    ] {
        let (status, sink) = ending(rt.alloc(), &unfailing(RUN, script.as_bytes()))?;
        assert!(rt; status == Status::Done, "{script}");
        assert!(rt; sink.bytes() == report.as_bytes(), "{script}");
    }
    Ok(())
}

fn bad(line: u32, kind: Kind) -> Status {
    Status::BadScript { line, kind }
}

#[test]
fn each_worked_script_prints_as_it_was(rt: HostRuntime) -> Result<(), Fail> {
    for text in [
        TRANSFER, ONE_ROW, ABSENT_KEY, SPENT, DELETED, DECLINED, WIDE, SCANNED,
    ] {
        let script = nam_script::parse(rt.alloc(), text.as_bytes())?;
        let printed = nam_script::print(rt.alloc(), &script)?;
        assert!(rt; printed.as_slice() == text.as_bytes(), "{text}");
    }
    Ok(())
}

#[test]
fn a_refusal_writes_its_line(rt: HostRuntime) -> Result<(), AllocError> {
    let cases: [(&[&str], &str, Status, &str); 8] = [
        (&[], ONE_ROW, Status::Usage, "error usage\n"),
        (&["namdb"], ONE_ROW, Status::Usage, "error usage\n"),
        (&["namdb", "fly"], "", Status::Usage, "error usage\n"),
        (
            &["namdb", "run", "--from", "xml"],
            "",
            Status::Usage,
            "error usage\n",
        ),
        (RUN, "", bad(1, Kind::Cut), "error script 1 cut\n"),
        (RUN, UNENDED, bad(12, Kind::Cut), "error script 12 cut\n"),
        (
            RUN,
            WORKERS_ABOVE,
            bad(3, Kind::Range),
            "error script 3 range\n",
        ),
        (
            RUN,
            START_ABOVE,
            bad(6, Kind::Range),
            "error script 6 range\n",
        ),
    ];
    for (words, script, wanted, line) in cases {
        let (status, sink) = ending(rt.alloc(), &unfailing(words, script.as_bytes()))?;
        assert!(rt; status == wanted, "{line}");
        assert!(rt; sink.bytes() == line.as_bytes(), "{line}");
    }
    Ok(())
}

#[test]
fn a_mistake_is_named_by_its_line_and_kind(rt: HostRuntime) -> Result<(), AllocError> {
    for (mistake, line, kind, wanted) in MISTAKES {
        let mut script = String::from_str(rt.alloc(), ONE_ROW)?;
        script.push_str(mistake)?;
        let (status, sink) = ending(rt.alloc(), &unfailing(RUN, script.as_bytes()))?;
        assert!(rt; status == bad(line, kind), "{mistake}");
        assert!(rt; sink.bytes() == wanted.as_bytes(), "{mistake}");
    }
    Ok(())
}

#[test]
fn an_input_of_a_byte_too_many_is_too_long(rt: HostRuntime) -> Result<(), AllocError> {
    let bytes = vec![in rt.alloc(); b'\n'; 1_048_577]?;
    let (status, sink) = ending(rt.alloc(), &unfailing(RUN, bytes.as_slice()))?;
    assert!(rt; status == Status::TooLong);
    assert!(rt; sink.bytes() == b"error long\n".as_slice());
    let (status, _) = ending(rt.alloc(), &unfailing(RUN, &bytes.as_slice()[1..]))?;
    assert!(rt; matches!(status, Status::BadScript { .. }));
    Ok(())
}

#[test]
fn a_failed_read_is_answered_at_each_call(rt: HostRuntime) -> Result<(), AllocError> {
    // One more read finds the end.
    let reads = TRANSFER.len().div_ceil(PIECE) + 1;
    for failing in 1..=reads as u64 {
        let mut call = unfailing(RUN, TRANSFER.as_bytes());
        let plan = [failing];
        call.failing_reads = &plan;
        let (status, sink) = ending(rt.alloc(), &call)?;
        assert!(rt; status == Status::ReadFault, "call {failing}");
        assert!(rt;
            sink.bytes() == b"error read\n".as_slice(),
            "call {failing}"
        );
    }
    Ok(())
}

#[test]
fn a_failed_write_leaves_a_front_of_the_report(rt: HostRuntime) -> Result<(), AllocError> {
    let report = TRANSFER_REPORT.as_bytes();
    for before in 0..report.len().div_ceil(PIECE) {
        let mut call = unfailing(RUN, TRANSFER.as_bytes());
        let plan = [before as u64 + 1];
        call.failing_writes = &plan;
        let (status, sink) = ending(rt.alloc(), &call)?;
        assert!(rt; status == Status::WriteFault, "after {before} writes");
        assert!(rt;
            sink.bytes().len() == before * PIECE,
            "after {before} writes"
        );
        assert!(rt; report.starts_with(sink.bytes()), "after {before} writes");
    }
    Ok(())
}

#[test]
fn a_full_sink_holds_the_first_bytes(rt: HostRuntime) -> Result<(), AllocError> {
    let mut call = unfailing(RUN, ONE_ROW.as_bytes());
    call.room = 20;
    let (status, sink) = ending(rt.alloc(), &call)?;
    assert!(rt; status == Status::WriteFault);
    assert!(rt; sink.bytes() == &ONE_ROW_REPORT.as_bytes()[..20]);
    Ok(())
}
