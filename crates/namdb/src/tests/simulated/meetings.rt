//! Simulated runs in which workers meet.

use super::Row;

pub const TRANSFER: Row = Row {
    fuse: None,
    script: "\
namdb 1
header narrow
workers 1
tries 1
tidy off
start 0
overflow 1 1
table acct width 1 capacity 2 ring 1
row acct 0 100
row acct 1 0
txn 1
need acct 0 1 10
add acct 0 1 -10
add acct 1 1 +10
end
",
    report: "\
report 1
history 1
c 1 worker 1 number 1 prefix 0 txn 1
w acct 0 90
w acct 1 10
worker 1 events 1
t 1 try 1 prefix 0 commit 1
r acct 0 100
r acct 0 100
r acct 1 0
l acct 0 0 0
l acct 1 0 0
audit 2
a acct 0 90
a acct 1 10
end
",
};

pub const ONE_ROW: Row = Row {
    fuse: None,
    script: "\
namdb 1
header narrow
workers 1
tries 1
tidy off
start 0
overflow 1 1
table t width 1 capacity 1 ring 1
row t 0 7
",
    report: "\
report 1
history 0
worker 1 events 0
audit 1
a t 0 7
end
",
};

pub const ABSENT_KEY: Row = Row {
    fuse: None,
    script: "\
namdb 1
header narrow
workers 1
tries 1
tidy off
start 0
overflow 1 1
table t width 1 capacity 1 ring 1
row t 0 7
txn 1
get t 0
get t 5
end
",
    report: "\
report 1
history 0
worker 1 events 1
t 1 try 1 prefix 0 read
r t 0 7
r t 5 -
audit 1
a t 0 7
end
",
};

pub const FIRST_COMMITTER_WINS: Row = Row {
    fuse: None,
    script: "\
namdb 1
header narrow
workers 2
tries 2
tidy off
start 0
overflow 1 1
table acct width 1 capacity 4 ring 2
row acct 0 100
txn 1
add acct 0 1 +5
end
txn 2
add acct 0 1 +7
end
turns 1*4 2*4 1*18
",
    report: "\
report 1
history 2
c 1 worker 1 number 1 prefix 0 txn 1
w acct 0 105
c 2 worker 2 number 1 prefix 1 txn 2
w acct 0 112
worker 1 events 1
t 1 try 1 prefix 0 commit 1
r acct 0 100
l acct 0 0 0
worker 2 events 2
t 2 try 1 prefix 0 newer acct 0 1 1
r acct 0 100
t 2 try 2 prefix 1 commit 1
r acct 0 105
l acct 0 1 1
audit 1
a acct 0 112
end
",
};

pub const WRITE_SKEW: Row = Row {
    fuse: None,
    script: "\
namdb 1
header narrow
workers 2
tries 1
tidy off
start 0
overflow 1 1
table acct width 1 capacity 4 ring 2
row acct 0 60
row acct 1 60
txn 1
need acct 0 1 60
need acct 1 1 60
add acct 0 1 -60
end
txn 2
need acct 0 1 60
need acct 1 1 60
add acct 1 1 -60
end
turns 1*4 2*4
",
    report: "\
report 1
history 2
c 1 worker 1 number 1 prefix 0 txn 1
w acct 0 0
c 2 worker 2 number 1 prefix 0 txn 2
w acct 1 0
worker 1 events 1
t 1 try 1 prefix 0 commit 1
r acct 0 60
r acct 1 60
r acct 0 60
l acct 0 0 0
worker 2 events 1
t 2 try 1 prefix 0 commit 1
r acct 0 60
r acct 1 60
r acct 1 60
l acct 1 0 0
audit 2
a acct 0 0
a acct 1 0
end
",
};

pub const SNAPSHOT_AGAIN: Row = Row {
    fuse: None,
    script: "\
namdb 1
header narrow
workers 2
tries 2
tidy off
start 0
overflow 1 1
table acct width 1 capacity 4 ring 2
row acct 0 100
txn 1
get acct 0
end
txn 2
add acct 0 1 +1
end
turns 1*2 2*22
",
    report: "\
report 1
history 1
c 1 worker 2 number 1 prefix 0 txn 2
w acct 0 101
worker 1 events 2
t 1 try 1 prefix - again 2 0 1
t 1 try 2 prefix 1 read
r acct 0 101
worker 2 events 1
t 2 try 1 prefix 0 commit 1
r acct 0 100
l acct 0 0 0
audit 1
a acct 0 101
end
",
};

pub const CAUSE_WITHOUT_EFFECT: Row = Row {
    fuse: None,
    script: "\
namdb 1
header narrow
workers 3
tries 2
tidy off
start 0
overflow 1 1
table acct width 1 capacity 4 ring 2
row acct 0 100
row acct 1 0
txn 1
add acct 0 1 +1
end
txn 2
get acct 0
put acct 1 9
end
txn 3
get acct 0
get acct 1
end
turns 3*1 1*24 2*24
",
    report: "\
report 1
history 2
c 1 worker 1 number 1 prefix 0 txn 1
w acct 0 101
c 2 worker 2 number 1 prefix 1 txn 2
w acct 1 9
worker 1 events 1
t 1 try 1 prefix 0 commit 1
r acct 0 100
l acct 0 0 0
worker 2 events 1
t 2 try 1 prefix 1 commit 1
r acct 0 101
l acct 1 0 0
worker 3 events 2
t 3 try 1 prefix - again 1 0 1
t 3 try 2 prefix 2 read
r acct 0 101
r acct 1 9
audit 2
a acct 0 101
a acct 1 9
end
",
};

pub const WRITER_MEETS_A_LOCK: Row = Row {
    fuse: None,
    script: "\
namdb 1
header narrow
workers 2
tries 1
tidy off
start 0
overflow 1 1
table acct width 1 capacity 4 ring 2
row acct 0 100
txn 1
add acct 0 1 +5
end
txn 2
put acct 0 9
end
turns 1*11 2*6
",
    report: "\
report 1
history 1
c 1 worker 1 number 1 prefix 0 txn 1
w acct 0 105
worker 1 events 1
t 1 try 1 prefix 0 commit 1
r acct 0 100
l acct 0 0 0
worker 2 events 1
t 2 try 1 prefix 0 locked acct 0 0 0
audit 1
a acct 0 105
end
",
};

pub const READER_PASSES_A_LOCK: Row = Row {
    fuse: None,
    script: "\
namdb 1
header narrow
workers 2
tries 1
tidy off
start 0
overflow 1 1
table acct width 1 capacity 4 ring 2
row acct 0 100
txn 1
add acct 0 1 +5
end
txn 2
get acct 0
end
turns 1*11 2*11
",
    report: "\
report 1
history 1
c 1 worker 1 number 1 prefix 0 txn 1
w acct 0 105
worker 1 events 1
t 1 try 1 prefix 0 commit 1
r acct 0 100
l acct 0 0 0
worker 2 events 1
t 2 try 1 prefix 0 read
r acct 0 100
audit 1
a acct 0 105
end
",
};

pub const RING_IS_FULL: Row = Row {
    fuse: None,
    script: "\
namdb 1
header narrow
workers 1
tries 1
tidy off
start 0
overflow 1 1
table t width 1 capacity 1 ring 1
row t 0 0
txn 1
add t 0 1 +1
end
txn 1
add t 0 1 +1
end
txn 1
add t 0 1 +1
end
",
    report: "\
report 1
history 1
c 1 worker 1 number 1 prefix 0 txn 1
w t 0 1
worker 1 events 3
t 1 try 1 prefix 0 commit 1
r t 0 0
l t 0 0 0
t 2 try 1 prefix 1 full t 0 0 0
r t 0 1
l t 0 1 1
t 3 try 1 prefix 1 full t 0 0 0
r t 0 1
l t 0 1 1
audit 1
a t 0 1
end
",
};

pub const READER_FINDS_A_CELL: Row = Row {
    fuse: None,
    script: "\
namdb 1
header narrow
workers 2
tries 1
tidy on
start 0
overflow 1 4
table t width 1 capacity 1 ring 1
row t 0 5
txn 1
add t 0 1 +1
end
txn 1
add t 0 1 +1
end
txn 2
get t 0
end
turns 2*4 1*200
",
    report: "\
report 1
history 2
c 1 worker 1 number 1 prefix 0 txn 1
w t 0 6
c 2 worker 1 number 2 prefix 1 txn 2
w t 0 7
worker 1 events 4
t 1 try 1 prefix 0 commit 1
r t 0 5
l t 0 0 0
move 0 t 0 0 0 done
t 2 try 1 prefix 1 commit 2
r t 0 6
l t 0 1 1
move 0 t 0 1 1 done
worker 2 events 1
t 3 try 1 prefix 0 read
r t 0 5
audit 1
a t 0 7
end
",
};

pub const READER_IS_TOO_OLD: Row = Row {
    fuse: None,
    script: "\
namdb 1
header narrow
workers 2
tries 1
tidy on
start 0
overflow 1 1
table t width 1 capacity 1 ring 1
row t 0 5
txn 1
add t 0 1 +1
end
txn 1
add t 0 1 +1
end
txn 2
get t 0
end
turns 2*4 1*200
",
    report: "\
report 1
history 2
c 1 worker 1 number 1 prefix 0 txn 1
w t 0 6
c 2 worker 1 number 2 prefix 1 txn 2
w t 0 7
worker 1 events 6
t 1 try 1 prefix 0 commit 1
r t 0 5
l t 0 0 0
move 0 t 0 0 0 done
t 2 try 1 prefix 1 commit 2
r t 0 6
l t 0 1 1
noroom 0
collect 0 prefix 2 2 0 done
move 0 t 0 1 1 done
worker 2 events 1
t 3 try 1 prefix 0 old 1 0 2
audit 1
a t 0 7
end
",
};
