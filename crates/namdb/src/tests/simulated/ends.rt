//! Simulated runs that end otherwise, and guards, scans and stops.

use super::Row;

pub const NUMBERS_ARE_SPENT: Row = Row {
    fuse: None,
    script: "\
namdb 1
header narrow
workers 1
tries 1
tidy off
start 4294967294
overflow 1 1
table t width 1 capacity 1 ring 1
row t 0 1
txn 1
put t 0 2
end
txn 1
put t 0 3
end
txn 1
get t 0
end
",
    report: "\
report 1
history 1
c 1 worker 1 number 4294967295 prefix 0 txn 1
w t 0 2
worker 1 events 3
t 1 try 1 prefix 0 commit 4294967295
l t 0 0 0
t 2 try 1 prefix 1 spent
t 3 try 1 prefix 1 read
r t 0 2
audit 1
a t 0 2
end
",
};

pub const DELETE_AND_PUT: Row = Row {
    fuse: None,
    script: "\
namdb 1
header narrow
workers 1
tries 1
tidy off
start 0
overflow 1 1
table t width 2 capacity 2 ring 4
row t 0 1 2
txn 1
del t 0
get t 0
end
txn 1
get t 0
put t 0 3 4
put t 0 5 6
get t 0
end
",
    report: "\
report 1
history 2
c 1 worker 1 number 1 prefix 0 txn 1
w t 0 -
c 2 worker 1 number 2 prefix 1 txn 2
w t 0 5 6
worker 1 events 2
t 1 try 1 prefix 0 commit 1
r t 0 -
l t 0 0 0
t 2 try 1 prefix 1 commit 2
r t 0 -
r t 0 5 6
l t 0 1 1
audit 1
a t 0 5 6
end
",
};

pub const TABLE_HAS_NO_SPACE: Row = Row {
    fuse: None,
    script: "\
namdb 1
header narrow
workers 1
tries 1
tidy off
start 0
overflow 1 1
table t width 1 capacity 2 ring 1
row t 0 1
row t 1 1
txn 1
get t 2
put t 2 9
end
",
    report: "\
report 1
history 0
worker 1 events 1
t 1 try 1 prefix 0 nospace t
r t 2 -
audit 2
a t 0 1
a t 1 1
end
",
};

pub const DECLINED: Row = Row {
    fuse: None,
    script: "\
namdb 1
header narrow
workers 1
tries 1
tidy off
start 0
overflow 1 1
table t width 1 capacity 1 ring 1
row t 0 5
txn 1
need t 0 1 6
end
txn 1
add t 0 1 +18446744073709551615
end
txn 1
add t 0 1 -6
end
",
    report: "\
report 1
history 0
worker 1 events 3
t 1 try 1 prefix 0 declined 1
r t 0 5
t 2 try 1 prefix 0 declined 1
r t 0 5
t 3 try 1 prefix 0 declined 1
r t 0 5
audit 1
a t 0 5
end
",
};

pub const WIDE_NUMBERS: Row = Row {
    fuse: None,
    script: "\
namdb 1
header wide
workers 1
tries 1
tidy off
start 35184372088830
overflow 1 1
table t width 1 capacity 1 ring 1
row t 0 1
txn 1
put t 0 2
end
txn 1
put t 0 3
end
txn 1
get t 0
end
",
    report: "\
report 1
history 1
c 1 worker 1 number 35184372088831 prefix 0 txn 1
w t 0 2
worker 1 events 3
t 1 try 1 prefix 0 commit 35184372088831
l t 0 0 0
t 2 try 1 prefix 1 spent
t 3 try 1 prefix 1 read
r t 0 2
audit 1
a t 0 2
end
",
};

pub const GUARD_FORBIDS_SKEW: Row = Row {
    fuse: None,
    script: "\
namdb 1
header narrow
workers 2
tries 1
tidy off
start 0
overflow 1 1
table acct width 1 capacity 4 ring 2
row acct 0 60
row acct 1 60
txn 1
need acct 0 1 60
need acct 1 1 60
guard acct 1
add acct 0 1 -60
end
txn 2
need acct 0 1 60
need acct 1 1 60
guard acct 0
add acct 1 1 -60
end
turns 1*4 2*4 1*34
",
    report: "\
report 1
history 1
c 1 worker 1 number 1 prefix 0 txn 1
w acct 0 0
worker 1 events 1
t 1 try 1 prefix 0 commit 1
r acct 0 60
r acct 1 60
r acct 1 60
r acct 0 60
l acct 0 0 0
l acct 1 0 0
worker 2 events 1
t 2 try 1 prefix 0 newer acct 0 1 1
r acct 0 60
r acct 1 60
r acct 0 60
r acct 1 60
l acct 1 0 0
audit 2
a acct 0 0
a acct 1 60
end
",
};

pub const ORDER_UNDER_GUARDS: Row = Row {
    fuse: None,
    script: "\
namdb 1
header narrow
workers 2
tries 1
tidy off
start 0
overflow 1 1
table acct width 1 capacity 4 ring 2
row acct 0 60
row acct 1 60
txn 2
guard acct 0
put acct 1 1
end
txn 1
put acct 0 9
end
turns 1*4 2*26
",
    report: "\
report 1
history 2
c 1 worker 2 number 1 prefix 0 txn 1
w acct 1 1
c 2 worker 1 number 1 prefix 0 txn 2
w acct 0 9
worker 1 events 1
t 2 try 1 prefix 0 commit 1
l acct 0 0 0
worker 2 events 1
t 1 try 1 prefix 0 commit 1
r acct 0 60
l acct 1 0 0
l acct 0 0 0
audit 2
a acct 0 9
a acct 1 1
end
",
};

pub const SCAN_WITH_OWN_WRITES: Row = Row {
    fuse: None,
    script: "\
namdb 1
header narrow
workers 1
tries 1
tidy off
start 0
overflow 1 1
table t width 1 capacity 4 ring 1
row t 3 30
row t 1 10
row t 7 70
txn 1
put t 2 20
del t 1
scan t 1 3
end
txn 1
scan t 0 18446744073709551614
end
",
    report: "\
report 1
history 1
c 1 worker 1 number 1 prefix 0 txn 1
w t 2 20
w t 1 -
worker 1 events 2
t 1 try 1 prefix 0 commit 1
r t 2 20
r t 3 30
l t 2 0 0
l t 1 0 0
t 2 try 1 prefix 1 read
r t 2 20
r t 3 30
r t 7 70
audit 3
a t 2 20
a t 3 30
a t 7 70
end
",
};

pub const SCAN_BEFORE_OWN_WRITES: Row = Row {
    fuse: None,
    script: "\
namdb 1
header narrow
workers 1
tries 1
tidy off
start 0
overflow 1 1
table t width 1 capacity 4 ring 1
row t 3 30
row t 1 10
row t 7 70
txn 1
scan t 1 3
put t 2 20
del t 1
end
txn 1
scan t 0 18446744073709551614
end
",
    report: "\
report 1
history 1
c 1 worker 1 number 1 prefix 0 txn 1
w t 2 20
w t 1 -
worker 1 events 2
t 1 try 1 prefix 0 commit 1
r t 1 10
r t 3 30
l t 2 0 0
l t 1 0 0
t 2 try 1 prefix 1 read
r t 2 20
r t 3 30
r t 7 70
audit 3
a t 2 20
a t 3 30
a t 7 70
end
",
};

pub const SCAN_SEES_ITS_PREFIX: Row = Row {
    fuse: None,
    script: "\
namdb 1
header narrow
workers 2
tries 1
tidy off
start 0
overflow 1 1
table t width 1 capacity 4 ring 2
row t 0 5
txn 1
put t 1 6
end
txn 2
scan t 0 3
end
turns 2*4 1*19
",
    report: "\
report 1
history 1
c 1 worker 1 number 1 prefix 0 txn 1
w t 1 6
worker 1 events 1
t 1 try 1 prefix 0 commit 1
l t 1 0 0
worker 2 events 1
t 2 try 1 prefix 0 read
r t 0 5
audit 2
a t 0 5
a t 1 6
end
",
};

pub const FUSE_BEFORE_THE_LAST_VERB: Row = Row {
    fuse: Some(41),
    script: "\
namdb 1
header narrow
workers 1
tries 1
tidy off
start 0
overflow 1 1
table acct width 1 capacity 2 ring 1
row acct 0 100
row acct 1 0
txn 1
need acct 0 1 10
add acct 0 1 -10
add acct 1 1 +10
end
",
    report: "\
report 1
history 0
worker 1 events 1
t 1 try 1 prefix 0 cut
r acct 0 100
r acct 0 100
r acct 1 0
l acct 0 0 0
l acct 1 0 0
audit 2
a acct 0 100
a acct 1 0
end
",
};

pub const FUSE_AFTER_THE_LAST_VERB: Row = Row {
    fuse: Some(42),
    script: "\
namdb 1
header narrow
workers 1
tries 1
tidy off
start 0
overflow 1 1
table acct width 1 capacity 2 ring 1
row acct 0 100
row acct 1 0
txn 1
need acct 0 1 10
add acct 0 1 -10
add acct 1 1 +10
end
",
    report: "\
report 1
history 1
c 1 worker 1 number 1 prefix 0 txn 1
w acct 0 90
w acct 1 10
worker 1 events 1
t 1 try 1 prefix 0 commit 1
r acct 0 100
r acct 0 100
r acct 1 0
l acct 0 0 0
l acct 1 0 0
audit 2
a acct 0 90
a acct 1 10
end
",
};

pub const STINTS: Row = Row {
    fuse: None,
    script: "\
namdb 1
header narrow
workers 2
tries 2
tidy off
start 0
overflow 1 1
table acct width 1 capacity 4 ring 2
row acct 0 100
txn 1
add acct 0 1 +5
end
txn 2
add acct 0 1 +7
end
turns 2*22 1*22
",
    report: "\
report 1
history 2
c 1 worker 2 number 1 prefix 0 txn 2
w acct 0 107
c 2 worker 1 number 1 prefix 1 txn 1
w acct 0 112
worker 1 events 1
t 1 try 1 prefix 1 commit 1
r acct 0 107
l acct 0 2 1
worker 2 events 1
t 2 try 1 prefix 0 commit 1
r acct 0 100
l acct 0 0 0
audit 1
a acct 0 112
end
",
};
