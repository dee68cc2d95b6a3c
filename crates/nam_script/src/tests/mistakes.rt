//! One-line mistakes, each with the line and the kind that the rules give.

use crate::tests::refuses;
use crate::{Kind, parse};
use std::alloc::{AllocError, Global};
use std::fmt::Write;
use std::test::Fail;

/// A script with each kind of line.
const EACH_LINE: &str = "\
namdb 1
header narrow
workers 2
tries 3
tidy on
start 7
overflow 2 4
table acct width 2 capacity 2 ring 1
table log_1 width 1 capacity 8 ring 2
row acct 0 1 2
row log_1 5 9
txn 1
get acct 0
put acct 1 3 4
add acct 0 2 +5
del acct 1
need acct 0 1 7
guard log_1 3
scan acct 0 3
end
txn 2
add log_1 4 1 -6
end
turns 1*4 2*1000000
turns 2*1
";

/// Mistakes, one to a line: the line's number and its kind, and behind a colon what stands there instead.
const MISTAKES: &str = "\
1 word:namdb 2
1 word:namdb
1 word:namdb 1 
1 word:Namdb 1
1 word:
2 word:header held
2 word:header Narrow
2 word:header
2 word:header wide 1
2 word:workers 2
3 range:workers 0
3 range:workers 17
3 word:workers 01
3 range:workers 18446744073709551616
3 word:workers two
3 word:workers 1 1
4 range:tries 0
4 range:tries 17
4 word:tries -1
4 word:tries  3
5 word:tidy yes
5 word:tidy
6 range:start 4294967296
6 word:start 00
6 word:start +1
7 range:overflow 0 4
7 range:overflow 257 4
7 range:overflow 2 0
7 range:overflow 2 65
7 word:overflow 2
7 word:overflow 2 4 1
8 word:table Acct width 2 capacity 2 ring 1
8 word:table a_name_of_17_lett width 2 capacity 2 ring 1
8 word:table 1acct width 2 capacity 2 ring 1
8 word:table acct wide 2 capacity 2 ring 1
8 range:table acct width 0 capacity 2 ring 1
8 range:table acct width 9 capacity 2 ring 1
8 range:table acct width 2 capacity 0 ring 1
8 range:table acct width 2 capacity 4097 ring 1
8 range:table acct width 2 capacity 2 ring 0
8 range:table acct width 2 capacity 2 ring 17
8 word:table acct width 2 capacity 2
8 word:row acct 0 1 2
9 name:table acct width 1 capacity 8 ring 2
9 name:table acct width 9 capacity 8 ring 2
10 size:row acct 0 1
10 size:row acct 0 1 2 3
10 word:row acct 0
10 word:row acct 0 1 2 3 4 5 6 7 8 9
10 name:row cust 0 1 2
10 range:row acct 18446744073709551615 1 2
10 range:row acct 0 1 18446744073709551616
10 word:row acct  0 1 2
10 word:row acct 0 01 2
11 twice:row acct 0 1 2
11 twice:row acct 0 1
11 range:row acct 18446744073709551615 1
12 range:txn 0
12 range:txn 3
12 word:txn
12 word:end
12 word:get acct 0
13 name:get cust 0
13 name:get cust 18446744073709551615
13 range:get acct 18446744073709551615
13 word:get acct
13 word:get acct 0 0
13 word:end
13 word:txn 1
13 word:row acct 1 1 1
13 word:fly acct 0
14 size:put acct 1 3
14 word:put acct 1
14 name:put cust 1 3 4
14 range:put acct 1 3 18446744073709551616
14 range:put acct 18446744073709551615 3
15 range:add acct 0 0 +5
15 range:add acct 0 3 +5
15 word:add acct 0 2 -0
15 word:add acct 0 2 5
15 word:add acct 0 2 +05
15 range:add acct 0 2 +18446744073709551616
15 name:add cust 0 9 +5
16 name:del cust 1
16 range:del acct 18446744073709551615
16 word:del acct 1 1
17 range:need acct 0 3 7
17 range:need acct 0 1 18446744073709551616
17 word:need acct 0 1
17 name:need cust 0 0 7
18 name:guard cust 3
18 range:guard log_1 18446744073709551615
18 word:guard log_1
19 range:scan acct 3 0
19 range:scan acct 0 18446744073709551615
19 name:scan cust 3 0
19 word:scan acct 0
20 word:end 1
20 word:turns 1*1
24 word:turns
24 range:turns 1*0
24 range:turns 1*1000001
24 range:turns 3*1
24 range:turns 0*1
24 word:turns 1*
24 word:turns 1
24 word:turns 1*1*1
24 word:turns 1*01
24 range:turns 1*18446744073709551616
24 range:seed 1 1000001
24 range:seed 18446744073709551616 1
24 word:seed 1
25 word:seed 1 2
25 word:txn 1
25 word:row acct 1 1 1
";

fn kind_of(word: &str) -> Option<Kind> {
    if word == "word" {
        return Some(Kind::Word);
    }
    if word == "name" {
        return Some(Kind::Name);
    }
    if word == "range" {
        return Some(Kind::Range);
    }
    if word == "twice" {
        return Some(Kind::Twice);
    }
    if word == "size" {
        return Some(Kind::Size);
    }
    None
}

/// The parts of a mistake.
fn parts_of(mistake: &str) -> Option<(u32, Kind, &str)> {
    let (place, line) = mistake.split_once(':')?;
    let (number, kind) = place.split_once(' ')?;
    let number = number.parse::<u32>().ok()?;
    Some((number, kind_of(kind)?, line))
}

/// `EACH_LINE` with another text in one of its lines.
fn with_line(alloc: Global, number: u32, line: &str) -> Result<String, AllocError> {
    let mut text = String::new(alloc);
    let mut place: u32 = 0;
    for old in EACH_LINE.lines() {
        place = place.saturating_add(1);
        let line = if place == number { line } else { old };
        write!(&mut text, "{line}\n")?;
    }
    Ok(text)
}

#[test]
fn each_line_is_taken(rt: HostRuntime) -> Result<(), Fail> {
    parse(rt.alloc(), EACH_LINE.as_bytes())?;
    Ok(())
}

#[test]
fn each_mistake_is_refused_at_its_line(rt: HostRuntime) -> Result<(), Fail> {
    for mistake in MISTAKES.lines() {
        let (number, kind, line) = parts_of(mistake).ok_or("a mistake")?;
        let text = with_line(rt.alloc(), number, line)?;
        assert!(rt;
            refuses(rt.alloc(), text.as_str(), number, kind),
            "{mistake}"
        );
    }
    Ok(())
}
