ghost use Rattle.std.specs.Prelude.{◌≡◌, ◌<◌, ◌↔◌, ℕ, slice_index_or, length, IsTrue, IsErr, OnOk, OnErr};
ghost use Rattle.nam_io.specs.Faults.{Rose};
ghost use Rattle.nam_line.specs.Plan.{plan_from, new_line, asked_once, refuses_next};

use crate::{Failed, FuseLine, Line, ListLine, UpLine};
use nam_verbs::Verb;
use std::alloc::AllocError;
use std::thread;
use std::thread::Threads;

const VERB: Verb = Verb::Read { at: 0 };

/// Which of the next six verbs a line refuses.
fn refused<L: Line>(line: &mut L) -> [bool; 6] {
    let mut refused = [false; 6];
    for place in refused.iter_mut() {
        *place = line.pass(VERB).is_err();
    }
    refused
}

/// What a line promises, through its trait.
fn ask(line: &mut Box<dyn Line + Send>) -> Result<(), Failed>
    ensures asked { state line.new ≡ asked_once (state line.old) }
    ensures refuses { IsErr result ↔ IsTrue (refuses_next (state line.old)) }
    ensures fault { OnErr result (Rose (faults line.old) (faults line.new)) }
    ensures none { OnOk result (faults line.new ≡ faults line.old) }
{
    line.pass(VERB)
}

/// A line that was not asked yet refuses its first verb where its plan begins there.
fn ask_first(line: &mut Box<dyn Line + Send>) -> Result<(), Failed>
    requires { state line.old ≡ new_line (plan_from 1) }
    ensures { IsErr result }
{
    line.pass(VERB)
}

/// Which of its next six verbs a line refuses, asked through its trait.
fn refused_by_box(line: &mut Box<dyn Line + Send>) -> [bool; 6] {
    let mut refused = [false; 6];
    for place in refused.iter_mut() {
        *place = ask(line).is_err();
    }
    refused
}

/// Asks each line once, each on a thread of its own where one can be made.
fn ask_all<R: Threads + Sync>(rt: &R, lines: &mut [Box<dyn Line + Send>])
    requires { 0 < length lines.old }
    ensures { (i : ℕ) (d : _) (e : _) → i < length lines.old
        → state (slice_index_or lines.new i e) ≡ asked_once (state (slice_index_or lines.old i d)) }
{
    let threads = lines.len();
    thread::for_each_mut(
        rt,
        lines,
        threads,
        &|_, line: &mut Box<dyn Line + Send>|
            ensures { state line.exit.now ≡ asked_once (state line.entry.now) }
        {
            let _ = ask(line);
        },
    );
}

#[test]
fn an_up_line_refuses_none(rt: HostRuntime) {
    assert!(rt; refused(&mut UpLine::new()) == [false; 6]);
    // the count stands still
    assert!(rt; refused(&mut UpLine::after(u64::MAX - 2)) == [false; 6]);
}

#[test]
fn a_fuse_refuses_from_its_number_on(rt: HostRuntime) {
    assert!(rt; refused(&mut FuseLine::new(4)) == [false, false, false, true, true, true]);
    assert!(rt; refused(&mut FuseLine::new(7)) == [false; 6]);
    assert!(rt; refused(&mut FuseLine::new(1)) == [true; 6]);
    assert!(rt; refused(&mut FuseLine::new(0)) == [true; 6]);
}

#[test]
fn the_last_number_is_met_again_and_again(rt: HostRuntime) -> Result<(), AllocError> {
    let last = u64::MAX;
    let mut fuse = FuseLine::after(last, last - 3, 0);
    assert!(rt; refused(&mut fuse) == [false, false, true, true, true, true]);
    let mut fuse = FuseLine::after(5, 4, last - 1);
    assert!(rt; refused(&mut fuse) == [true; 6]);
    let failing = Vec::from_slice(rt.alloc(), &[last - 1])?;
    let mut line = ListLine::after(failing, last - 3, 0);
    assert!(rt; refused(&mut line) == [false, true, false, false, false, false]);
    let failing = Vec::from_slice(rt.alloc(), &[last])?;
    let mut line = ListLine::after(failing, last - 3, last);
    assert!(rt; refused(&mut line) == [false, false, true, true, true, true]);
    Ok(())
}

#[test]
fn a_list_line_refuses_its_numbers_alone(rt: HostRuntime) -> Result<(), AllocError> {
    let failing = Vec::from_slice(rt.alloc(), &[5, 2, 2, 0, 9])?;
    let mut line = ListLine::new(failing);
    assert!(rt; refused(&mut line) == [false, true, false, false, true, false]);
    assert!(rt; refused(&mut line) == [false, false, true, false, false, false]);
    let mut line = ListLine::new(Vec::new(rt.alloc()));
    assert!(rt; refused(&mut line) == [false; 6]);
    Ok(())
}

#[test]
fn each_line_is_asked_through_its_trait(rt: HostRuntime) -> Result<(), AllocError> {
    let alloc = rt.alloc();
    let mut lines: Vec<Box<dyn Line + Send>> = Vec::new(alloc);
    lines.push(Box::new(alloc, UpLine::new())?)?;
    lines.push(Box::new(alloc, FuseLine::new(4))?)?;
    let failing = Vec::from_slice(alloc, &[1, 3])?;
    lines.push(Box::new(alloc, ListLine::new(failing))?)?;
    ask_all(&rt, lines.as_mut_slice());
    // one verb of each was asked for on a thread
    assert!(rt; refused_by_box(&mut lines[0]) == [false; 6]);
    assert!(rt; refused_by_box(&mut lines[1]) == [false, false, true, true, true, true]);
    assert!(rt; refused_by_box(&mut lines[2]) == [false, true, false, false, false, false]);
    Ok(())
}

/// What is in a box is known by what it was made of.
#[test]
fn a_boxed_fuse_is_the_fuse(rt: HostRuntime) -> Result<(), AllocError> {
    let mut line: Box<dyn Line + Send> = Box::new(rt.alloc(), FuseLine::new(1))?;
    assert!(rt; ask_first(&mut line).is_err());
    Ok(())
}
