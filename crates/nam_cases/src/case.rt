//! A case: a script, the lines of its workers, and its report.

ghost use Rattle.std.specs.Prelude.{◌<◌, ◌≤◌, length, IfSome};

use crate::words::{cut_at, number};
use nam_catalog::bounds::MOST_WORKERS;
use nam_line::{FuseLine, Line, ListLine, UpLine};
use nam_script::{ParseEnd, parse};
use nam_simulation::simulated;
use std::alloc::{AllocError, Global};

#[derive(Drop)]
pub struct Case<'a> {
    pub name: &'a str,
    plans: &'a [u8],
    script: &'a [u8],
    report: &'a [u8],
}

/// So many bytes, and those after them.
fn split(bytes: &[u8], count: u64) -> Option<(&[u8], &[u8])>
    ensures { IfSome result (λ parts. length parts.1.now ≤ length bytes.now) }
{
    let count = usize::try_from(count).ok()?;
    if bytes.len() < count {
        return None;
    }
    Some((&bytes[..count], &bytes[count..]))
}

/// What a worker's line refuses.
#[derive(Debug, Drop)]
enum Plan {
    /// Nothing.
    Up,
    /// The verb of this number and all later ones.
    Fuse(u64),
    /// The verbs of these numbers.
    List(Vec<u64>),
}

/// The numbers of a list.
fn list_of(alloc: Global, list: &[u8]) -> Result<Vec<u64>, AllocError> {
    let mut numbers = Vec::new(alloc);
    let mut rest = list;
    while !rest.is_empty() {
        let (word, after) = cut_at(rest, b',');
        numbers.push(number(word).unwrap_or(0))?;
        rest = after;
    }
    Ok(numbers)
}

/// The plan that a word gives the worker's line, if it is that worker's.
fn planned(alloc: Global, word: &[u8], worker: u64) -> Result<Option<Plan>, AllocError> {
    let (of, at) = cut_at(word, b':');
    if number(of) == Some(worker) {
        return Ok(Some(Plan::Fuse(number(at).unwrap_or(0))));
    }
    let (of, list) = cut_at(word, b'=');
    if number(of) == Some(worker) {
        return Ok(Some(Plan::List(list_of(alloc, list)?)));
    }
    Ok(None)
}

/// The plan of a worker's line.
fn plan_of(alloc: Global, plans: &[u8], worker: u64) -> Result<Plan, AllocError> {
    let mut rest = plans;
    while !rest.is_empty() {
        let (word, after) = cut_at(rest, b' ');
        if let Some(plan) = planned(alloc, word, worker)? {
            return Ok(plan);
        }
        rest = after;
    }
    Ok(Plan::Up)
}

impl<'a> Case<'a> {
    /// The first case, and what stands after it.
    pub fn read(bytes: &'a [u8]) -> Option<(Case<'a>, &'a [u8])>
        ensures { IfSome result (λ found. 0 < length bytes.now → length found.1.now < length bytes.now) }
    {
        let (line, rest) = cut_at(bytes, b'\n');
        let (_case, line) = cut_at(line, b' ');
        let (name, line) = cut_at(line, b' ');
        let (of_script, line) = cut_at(line, b' ');
        let (of_report, plans) = cut_at(line, b' ');
        let (script, rest) = split(rest, number(of_script)?)?;
        let (report, rest) = split(rest, number(of_report)?)?;
        let name = str::from_utf8(name).ok()?;
        let case = Case {
            name,
            plans,
            script,
            report,
        };
        Some((case, rest))
    }

    /// Whether the report is that of the simulated run of the script under the lines.
    pub fn agrees(&self, alloc: Global) -> Result<bool, AllocError> {
        let script = match parse(alloc, self.script) {
            Ok(script) => script,
            Err(ParseEnd::Memory) => return Err(AllocError),
            Err(ParseEnd::Bad { .. }) => return Ok(false),
        };
        let mut lines: Vec<Box<dyn Line + Send>> = Vec::new(alloc);
        for before in 0..MOST_WORKERS {
            match plan_of(alloc, self.plans, u64::from(before) + 1)? {
                Plan::Up => lines.push(Box::new(alloc, UpLine::new())?)?,
                Plan::Fuse(at) => lines.push(Box::new(alloc, FuseLine::new(at))?)?,
                Plan::List(failing) => lines.push(Box::new(alloc, ListLine::new(failing))?)?,
            }
        }
        let text = simulated(alloc, &script, lines.as_mut_slice())?;
        Ok(text.as_slice() == self.report)
    }
}
