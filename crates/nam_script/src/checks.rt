//! The tests of numbers and names.

ghost use Rattle.std.specs.Prelude.{◌≡◌, ◌≤◌, ◌<◌, length, IfOk};
ghost use Rattle.nam_script.specs.Checks.{within, small, all_small, key_of, stint_within, all_stints, place_of};
ghost use Rattle.nam_script.specs.Checks.{total_within, keys_after, steps_of};
ghost use Rattle.nam_script.specs.Admit.{Takes};

use crate::line::{Numbers, SpeltStint};
use crate::refusal::{Kind, LineEnd};
use crate::script::Stint;
use lists::{List, ShortList};
use nam_catalog::Table;
use nam_catalog::bounds::{MOST_KEYS, MOST_STEPS};
use nam_text::Number;
use si_model::{Key, Op, Value};

/// A table among those so far.
#[derive(Clone, Copy, Debug)]
pub struct Found {
    pub table: u32,
    pub width: u32,
    pub capacity: u32,
}

/// The stints of a line.
pub type Stints = ShortList<Stint, 64>;

/// A number from `low` to `high`.
pub fn within(low: u64, high: u64, number: Number) -> Result<u64, Kind>
    ensures { result ≡ within low high number }
{
    match number {
        Some(value) if low <= value && value <= high => Ok(value),
        _ => Err(Kind::Range),
    }
}

pub fn within_u32(low: u32, high: u32, number: Number) -> Result<u32, Kind>
    ensures { result ≡ within low high number }
{
    let value = within(low as u64, high as u64, number)?;
    Ok(value as u32)
}

pub fn small(number: Number) -> Result<u64, Kind>
    ensures { result ≡ small number }
{
    within(0, u64::MAX, number)
}

/// A key is at most 2^64 - 2.
pub fn key_of(number: Number) -> Result<u64, Kind>
    ensures { result ≡ key_of number }
{
    within(0, u64::MAX - 1, number)
}

/// The words, where none is above 2^64 - 1.
pub fn all_small(numbers: &Numbers) -> Result<Value, Kind>
    ensures { result ≡ all_small numbers.now }
{
    let mut values = Value::new();
    for number in numbers.as_slice() {
        match number {
            Some(word) => values.push(*word),
            None => return Err(Kind::Range),
        }
    }
    Ok(values)
}

/// A stint of 1 to 1,000,000 turns of one of the workers.
fn stint_within(workers: u32, spelt: SpeltStint) -> Result<Stint, Kind>
    ensures { result ≡ stint_within workers spelt }
{
    let worker = within_u32(1, workers, spelt.worker)?;
    let steps = within_u32(1, MOST_STEPS, spelt.steps)?;
    Ok(Stint { worker, steps })
}

/// The stints, each within its limits.
pub fn all_stints(workers: u32, spelt: &List<SpeltStint>) -> Result<Stints, Kind>
    requires { length spelt.now ≤ 64 }
    ensures { result ≡ all_stints workers spelt.now }
{
    let mut stints = Stints::new();
    for place in 0..spelt.len() {
        let stint = *spelt.at(place);
        match stint_within(workers, stint) {
            Ok(taken) => stints.push(taken),
            Err(kind) => return Err(kind),
        }
    }
    Ok(stints)
}

/// The turns of all stints.
pub fn steps_of(stints: &[Stint]) -> u64
    requires { length stints.now ≤ 64 }
    ensures { result ≡ steps_of stints.now }
{
    stints.iter().map(|stint| stint.steps as u64).sum()
}

/// The first table of a name.
#[inline(always)]
pub fn place_of(tables: &[Table], name: &[u8]) -> Result<Found, Kind>
    requires { length tables.now ≤ 8 }
    ensures place { result ≡ place_of tables.now name.now }
    ensures few { IfOk result (λ found. found.table < 8) }
{
    for (place, table) in tables.iter().enumerate() {
        if table.name.as_str().as_bytes() == name {
            return Ok(Found {
                table: place as u32,
                width: table.width,
                capacity: table.capacity,
            });
        }
    }
    Err(Kind::Name)
}

/// So many more, where that is not more than `most`.
pub fn total_within(so_far: u64, more: u64, most: u64) -> Result<u64, Kind>
    ensures { result ≡ total_within so_far more most }
{
    match so_far.checked_add(more) {
        Some(sum) if sum <= most => Ok(sum),
        _ => Err(Kind::Size),
    }
}

/// Notes the key that an operation writes or guards, each key once and 16 at the most.
pub fn claim(keys: &mut List<Key>, op: &Op) -> Result<(), LineEnd>
    ensures { Takes result keys.new (keys_after keys.old op.now) }
{
    let Some(key) = op.key_claimed() else {
        return Ok(());
    };
    if keys.as_slice().contains(&key) {
        return Ok(());
    }
    if keys.len() >= MOST_KEYS {
        return Err(LineEnd::Bad(Kind::Size));
    }
    keys.push(key)?;
    Ok(())
}
