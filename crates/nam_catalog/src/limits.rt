//! Whether a store can have a shape.

ghost use Rattle.std.specs.Prelude.{◌≡◌, ◌<◌, ◌≤◌, [], length, None, Some, IfSome, OnOk, MatchResult, option_map};
ghost use Rattle.nam_catalog.specs.Limits.{fault_if, is_outside, first_table, first_twice_named, limit_fault_of};
ghost use Rattle.nam_catalog.specs.Limits.{fault_of};
ghost use Rattle.nam_catalog.specs.declared.fault.ShapeFault.TheVariants.{BadWidth, BadCapacity, BadRing, TwiceNamed};
ghost use Rattle.nam_catalog.specs.Words.{words_of};
ghost use Rattle.nam_catalog.specs.Fits.{FitsLimits};

use crate::bounds::{
    MOST_BUCKETS, MOST_CAPACITY, MOST_CELLS, MOST_RING, MOST_TABLES, MOST_WIDTH, MOST_WORDS,
    MOST_WORKERS,
};
use crate::fault::ShapeFault;
use crate::form::greatest;
use crate::names::first_twice_named;
use crate::shape::{Shape, Table};
use crate::words::words;

/// The number of words that a store of the shape takes, or else the first fault of the shape: in the order of
/// `ShapeFault`, and each fault of a table tried at all tables before the next fault.
pub fn check(shape: &Shape) -> Result<u64, ShapeFault>
    ensures exact { MatchResult result
        (λ words. (fault_of shape.now ≡ None) × (words ≡ words_of shape.now))
        (λ fault. fault_of shape.now ≡ Some fault) }
    ensures fits { OnOk result (FitsLimits shape.now) }
    ensures tables { length shape.now.tables ≤ 8 }
{
    if let Some(fault) = limit_fault(shape) {
        return Err(fault);
    }
    let words = words(shape);
    if words > MOST_WORDS {
        return Err(ShapeFault::TooManyWords);
    }
    Ok(words)
}

/// The first fault but for the words of the whole.
fn limit_fault(shape: &Shape) -> Option<ShapeFault>
    ensures first { result ≡ limit_fault_of shape.now }
    ensures tables { length shape.now.tables ≤ 8 }
{
    let tables = shape.tables.as_slice();
    fault_if(shape.workers == 0, ShapeFault::NoWorkers)
        .or(fault_if(shape.workers > MOST_WORKERS, ShapeFault::TooManyWorkers))
        .or(fault_if(tables.is_empty(), ShapeFault::NoTables))
        .or(width_fault(tables))
        .or(capacity_fault(tables))
        .or(ring_fault(tables))
        .or(fault_if(
            is_outside(MOST_BUCKETS, shape.buckets),
            ShapeFault::BadBuckets,
        ))
        .or(fault_if(is_outside(MOST_CELLS, shape.cells), ShapeFault::BadCells))
        .or(fault_if(shape.start > greatest(shape.form), ShapeFault::BadStart))
        .or(name_fault(tables))
}

fn fault_if(bad: bool, fault: ShapeFault) -> Option<ShapeFault>
    ensures { result ≡ fault_if bad fault }
{
    bad.then_some(fault)
}

fn is_outside(greatest: u32, number: u32) -> bool
    ensures { result ≡ is_outside greatest number }
{
    number == 0 || number > greatest
}

fn width_fault(tables: &[Table]) -> Option<ShapeFault>
    requires { length tables.now ≤ MOST_TABLES }
    ensures { result ≡ option_map BadWidth (first_table (λ t. is_outside MOST_WIDTH t.width) tables.now) }
{
    let table = first_bad_width(tables)?;
    Some(ShapeFault::BadWidth {
        table: table as u32,
    })
}

fn first_bad_width(tables: &[Table]) -> Option<usize>
    ensures first { result ≡ first_table (λ t. is_outside MOST_WIDTH t.width) tables.now }
    ensures within { IfSome result (λ table. table < length tables.now) }
{
    tables
        .iter()
        .position(|table| is_outside(MOST_WIDTH, table.width))
}

fn capacity_fault(tables: &[Table]) -> Option<ShapeFault>
    requires { length tables.now ≤ MOST_TABLES }
    ensures { result ≡ option_map BadCapacity (first_table (λ t. is_outside MOST_CAPACITY t.capacity) tables.now) }
{
    let table = first_bad_capacity(tables)?;
    Some(ShapeFault::BadCapacity {
        table: table as u32,
    })
}

fn first_bad_capacity(tables: &[Table]) -> Option<usize>
    ensures first { result ≡ first_table (λ t. is_outside MOST_CAPACITY t.capacity) tables.now }
    ensures within { IfSome result (λ table. table < length tables.now) }
{
    tables
        .iter()
        .position(|table| is_outside(MOST_CAPACITY, table.capacity))
}

fn ring_fault(tables: &[Table]) -> Option<ShapeFault>
    requires { length tables.now ≤ MOST_TABLES }
    ensures { result ≡ option_map BadRing (first_table (λ t. is_outside MOST_RING t.ring) tables.now) }
{
    let table = first_bad_ring(tables)?;
    Some(ShapeFault::BadRing {
        table: table as u32,
    })
}

fn first_bad_ring(tables: &[Table]) -> Option<usize>
    ensures first { result ≡ first_table (λ t. is_outside MOST_RING t.ring) tables.now }
    ensures within { IfSome result (λ table. table < length tables.now) }
{
    tables
        .iter()
        .position(|table| is_outside(MOST_RING, table.ring))
}

fn name_fault(tables: &[Table]) -> Option<ShapeFault>
    requires { length tables.now ≤ MOST_TABLES }
    ensures { result ≡ option_map TwiceNamed (first_twice_named [] 0 tables.now) }
{
    let table = first_twice_named(tables)?;
    Some(ShapeFault::TwiceNamed {
        table: table as u32,
    })
}
