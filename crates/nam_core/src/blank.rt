//! The words of a new store before its rows are loaded.

ghost use Rattle.std.specs.Prelude.{◌≡◌, ◌++◌, ◌≤◌, replicate, OnOk, IfOk, All};
ghost use Rattle.nam_catalog.specs.declared.shape.Table.{Table};
ghost use Rattle.nam_catalog.specs.Fits.{FitsTable};
ghost use Rattle.nam_protocol.specs.Opening.{copies, blank_slot, blank_position, blank_tables, blank_words};

use nam_catalog::bounds::CELL_WORDS;
use nam_catalog::{Shape, Table, intent_words};
use nam_header::MARK;
use nam_layout::Layout;
use std::alloc::{AllocError, Global};

// The header of a position without a version: the loader's stamp, and that it is absent.
const BLANK_HEADER: u64 = 2;

// Appends so many times the same word.
fn push_times(words: &mut Vec<u64>, count: u32, word: u64) -> Result<(), AllocError>
    ensures { OnOk result (words.new.items ≡ words.old.items ++ replicate count word) }
{
    let count = words.len() + count as usize;
    words.resize(count, word)
}

// Appends so many times the same words.
fn push_copies(words: &mut Vec<u64>, count: u32, pattern: &[u64]) -> Result<(), AllocError>
    ensures { OnOk result (words.new.items ≡ words.old.items ++ copies count pattern.now) }
{
    for _ in 0..count {
        words.extend_from_slice(pattern)?;
    }
    Ok(())
}

fn blank_slot(alloc: Global, width: u32) -> Result<Vec<u64>, AllocError>
    ensures { IfOk result (λ words. words.items ≡ blank_slot width) }
{
    let mut words = Vec::new(alloc);
    words.push(MARK)?;
    words.push(0)?;
    push_times(&mut words, width, 0)?;
    Ok(words)
}

fn blank_position(alloc: Global, width: u32, ring: u32) -> Result<Vec<u64>, AllocError>
    ensures { IfOk result (λ words. words.items ≡ blank_position width ring) }
{
    let slot = blank_slot(alloc, width)?;
    let mut words = Vec::new(alloc);
    words.push(0)?;
    words.push(BLANK_HEADER)?;
    words.push(0)?;
    push_times(&mut words, width, 0)?;
    push_copies(&mut words, ring, slot.as_slice())?;
    Ok(words)
}

fn push_tables(alloc: Global, words: &mut Vec<u64>, tables: &[Table]) -> Result<(), AllocError>
    ensures { OnOk result (words.new.items ≡ words.old.items ++ blank_tables tables.now) }
{
    for table in tables {
        let position = blank_position(alloc, table.width, table.ring)?;
        push_copies(words, table.capacity, position.as_slice())?;
    }
    Ok(())
}

/// The words without rows: vector and horizon at the start, no keys, free cells.
pub(crate) fn blank_words(
    alloc: Global,
    shape: &Shape,
    layout: &Layout,
) -> Result<Vec<u64>, AllocError>
    requires { layout.now ≡ shape.now }
    ensures { IfOk result (λ words. words.items ≡ blank_words shape.now) }
{
    let mut words = Vec::with_capacity(alloc, layout.total() as usize)?;
    push_times(&mut words, 2 * shape.workers, shape.start)?;
    push_tables(alloc, &mut words, shape.tables.as_slice())?;
    push_times(
        &mut words,
        shape.buckets * shape.cells * CELL_WORDS as u32,
        0,
    )?;
    push_times(
        &mut words,
        shape.workers * intent_words(shape.form) as u32,
        0,
    )?;
    Ok(words)
}
