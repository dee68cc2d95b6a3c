//! Layouts.

ghost use Rattle.std.specs.Prelude.{◌≡◌, ◌+◌, ◌≤◌, ◌<◌, length, slice_index, nat_lt, Some, None, IfSome};
ghost use Rattle.std.specs.Prelude.{if◌then◌else◌};
ghost use Rattle.nam_catalog.specs.declared.form.Form.TheVariants.{Held};
ghost use Rattle.nam_catalog.specs.Tables.{capacities_of};
ghost use Rattle.nam_catalog.specs.Words.{words_of};
ghost use Rattle.nam_catalog.specs.Limits.{fault_of};
ghost use Rattle.nam_catalog.specs.Fits.{FitsLimits};
ghost use Rattle.nam_layout.specs.declared.field.Field.TheVariants.{Entry, Horizon, Intent};
ghost use Rattle.nam_layout.specs.RowLaw.{IsPosition};
ghost use Rattle.nam_layout.specs.Address.{IsWorker, address};
ghost use Rattle.nam_layout.specs.FieldAt.{field_at};
ghost use Rattle.nam_layout.specs.Place.{place_at, place_of, cells_of, bucket_of};
ghost use Rattle.nam_layout.specs.Rows.{rows_in};
ghost use Rattle.nam_layout.specs.PlaceFits.{FitsPlace, FitsCells};

use crate::address::horizon_at;
use crate::extent::{Extent, Extents, field_in, lay_out, place_in, position_in};
use crate::field::{Cells, Field, Place};
use crate::within::{field_in_cells, field_in_intents};
use lists::ShortList;
use nam_catalog::bounds::{CELL_WORDS, INTENT_WORDS, MOST_TABLES, MOST_WORDS};
use nam_catalog::{Form, Shape, Table, intent_words};
use std::marker::Model;

/// Where the words of a shape stand. A contract sees it as the shape.
#[derive(Debug, Drop)]
pub struct Layout {
    shape: Shape,
    extents: ShortList<Extent, MOST_TABLES>,
    cells_at: u64,
    intents_at: u64,
    total: u64,
}

impl Model for Layout {
    ghost use Rattle.nam_catalog.specs.declared.shape.Shape.{Shape};
    ghost use Rattle.nam_layout.specs.Laid.{IsLaidOut};

    ghost Value = { Shape };

    ghost view = { λ a. a.shape };

    ghost invariant = { λ a. IsLaidOut a.shape a.extents a.cells_at a.intents_at a.total };
}

/// An equal list, made without memory.
fn copied(tables: &[Table]) -> ShortList<Table, MOST_TABLES>
    requires { length tables.now ≤ MOST_TABLES }
    ensures { result ≡ tables.now }
{
    let mut copied = ShortList::new();
    for table in tables {
        copied.push(Table {
            name: table.name.copy(),
            width: table.width,
            capacity: table.capacity,
            ring: table.ring,
        });
    }
    copied
}

impl Layout {
    /// The layout of a shape that has no fault.
    pub fn new(shape: &Shape) -> Layout
        requires { fault_of shape.now ≡ None }
        ensures { result ≡ shape.now }
    {
        let workers = shape.workers as u64;
        let Extents { extents, after } = lay_out(shape.tables.as_slice(), 2 * workers);
        let intents_at = after + shape.buckets as u64 * shape.cells as u64 * CELL_WORDS;
        Layout {
            shape: Shape {
                form: shape.form,
                workers: shape.workers,
                tables: copied(shape.tables.as_slice()),
                buckets: shape.buckets,
                cells: shape.cells,
                start: shape.start,
            },
            extents,
            cells_at: after,
            intents_at,
            total: intents_at + workers * intent_words(shape.form),
        }
    }

    /// How many words the shape takes. The shape is within its limits.
    pub fn total(&self) -> u64
        ensures value { result ≡ words_of self.now }
        ensures fits { FitsLimits self.now }
    {
        self.total
    }

    /// The form of the shape's headers.
    pub fn form(&self) -> Form
        ensures { result ≡ self.now.form }
    {
        self.shape.form
    }

    /// How many positions a table has.
    pub fn capacity(&self, table: u32) -> u32
        requires { table < length self.now.tables }
        ensures { result ≡ slice_index (capacities_of self.now.tables) table }
    {
        self.extents.at(table as usize).capacity
    }

    /// The address of a worker's entry of the vector.
    pub fn entry_at(&self, worker: u32) -> u64
        requires { IsWorker self.now worker }
        ensures { result ≡ address self.now (Entry worker) }
    {
        worker as u64 - 1
    }

    /// The address of a worker's entry of the horizon.
    pub fn horizon_at(&self, worker: u32) -> u64
        requires { IsWorker self.now worker }
        ensures { result ≡ address self.now (Horizon worker) }
    {
        horizon_at(self.shape.workers, worker)
    }

    /// The place of a table's position, which is within the limits of places.
    pub fn place(&self, table: u32, position: u32) -> Place
        requires { IsPosition self.now.tables table position }
        ensures value { result ≡ place_of self.now table position }
        ensures fits { FitsPlace result }
    {
        place_in(self.extents.at(table as usize), position, self.shape.form)
    }

    /// The place of a row, which is within the limits of places, and none where the word is no row.
    pub fn place_of_row(&self, row: u64) -> Option<Place>
        ensures value { result ≡ (if nat_lt row (rows_in self.now.tables) then Some (place_at self.now row) else None) }
        ensures fits { IfSome result FitsPlace }
    {
        match position_in(self.extents.as_slice(), row) {
            Some((table, position)) => Some(self.place(table, position)),
            None => None,
        }
    }

    /// The cells of a bucket, which are within the limits of cells.
    pub fn cells(&self, bucket: u32) -> Cells
        requires { bucket < self.now.buckets }
        ensures value { result ≡ cells_of self.now bucket }
        ensures fits { FitsCells result }
    {
        let cells = self.shape.cells;
        Cells {
            bucket,
            first: self.cells_at + bucket as u64 * cells as u64 * CELL_WORDS,
            cells,
            form: self.shape.form,
        }
    }

    /// The bucket whose cells a row uses.
    pub fn bucket_of(&self, row: u32) -> u32
        ensures value { result ≡ bucket_of self.now row }
        ensures within { result < self.now.buckets }
    {
        row % self.shape.buckets
    }

    /// The address of the first word of a worker's intent, in the form that has intents.
    pub fn intent_at(&self, worker: u32) -> u64
        requires form { self.now.form ≡ Held }
        requires worker { IsWorker self.now worker }
        ensures value { result ≡ address self.now (Intent worker 0) }
        ensures fits { result + INTENT_WORDS ≤ MOST_WORDS }
    {
        self.intents_at + (worker as u64 - 1) * intent_words(self.shape.form)
    }

    /// The field that stands at an address below the total.
    pub fn field_of(&self, address: u64) -> Field
        requires { address < words_of self.now }
        ensures { result ≡ field_at self.now address }
    {
        let workers = self.shape.workers as u64;
        if address < workers {
            Field::Entry {
                worker: address as u32 + 1,
            }
        } else if address < 2 * workers {
            Field::Horizon {
                worker: (address - workers) as u32 + 1,
            }
        } else if address < self.cells_at {
            field_in(self.extents.as_slice(), address)
        } else if address < self.intents_at {
            field_in_cells(self.shape.cells, address - self.cells_at)
        } else {
            field_in_intents(intent_words(self.shape.form), address - self.intents_at)
        }
    }
}
