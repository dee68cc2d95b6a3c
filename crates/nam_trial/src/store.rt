//! Plain stores.

ghost use Rattle.std.specs.Prelude.{◌≡◌, ◌≤◌, ◌<◌, ◌+◌, ◌^◌, ◌↔◌, [], ◌∷◌, length, slice_index, slice_set};
ghost use Rattle.std.specs.Prelude.{None, IfSome, IsSome, IfOk};
ghost use Rattle.nam_verbs.specs.Verb.{address_of};
ghost use Rattle.nam_verbs.specs.Running.{end_of};
ghost use Rattle.nam_catalog.specs.declared.form.Form.TheVariants.{Narrow};
ghost use Rattle.nam_catalog.specs.Tables.{widths_of, capacities_of, rings_of};
ghost use Rattle.nam_catalog.specs.Limits.{fault_of};
ghost use Rattle.nam_catalog.specs.Fits.{FitsLimits};
ghost use Rattle.nam_layout.specs.PlaceFits.{FitsPlace, FitsCells};

use lists::ShortList;
use nam_catalog::bounds::{MOST_CAPACITY, MOST_WIDTH, MOST_WORDS};
use nam_catalog::{Form, Shape, Table, TableName, check};
use nam_header::MARK;
use nam_layout::{Cells, Layout, Place};
use nam_verbs::{Machine, PlainRegion, Region, Verb};
use std::alloc::{AllocError, Global};
use std::marker::Model;

/// A position without a version.
const BLANK: u64 = 2;

/// A shape of two workers and one table, whose headers are narrow.
pub fn plain_shape(width: u32, capacity: u32, ring: u32, cells: u32) -> Shape
    ensures form { result.form ≡ Narrow }
    ensures workers { result.workers ≡ 2 }
    ensures widths { widths_of result.tables ≡ width ∷ [] }
    ensures capacities { capacities_of result.tables ≡ capacity ∷ [] }
    ensures rings { rings_of result.tables ≡ ring ∷ [] }
    ensures buckets { result.buckets ≡ 1 }
    ensures cells { result.cells ≡ cells }
    ensures start { result.start ≡ 0 }
{
    let mut tables = ShortList::new();
    tables.push(Table {
        name: TableName::from_text("t"),
        width,
        capacity,
        ring,
    });
    Shape {
        form: Form::Narrow,
        workers: 2,
        tables,
        buckets: 1,
        cells,
        start: 0,
    }
}

fn zeros(alloc: Global, count: usize) -> Result<Vec<u64>, AllocError>
    ensures { IfOk result (λ words. length words.items ≡ count) }
{
    vec![in alloc; 0; count]
}

/// A store on plain words. A contract sees it as these words.
#[derive(Debug, Drop)]
pub struct PlainStore {
    shape: Shape,
    layout: Layout,
    region: PlainRegion,
}

impl Model for PlainStore {
    ghost use Rattle.std.specs.Prelude.{◌≡◌, length, List, ℕ};
    ghost use Rattle.nam_catalog.specs.declared.bounds.TheConstants.{MOST_WORDS};

    ghost Value = { List ℕ };

    ghost view = { λ a. a.region };

    ghost invariant = { λ a. (a.layout ≡ a.shape) × (length a.region ≡ MOST_WORDS) };
}

impl PlainStore {
    /// The store of a shape, without rows: blank positions, empty slots and free cells. There is none where the shape
    /// has a fault.
    pub fn new(alloc: Global, shape: Shape) -> Result<Option<PlainStore>, AllocError>
        ensures { IfOk result (λ store. IsSome store ↔ (fault_of shape ≡ None)) }
    {
        if check(&shape).is_err() {
            return Ok(None);
        }
        let layout = Layout::new(&shape);
        let words = zeros(alloc, MOST_WORDS as usize)?;
        let mut store = PlainStore {
            shape,
            layout,
            region: PlainRegion::new(words),
        };
        for table in 0..store.shape.tables.len() {
            store.open(table as u32);
        }
        Ok(Some(store))
    }

    // The positions of a table, up to the first that it doesn't have.
    fn open(&mut self, table: u32) {
        for position in 0..MOST_CAPACITY {
            match self.place(table, position) {
                Some(place) => self.open_place(&place),
                None => return,
            }
        }
    }

    fn open_place(&mut self, place: &Place)
        requires { FitsPlace place.now }
    {
        self.set(place.header_at, BLANK);
        for slot in 0..place.ring {
            self.set(place.slot_header(slot), MARK);
        }
    }

    /// The layout of the store, whose shape is within its limits.
    pub fn layout(&self) -> &Layout
        ensures { FitsLimits result.now }
    {
        let _words = self.layout.total();
        &self.layout
    }

    /// The place of a table's position, where there is one.
    pub fn place(&self, table: u32, position: u32) -> Option<Place>
        ensures { IfSome result FitsPlace }
    {
        if (table as usize) < self.shape.tables.len() && position < self.layout.capacity(table) {
            Some(self.layout.place(table, position))
        } else {
            None
        }
    }

    /// The cells of a bucket, where there is one.
    pub fn cells(&self, bucket: u32) -> Option<Cells>
        ensures { IfSome result FitsCells }
    {
        if bucket < self.shape.buckets {
            Some(self.layout.cells(bucket))
        } else {
            None
        }
    }

    /// Puts a row at a place, under the loader's stamp.
    pub fn load(&mut self, place: &Place, key: u64, value: &[u64])
        requires fits { FitsPlace place.now }
        requires key { key + 1 < 2 ^ 64 }
        requires width { length value.now ≤ MOST_WIDTH }
    {
        self.set(place.key_at, key + 1);
        self.set(place.header_at, 0);
        for (nth, word) in value.iter().enumerate() {
            self.set(place.words_at + nth as u64, *word);
        }
    }

    /// The word at an address, and 0 where there is none.
    pub fn word(&mut self, at: u64) -> u64
        ensures value { at < MOST_WORDS → result ≡ slice_index self.old at }
        ensures unchanged { self.new ≡ self.old }
    {
        if at < MOST_WORDS {
            self.region.verb(Verb::Read { at })
        } else {
            0
        }
    }

    /// Puts a word at an address, where there is one.
    pub fn set(&mut self, at: u64, word: u64)
        ensures there { at < MOST_WORDS → self.new ≡ slice_set self.old at word }
        ensures beyond { MOST_WORDS ≤ at → self.new ≡ self.old }
    {
        if at < MOST_WORDS {
            self.region.verb(Verb::Write { at, word });
        }
    }

    // The word that a verb finds.
    fn verb(&mut self, verb: Verb) -> u64
        requires { address_of verb < MOST_WORDS }
    {
        self.region.verb(verb)
    }

    /// Runs a call to its end, and gives its verbs in order.
    pub fn run<M: Machine>(
        &mut self,
        alloc: Global,
        machine: &mut M,
    ) -> Result<Vec<Verb>, AllocError>
        requires { (M.running machine.old).reach ≤ MOST_WORDS }
        ensures { IfOk result (λ verbs. IsSome (end_of (M.running machine.new))) }
    {
        let mut verbs = Vec::new(alloc);
        while let Some(verb) = machine.verb() {
            verbs.push(verb)?;
            let found = self.verb(verb);
            machine.take(found);
        }
        Ok(verbs)
    }
}
