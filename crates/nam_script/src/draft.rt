//! The script so far, line by line.

ghost use Rattle.std.specs.Prelude.{◌≡◌, ◌==◌, ◌&&◌, ◌<◌, nat_lt, true, IfOk};
ghost use Rattle.nam_text.specs.Token.{is_name};
ghost use Rattle.nam_script.specs.Checks.{place_of, rows_in, misfit};
ghost use Rattle.nam_script.specs.Admit.{Takes, no_body, start, is_held, admit_version, admit_header, admit_workers};
ghost use Rattle.nam_script.specs.Admit.{admit_tries, admit_tidy, admit_start, admit_overflow, admit_table};
ghost use Rattle.nam_script.specs.Admit.{admit_row};

use crate::checks::{Found, all_small, key_of, place_of, within, within_u32};
use crate::line::Numbers;
use crate::refusal::{Kind, LineEnd};
use crate::rows::Rows;
use crate::script::{ScriptTxn, Stint};
use crate::stage::Stage;
use lists::{List, ShortList};
use nam_catalog::bounds::{
    MOST_BUCKETS, MOST_CAPACITY, MOST_CELLS, MOST_RING, MOST_TABLES, MOST_TRIES, MOST_WIDTH,
    MOST_WORKERS,
};
use nam_catalog::{Form, Shape, Table, check, greatest};
use nam_text::{Number, table_name};
use si_model::{Key, Op, Policy, Row};
use std::alloc::Global;

/// What is loaded and run. `worker` and `ops` are those of the open transaction, and `keys` those that it writes or
/// guards; `cost` counts the operations so far, and `steps` the turns.
#[derive(Debug, Drop)]
pub struct Body {
    pub rows: Rows,
    pub txns: List<ScriptTxn>,
    pub worker: u32,
    pub ops: List<Op>,
    pub keys: List<Key>,
    pub cost: u64,
    pub stints: List<Stint>,
    pub steps: u64,
    pub seed: u64,
    pub picks: u32,
}

/// The script of the lines so far.
#[derive(Debug, Drop)]
pub struct Draft {
    pub stage: Stage,
    pub shape: Shape,
    pub policy: Policy,
    pub body: Body,
}

fn no_body(alloc: Global) -> Body
    ensures { result ≡ no_body }
{
    Body {
        rows: Rows::new(alloc),
        txns: List::new(alloc),
        worker: 0,
        ops: List::new(alloc),
        keys: List::new(alloc),
        cost: 0,
        stints: List::new(alloc),
        steps: 0,
        seed: 0,
        picks: 0,
    }
}

fn is_held(form: Form) -> bool
    ensures { result ≡ is_held form }
{
    matches!(form, Form::Held)
}

/// What is wrong with a row that does not fit its table. A key that is given before comes first.
fn misfit(rows: &Rows, table: u32, key: u64) -> Kind
    ensures { result ≡ misfit rows.now table key }
{
    if rows.is_given(table, key) {
        Kind::Twice
    } else {
        Kind::Size
    }
}

impl Draft {
    pub fn new(alloc: Global) -> Draft
        ensures { result ≡ start }
    {
        Draft {
            stage: Stage::Empty,
            shape: Shape {
                form: Form::Narrow,
                workers: 0,
                tables: ShortList::new(),
                buckets: 0,
                cells: 0,
                start: 0,
            },
            policy: Policy {
                tries: 1,
                tidy: false,
            },
            body: no_body(alloc),
        }
    }

    pub fn version(&mut self) -> Result<(), LineEnd>
        ensures { Takes result self.new (admit_version self.old) }
    {
        if !self.stage.is_at(Stage::Empty) {
            return Err(LineEnd::Bad(Kind::Word));
        }
        self.stage = Stage::Version;
        Ok(())
    }

    pub fn header(&mut self, form: Form) -> Result<(), LineEnd>
        ensures { Takes result self.new (admit_header self.old form) }
    {
        if !self.stage.is_at(Stage::Version) {
            return Err(LineEnd::Bad(Kind::Word));
        }
        // Form Held waits for a commit that writes its intents.
        if is_held(form) {
            return Err(LineEnd::Bad(Kind::Word));
        }
        self.shape.form = form;
        self.stage = Stage::Header;
        Ok(())
    }

    pub fn workers(&mut self, workers: Number) -> Result<(), LineEnd>
        ensures { Takes result self.new (admit_workers self.old workers) }
    {
        if !self.stage.is_at(Stage::Header) {
            return Err(LineEnd::Bad(Kind::Word));
        }
        self.shape.workers = within_u32(1, MOST_WORKERS, workers)?;
        self.stage = Stage::Workers;
        Ok(())
    }

    pub fn tries(&mut self, tries: Number) -> Result<(), LineEnd>
        ensures { Takes result self.new (admit_tries self.old tries) }
    {
        if !self.stage.is_at(Stage::Workers) {
            return Err(LineEnd::Bad(Kind::Word));
        }
        self.policy.tries = within_u32(1, MOST_TRIES, tries)?;
        self.stage = Stage::Tries;
        Ok(())
    }

    pub fn tidy(&mut self, on: bool) -> Result<(), LineEnd>
        ensures { Takes result self.new (admit_tidy self.old on) }
    {
        if !self.stage.is_at(Stage::Tries) {
            return Err(LineEnd::Bad(Kind::Word));
        }
        self.policy.tidy = on;
        self.stage = Stage::Tidy;
        Ok(())
    }

    pub fn start(&mut self, start: Number) -> Result<(), LineEnd>
        ensures { Takes result self.new (admit_start self.old start) }
    {
        if !self.stage.is_at(Stage::Tidy) {
            return Err(LineEnd::Bad(Kind::Word));
        }
        self.shape.start = within(0, greatest(self.shape.form), start)?;
        self.stage = Stage::Start;
        Ok(())
    }

    pub fn overflow(&mut self, buckets: Number, cells: Number) -> Result<(), LineEnd>
        ensures { Takes result self.new (admit_overflow self.old buckets cells) }
    {
        if !self.stage.is_at(Stage::Start) {
            return Err(LineEnd::Bad(Kind::Word));
        }
        self.shape.buckets = within_u32(1, MOST_BUCKETS, buckets)?;
        self.shape.cells = within_u32(1, MOST_CELLS, cells)?;
        self.stage = Stage::Overflow;
        Ok(())
    }

    /// Finds a table by its name.
    #[inline(always)]
    pub fn find(&self, name: &[u8]) -> Result<Found, Kind>
        ensures place { result ≡ place_of self.now.shape.tables name.now }
        ensures few { IfOk result (λ found. found.table < 8) }
    {
        place_of(self.shape.tables.as_slice(), name)
    }

    pub fn table(
        &mut self,
        name: &[u8],
        width: Number,
        capacity: Number,
        ring: Number,
    ) -> Result<(), LineEnd>
        requires { is_name name.now ≡ true }
        ensures { Takes result self.new (admit_table self.old name.now width capacity ring) }
    {
        if !self.stage.takes_table() {
            return Err(LineEnd::Bad(Kind::Word));
        }
        if self.find(name).is_ok() {
            return Err(LineEnd::Bad(Kind::Name));
        }
        let width = within_u32(1, MOST_WIDTH, width)?;
        let capacity = within_u32(1, MOST_CAPACITY, capacity)?;
        let ring = within_u32(1, MOST_RING, ring)?;
        if self.shape.tables.len() >= MOST_TABLES {
            return Err(LineEnd::Bad(Kind::Size));
        }
        self.shape.tables.push(Table {
            name: table_name(name),
            width,
            capacity,
            ring,
        });
        // The words in all are the one limit that has not been tried.
        if check(&self.shape).is_err() {
            return Err(LineEnd::Bad(Kind::Size));
        }
        self.stage = Stage::Tables;
        Ok(())
    }

    /// Is there room for a row of a table, and is this its width?
    fn takes_row_of(&self, found: &Found, width: usize) -> bool
        requires { found.now.table < 8 }
        ensures { result ≡ (nat_lt (rows_in self.now.body.rows found.now.table) found.now.capacity
            && width == found.now.width) }
    {
        self.body.rows.count(found.table) < found.capacity && width == found.width as usize
    }

    pub fn row(&mut self, table: &[u8], key: Number, values: Numbers) -> Result<(), LineEnd>
        ensures { Takes result self.new (admit_row self.old table.now key values) }
    {
        if !self.stage.takes_row() {
            return Err(LineEnd::Bad(Kind::Word));
        }
        let found = self.find(table)?;
        let key = key_of(key)?;
        let value = all_small(&values)?;
        if !self.takes_row_of(&found, value.len()) {
            return Err(LineEnd::Bad(misfit(&self.body.rows, found.table, key)));
        }
        let is_new = self.body.rows.push(Row {
            table: found.table,
            key,
            value,
        })?;
        if !is_new {
            return Err(LineEnd::Bad(Kind::Twice));
        }
        self.stage = Stage::Rows;
        Ok(())
    }
}
