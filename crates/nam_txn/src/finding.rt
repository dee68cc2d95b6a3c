//! An operation looks for the position of its key and reads there.

ghost use Rattle.std.specs.Prelude.{◌≡◌, Some};
ghost use Rattle.nam_calls.specs.Reading.{read_begin};
ghost use Rattle.nam_protocol.specs.declared.txn.TxnPoint.TheVariants.{Finding, Reading};
ghost use Rattle.nam_protocol.specs.Txn.{at, on_read};
ghost use Rattle.nam_protocol.specs.TxnCalls.{txn_after};
ghost use Rattle.nam_reader.specs.Reading.{ended};
ghost use Rattle.nam_txn.specs.Txn.{stepped_of, point_of, OpRuns, ReadStands, EndsWide, Keeps};
ghost use Rattle.nam_calls.specs.Words.{width_of};
ghost use Rattle.si_model.specs.Evaluation.{op_key};
ghost use Rattle.nam_txn.specs.declared.step.Step.TheVariants as step;

use crate::registers::Registers;
use crate::step::Step;
use nam_layout::Layout;
use nam_protocol::TxnAnswer;
use nam_reader::ReaderEnd;

impl Registers {
    /// A key word was found.
    #[inline]
    pub fn take_find(&mut self, layout: &Layout, found: u64)
        requires step { self.old.step ≡ step.Finding }
        requires runs { OpRuns layout.now self.old }
        ensures value { stepped_of self.new
            ≡ txn_after layout.now self.old.state (Finding self.old.op self.old.walk.passed) found }
        ensures keeps { Keeps layout.now self.new }
    {
        if found == self.walk.path.key + 1 {
            self.begin_read(layout);
        } else if found == 0 || self.walk.passed + 1 == self.walk.path.capacity {
            self.know(layout, None);
        } else {
            self.walk.pass();
        }
    }

    // The position bears the key.
    fn begin_read(&mut self, layout: &Layout)
        requires runs { OpRuns layout.now self.old }
        ensures value { stepped_of self.new
            ≡ at self.old.state (Reading self.old.op self.old.walk.position read_begin) }
        ensures keeps { Keeps layout.now self.new }
    {
        let key = self.op.key();
        let place = layout.place(key.table, self.walk.position);
        let cells = layout.cells(layout.bucket_of(place.row));
        self.reader
            .begin(&place, &cells, self.state.seen.len() as u32);
        self.step = Step::Reading;
    }

    /// A word of the read was found.
    #[inline]
    pub fn take_read(&mut self, layout: &Layout, found: u64)
        requires step { self.old.step ≡ step.Reading }
        requires runs { OpRuns layout.now self.old }
        requires reads { ReadStands layout.now self.old }
        ensures value { stepped_of self.new ≡ txn_after layout.now self.old.state
            (Reading self.old.op self.old.walk.position (point_of self.old.reader.state)) found }
        ensures keeps { Keeps layout.now self.new }
    {
        self.reader.take(&self.state.seen, found);
        if let Some(end) = self.reader.end() {
            self.end_read(layout, end);
        }
    }

    // The read has ended.
    #[inline(never)]
    fn end_read(&mut self, layout: &Layout, end: ReaderEnd)
        requires runs { OpRuns layout.now self.old }
        requires ended { ended self.old.reader.state ≡ Some end }
        requires wide { EndsWide (width_of layout.now (op_key self.old.op).table) self.old.reader.state }
        ensures value { stepped_of self.new
            ≡ on_read layout.now self.old.state self.old.op self.old.walk.position self.old.reader.state }
        ensures keeps { Keeps layout.now self.new }
    {
        match end {
            ReaderEnd::Present => {
                let value = self.reader.value().copy();
                self.know(layout, Some(value));
            }
            ReaderEnd::Absent => self.know(layout, None),
            ReaderEnd::TooOld {
                worker,
                entry,
                horizon,
            } => self.end(TxnAnswer::TooOld {
                worker,
                entry,
                horizon,
            }),
            ReaderEnd::Astray => self.end(TxnAnswer::Astray),
        }
    }
}
