//! Scans.

ghost use Rattle.std.specs.Prelude.{◌≡◌, ◌<◌, length, is_some, IsSome, IfSome};
ghost use Rattle.nam_verbs.specs.Verb.{address_of};
ghost use Rattle.nam_verbs.specs.Now.{FitsNow, end_now};
ghost use Rattle.nam_verbs.specs.Running.{next_verb, after_found, verbs_left};
ghost use Rattle.nam_catalog.specs.declared.shape.Shape.{Shape};
ghost use Rattle.nam_catalog.specs.Words.{words_of};
ghost use Rattle.nam_calls.specs.Words.{capacity_of};
ghost use Rattle.nam_protocol.specs.Scan.{scan_skip, scan_read, positions_left};
ghost use Rattle.nam_protocol.specs.TxnFits.{ScanFits};
ghost use Rattle.nam_scan.specs.Scan.{scanning, IsScanOf, running, position_after, goes_on};
ghost use Rattle.nam_scan.specs.Scan.{HasKey, HasKeyOrRow, ScanningFits, key_in};

use crate::points::{scan_after, scan_begin, scan_left, scan_read, scan_skip, scan_verb};
use crate::range::ScanRange;
use crate::reading::sight_of;
use nam_calls::Sight;
use nam_layout::Layout;
use nam_protocol::{ScanAnswer, ScanPoint};
use nam_verbs::{Now, Verb};
use si_model::Snapshot;
use std::marker::Model;
use std::mem::replace;

/// A scan of the positions of a table, one after another, for the keys of a range. At each such key its caller says
/// whether it reads there, under the snapshot, or leaves the position.
#[derive(Debug, Drop)]
pub struct Scan {
    range: ScanRange,
    seen: Snapshot,
    position: u32,
    sight: Sight,
    state: Now<ScanPoint, ScanAnswer>,
}

impl Model for Scan {
    ghost use Rattle.nam_scan.specs.Scan.{Scanning, ScanningFits, scanning_at};

    ghost Value = { Scanning };

    ghost view = { λ a. scanning_at a.range a.seen a.position a.sight a.state };

    ghost invariant = { λ a. ScanningFits (scanning_at a.range a.seen a.position a.sight a.state) };
}

// The position at hand once the scan stands there.
fn position_after(position: u32, now: &Now<ScanPoint, ScanAnswer>) -> u32
    ensures { result ≡ position_after position now.now }
{
    match now {
        Now::At(ScanPoint::ScanKey { position } | ScanPoint::ScanRead { position, .. }) =>
            *position,
        Now::Over(_) => position,
    }
}

// An equal answer, made without memory.
fn copied(answer: &ScanAnswer) -> ScanAnswer
    ensures { result ≡ answer.now }
{
    match answer {
        ScanAnswer::Key { key } => ScanAnswer::Key { key: *key },
        ScanAnswer::Row(item) => ScanAnswer::Row(item.copy()),
        ScanAnswer::Done => ScanAnswer::Done,
        ScanAnswer::TooOld {
            worker,
            entry,
            horizon,
        } => ScanAnswer::TooOld {
            worker: *worker,
            entry: *entry,
            horizon: *horizon,
        },
        ScanAnswer::Astray => ScanAnswer::Astray,
    }
}

impl Scan {
    /// The scan of a table of the layout for the keys from `low` to `high`, under a snapshot with an entry for each
    /// worker.
    pub fn new(layout: &Layout, table: u32, low: u64, high: u64, seen: Snapshot) -> Scan
        requires table { table < length layout.now.tables }
        requires seen { length seen ≡ layout.now.workers }
        ensures begins { result ≡ scanning layout.now table low high seen }
        ensures of { IsScanOf layout.now result }
        ensures left { verbs_left (running layout.now result) ≡ positions_left layout.now table
            (capacity_of layout.now table) }
    {
        // A layout's total says that the shape is within its limits: the table has a position.
        let _words = layout.total();
        let capacity = layout.capacity(table);
        Scan {
            range: ScanRange {
                table,
                low,
                high,
                capacity,
            },
            sight: sight_of(layout, seen.len() as u32, table, 0),
            seen,
            position: 0,
            state: Now::At(scan_begin()),
        }
    }

    /// The verb that stands, and none exactly where the scan has answered. It is at a word of the layout's store.
    pub fn verb(&self) -> Option<Verb>
        ensures verb { (shape : Shape) → IsScanOf shape self.now → result ≡ next_verb (running shape self.now) }
        ensures within { (shape : Shape) → IsScanOf shape self.now
            → IfSome result (λ verb. address_of verb < words_of shape) }
    {
        match &self.state {
            Now::At(at) => Some(scan_verb(&self.sight, at)),
            Now::Over(_) => None,
        }
    }

    /// Goes on with the word that the verb found.
    pub fn take(&mut self, layout: &Layout, found: u64)
        requires of { IsScanOf layout.now self.old }
        requires stands { IsSome (next_verb (running layout.now self.old)) }
        ensures value { self.new ≡ goes_on layout.now self.old
            (after_found (running layout.now self.old) found).state }
        ensures of { IsScanOf layout.now self.new }
        ensures after { running layout.now self.new ≡ after_found (running layout.now self.old) found }
        ensures falls { verbs_left (running layout.now self.new) < verbs_left (running layout.now self.old) }
    {
        let now = match replace(&mut self.state, Now::Over(ScanAnswer::Done)) {
            Now::At(at) => scan_after(&self.range, &self.sight, &self.seen, at, found),
            Now::Over(answer) => Now::Over(answer),
        };
        self.go(layout, now);
    }

    /// A number of verbs that are to come at the most before the end, where each key of the range that is still to be
    /// found is read. After an answer there are none.
    pub fn left(&self) -> u64
        ensures { (shape : Shape) → IsScanOf shape self.now → result ≡ verbs_left (running shape self.now) }
    {
        match &self.state {
            Now::At(at) => scan_left(self.range.capacity, &self.sight, at),
            Now::Over(_) => 0,
        }
    }

    /// The position at hand: that of the verb that stands, or of the key or row that was answered.
    #[inline]
    pub fn position(&self) -> u32
        ensures value { result ≡ self.now.position }
        ensures fits { ScanningFits self.now }
    {
        self.position
    }

    /// The table that is scanned.
    #[inline]
    pub fn table(&self) -> u32
        ensures { result ≡ self.now.range.table }
    {
        self.range.table
    }

    /// Whether the scan has answered: no verb stands.
    #[inline]
    pub fn is_over(&self) -> bool
        ensures { result ≡ is_some (end_now self.now.state) }
    {
        match &self.state {
            Now::At(_) => false,
            Now::Over(_) => true,
        }
    }

    /// What the scan found, and none exactly where a verb stands.
    pub fn answer(&self) -> Option<ScanAnswer>
        ensures { result ≡ end_now self.now.state }
    {
        match &self.state {
            Now::At(_) => None,
            Now::Over(answer) => Some(copied(answer)),
        }
    }

    /// Leaves the position whose key or row was answered.
    pub fn skip(&mut self, layout: &Layout)
        requires of { IsScanOf layout.now self.old }
        requires answered { HasKeyOrRow self.old.state }
        ensures value { self.new ≡ goes_on layout.now self.old
            (scan_skip layout.now self.old.range.table self.old.position) }
        ensures of { IsScanOf layout.now self.new }
    {
        self.go(layout, scan_skip(self.range.capacity, self.position));
    }

    /// Reads at the position whose key was answered.
    pub fn read(&mut self, layout: &Layout)
        requires of { IsScanOf layout.now self.old }
        requires answered { HasKey self.old.state }
        ensures value { self.new ≡ goes_on layout.now self.old
            (scan_read self.old.position (key_in self.old.state)) }
        ensures of { IsScanOf layout.now self.new }
    {
        let key = match &self.state {
            Now::Over(ScanAnswer::Key { key }) => *key,
            _ => unreachable!(),
        };
        self.go(layout, scan_read(self.position, key));
    }

    // Goes on there, at this position or at the next.
    fn go(&mut self, layout: &Layout, now: Now<ScanPoint, ScanAnswer>)
        requires of { IsScanOf layout.now self.old }
        requires fits { FitsNow (ScanFits layout.now self.old.range.table) now }
        ensures value { self.new ≡ goes_on layout.now self.old now }
        ensures of { IsScanOf layout.now self.new }
    {
        let position = position_after(self.position, &now);
        if position != self.position {
            let workers = self.seen.len() as u32;
            self.sight = sight_of(layout, workers, self.range.table, position);
            self.position = position;
        }
        self.state = now;
    }
}
