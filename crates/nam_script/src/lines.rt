//! The lines of a script, each read from its fields and taken at once. The lines of transactions are most of a script:
//! they are read within the loop over all lines, and what settings and values need stays out of it.

ghost use Rattle.nam_text.specs.Fields.{fields_of};
ghost use Rattle.nam_text.specs.Kinds.{line_at};
ghost use Rattle.nam_script.specs.Lines.{version_line, header_line, workers_line, tries_line, tidy_line, start_line};
ghost use Rattle.nam_script.specs.Lines.{overflow_line, table_line, row_line, txn_line, get_line, put_line, add_line};
ghost use Rattle.nam_script.specs.Lines.{del_line, need_line, guard_line, scan_line, end_line, turns_line, seed_line};
ghost use Rattle.nam_script.specs.Lines.{op_of, body_of, word_of, line_of};
ghost use Rattle.nam_script.specs.Admit.{TakesLine, admit};

use crate::draft::Draft;
use crate::parts::{change_at, form_at, stints_at, switch_at, values_at};
use crate::refusal::LineEnd;
use nam_text::{Fields, done, is_word, name_at, number_at, word_at};
use std::alloc::Global;

/// What taking a line gave. None where its fields spell no line.
pub type Taken = Option<Result<(), LineEnd>>;

impl Draft {
    #[inline(never)]
    #[tactic(auto, unfolding(crate::specs::Admit::admit))]
    fn version_line(&mut self, fields: &mut Fields) -> Taken
        ensures { TakesLine result self.new self.old (line_at version_line fields.old) }
    {
        word_at(fields, b"1")?;
        done(fields)?;
        Some(self.version())
    }

    #[inline(never)]
    #[tactic(auto, unfolding(crate::specs::Admit::admit))]
    fn header_line(&mut self, fields: &mut Fields) -> Taken
        ensures { TakesLine result self.new self.old (line_at header_line fields.old) }
    {
        let form = form_at(fields)?;
        done(fields)?;
        Some(self.header(form))
    }

    #[inline(never)]
    #[tactic(auto, unfolding(crate::specs::Admit::admit))]
    fn workers_line(&mut self, fields: &mut Fields) -> Taken
        ensures { TakesLine result self.new self.old (line_at workers_line fields.old) }
    {
        let workers = number_at(fields)?;
        done(fields)?;
        Some(self.workers(workers))
    }

    #[inline(never)]
    #[tactic(auto, unfolding(crate::specs::Admit::admit))]
    fn tries_line(&mut self, fields: &mut Fields) -> Taken
        ensures { TakesLine result self.new self.old (line_at tries_line fields.old) }
    {
        let tries = number_at(fields)?;
        done(fields)?;
        Some(self.tries(tries))
    }

    #[inline(never)]
    #[tactic(auto, unfolding(crate::specs::Admit::admit))]
    fn tidy_line(&mut self, fields: &mut Fields) -> Taken
        ensures { TakesLine result self.new self.old (line_at tidy_line fields.old) }
    {
        let on = switch_at(fields)?;
        done(fields)?;
        Some(self.tidy(on))
    }

    #[inline(never)]
    #[tactic(auto, unfolding(crate::specs::Admit::admit))]
    fn start_line(&mut self, fields: &mut Fields) -> Taken
        ensures { TakesLine result self.new self.old (line_at start_line fields.old) }
    {
        let start = number_at(fields)?;
        done(fields)?;
        Some(self.start(start))
    }

    #[inline(never)]
    #[tactic(auto, unfolding(crate::specs::Admit::admit))]
    fn overflow_line(&mut self, fields: &mut Fields) -> Taken
        ensures { TakesLine result self.new self.old (line_at overflow_line fields.old) }
    {
        let buckets = number_at(fields)?;
        let cells = number_at(fields)?;
        done(fields)?;
        Some(self.overflow(buckets, cells))
    }

    #[inline(never)]
    #[tactic(auto, unfolding(crate::specs::Admit::admit))]
    fn table_line(&mut self, fields: &mut Fields) -> Taken
        ensures { TakesLine result self.new self.old (line_at table_line fields.old) }
    {
        let name = name_at(fields)?;
        word_at(fields, b"width")?;
        let width = number_at(fields)?;
        word_at(fields, b"capacity")?;
        let capacity = number_at(fields)?;
        word_at(fields, b"ring")?;
        let ring = number_at(fields)?;
        done(fields)?;
        Some(self.table(name, width, capacity, ring))
    }

    #[inline(never)]
    #[tactic(auto, unfolding(crate::specs::Admit::admit))]
    fn row_line(&mut self, fields: &mut Fields) -> Taken
        ensures { TakesLine result self.new self.old (line_at row_line fields.old) }
    {
        let table = name_at(fields)?;
        let key = number_at(fields)?;
        let values = values_at(fields)?;
        Some(self.row(table, key, values))
    }

    #[inline(always)]
    #[tactic(auto, unfolding(crate::specs::Admit::admit))]
    fn txn_line(&mut self, fields: &mut Fields) -> Taken
        ensures { TakesLine result self.new self.old (line_at txn_line fields.old) }
    {
        let worker = number_at(fields)?;
        done(fields)?;
        Some(self.txn(worker))
    }

    #[inline(always)]
    #[tactic(auto, unfolding(crate::specs::Admit::admit))]
    fn get_line(&mut self, fields: &mut Fields) -> Taken
        ensures { TakesLine result self.new self.old (line_at get_line fields.old) }
    {
        let table = name_at(fields)?;
        let key = number_at(fields)?;
        done(fields)?;
        Some(self.get(table, key))
    }

    #[inline(never)]
    #[tactic(auto, unfolding(crate::specs::Admit::admit))]
    fn put_line(&mut self, fields: &mut Fields) -> Taken
        ensures { TakesLine result self.new self.old (line_at put_line fields.old) }
    {
        let table = name_at(fields)?;
        let key = number_at(fields)?;
        let values = values_at(fields)?;
        Some(self.put(table, key, values))
    }

    #[inline(always)]
    #[tactic(auto, unfolding(crate::specs::Admit::admit))]
    fn add_line(&mut self, fields: &mut Fields) -> Taken
        ensures { TakesLine result self.new self.old (line_at add_line fields.old) }
    {
        let table = name_at(fields)?;
        let key = number_at(fields)?;
        let field = number_at(fields)?;
        let change = change_at(fields)?;
        done(fields)?;
        Some(self.add(table, key, field, change))
    }

    #[tactic(auto, unfolding(crate::specs::Admit::admit))]
    fn del_line(&mut self, fields: &mut Fields) -> Taken
        ensures { TakesLine result self.new self.old (line_at del_line fields.old) }
    {
        let table = name_at(fields)?;
        let key = number_at(fields)?;
        done(fields)?;
        Some(self.del(table, key))
    }

    #[inline(always)]
    #[tactic(auto, unfolding(crate::specs::Admit::admit))]
    fn need_line(&mut self, fields: &mut Fields) -> Taken
        ensures { TakesLine result self.new self.old (line_at need_line fields.old) }
    {
        let table = name_at(fields)?;
        let key = number_at(fields)?;
        let field = number_at(fields)?;
        let least = number_at(fields)?;
        done(fields)?;
        Some(self.need(table, key, field, least))
    }

    #[tactic(auto, unfolding(crate::specs::Admit::admit))]
    fn guard_line(&mut self, fields: &mut Fields) -> Taken
        ensures { TakesLine result self.new self.old (line_at guard_line fields.old) }
    {
        let table = name_at(fields)?;
        let key = number_at(fields)?;
        done(fields)?;
        Some(self.guard(table, key))
    }

    #[tactic(auto, unfolding(crate::specs::Admit::admit))]
    fn scan_line(&mut self, fields: &mut Fields) -> Taken
        ensures { TakesLine result self.new self.old (line_at scan_line fields.old) }
    {
        let table = name_at(fields)?;
        let low = number_at(fields)?;
        let high = number_at(fields)?;
        done(fields)?;
        Some(self.scan(table, low, high))
    }

    #[inline(always)]
    #[tactic(auto, unfolding(crate::specs::Admit::admit))]
    fn end_line(&mut self, alloc: Global, fields: &mut Fields) -> Taken
        ensures { TakesLine result self.new self.old (line_at end_line fields.old) }
    {
        done(fields)?;
        Some(self.end(alloc))
    }

    #[inline(never)]
    #[tactic(auto, unfolding(crate::specs::Admit::admit))]
    fn turns_line(&mut self, alloc: Global, fields: &mut Fields) -> Taken
        ensures { TakesLine result self.new self.old (line_at turns_line fields.old) }
    {
        match stints_at(alloc, fields) {
            Ok(stints) => Some(self.turns(&stints?)),
            Err(_) => Some(Err(LineEnd::Memory)),
        }
    }

    #[inline(never)]
    #[tactic(auto, unfolding(crate::specs::Admit::admit))]
    fn seed_line(&mut self, fields: &mut Fields) -> Taken
        ensures { TakesLine result self.new self.old (line_at seed_line fields.old) }
    {
        let seed = number_at(fields)?;
        let picks = number_at(fields)?;
        done(fields)?;
        Some(self.seed(seed, picks))
    }

    /// An operation, by its first word.
    #[tactic(auto, unfolding(crate::specs::Lines::op_of))]
    fn admit_op(&mut self, word: &[u8], fields: &mut Fields) -> Taken
        ensures { TakesLine result self.new self.old (op_of word.now fields.old) }
    {
        if is_word(word, b"get") {
            self.get_line(fields)
        } else if is_word(word, b"put") {
            self.put_line(fields)
        } else if is_word(word, b"add") {
            self.add_line(fields)
        } else if is_word(word, b"del") {
            self.del_line(fields)
        } else if is_word(word, b"need") {
            self.need_line(fields)
        } else if is_word(word, b"guard") {
            self.guard_line(fields)
        } else if is_word(word, b"scan") {
            self.scan_line(fields)
        } else {
            None
        }
    }

    /// A line behind the settings, by its first word.
    #[tactic(auto, unfolding(crate::specs::Lines::body_of))]
    fn admit_body(&mut self, alloc: Global, word: &[u8], fields: &mut Fields) -> Taken
        ensures { TakesLine result self.new self.old (body_of word.now fields.old) }
    {
        if is_word(word, b"table") {
            self.table_line(fields)
        } else if is_word(word, b"row") {
            self.row_line(fields)
        } else if is_word(word, b"txn") {
            self.txn_line(fields)
        } else if is_word(word, b"end") {
            self.end_line(alloc, fields)
        } else if is_word(word, b"turns") {
            self.turns_line(alloc, fields)
        } else if is_word(word, b"seed") {
            self.seed_line(fields)
        } else {
            self.admit_op(word, fields)
        }
    }

    /// A line by its first word.
    #[tactic(auto, unfolding(crate::specs::Lines::word_of))]
    fn admit_word(&mut self, alloc: Global, word: &[u8], fields: &mut Fields) -> Taken
        ensures { TakesLine result self.new self.old (word_of word.now fields.old) }
    {
        if is_word(word, b"namdb") {
            self.version_line(fields)
        } else if is_word(word, b"header") {
            self.header_line(fields)
        } else if is_word(word, b"workers") {
            self.workers_line(fields)
        } else if is_word(word, b"tries") {
            self.tries_line(fields)
        } else if is_word(word, b"tidy") {
            self.tidy_line(fields)
        } else if is_word(word, b"start") {
            self.start_line(fields)
        } else if is_word(word, b"overflow") {
            self.overflow_line(fields)
        } else {
            self.admit_body(alloc, word, fields)
        }
    }

    /// A line by its first word. What else transactions have comes first.
    #[inline(never)]
    #[tactic(auto, using(crate::proofs::FirstWords::next_words))]
    fn admit_fields(&mut self, alloc: Global, word: &[u8], fields: Fields) -> Taken
        ensures { TakesLine result self.new self.old (word_of word.now fields.entry) }
    {
        let mut fields = fields;
        if is_word(word, b"put") {
            self.put_line(&mut fields)
        } else if is_word(word, b"del") {
            self.del_line(&mut fields)
        } else {
            self.admit_word(alloc, word, &mut fields)
        }
    }

    /// Takes the line that a text spells. Most lines are of transactions, so their words come first.
    #[inline(always)]
    #[tactic(auto, using(crate::proofs::FirstWords::first_words))]
    pub fn admit_line(&mut self, alloc: Global, text: &[u8]) -> Taken
        ensures { TakesLine result self.new self.old (line_of (fields_of text.now)) }
    {
        let mut fields = Fields::new(text);
        let word = fields.next()?;
        if is_word(word, b"add") {
            self.add_line(&mut fields)
        } else if is_word(word, b"need") {
            self.need_line(&mut fields)
        } else if is_word(word, b"get") {
            self.get_line(&mut fields)
        } else if is_word(word, b"txn") {
            self.txn_line(&mut fields)
        } else if is_word(word, b"end") {
            self.end_line(alloc, &mut fields)
        } else {
            self.admit_fields(alloc, word, fields)
        }
    }
}
