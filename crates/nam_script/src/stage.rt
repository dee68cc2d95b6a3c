//! Which lines may come next.

ghost use Rattle.std.specs.Prelude.{◌≡◌};
ghost use Rattle.nam_script.specs.Stages.{rank, is_at, takes_table, takes_row, is_loaded, takes_turns, can_end};

/// What the last line was, and so which lines may come next.
#[derive(Clone, Copy, Debug)]
pub enum Stage {
    Empty,
    Version,
    Header,
    Workers,
    Tries,
    Tidy,
    Start,
    Overflow,
    Tables,
    Rows,
    /// A transaction is open.
    Open,
    /// A transaction has ended.
    Between,
    Turns,
    Seed,
}

impl Stage {
    fn rank(self) -> u32
        ensures { result ≡ rank self }
    {
        self as u32
    }

    pub fn is_at(self, other: Stage) -> bool
        ensures { result ≡ is_at self other }
    {
        self.rank() == other.rank()
    }

    pub fn takes_table(self) -> bool
        ensures { result ≡ takes_table self }
    {
        self.is_at(Stage::Overflow) || self.is_at(Stage::Tables)
    }

    pub fn takes_row(self) -> bool
        ensures { result ≡ takes_row self }
    {
        self.is_at(Stage::Tables) || self.is_at(Stage::Rows)
    }

    /// May the loaded rows and the transactions so far be all?
    pub fn is_loaded(self) -> bool
        ensures { result ≡ is_loaded self }
    {
        self.takes_row() || self.is_at(Stage::Between)
    }

    pub fn takes_turns(self) -> bool
        ensures { result ≡ takes_turns self }
    {
        self.is_loaded() || self.is_at(Stage::Turns)
    }

    /// May a script end here?
    pub fn can_end(self) -> bool
        ensures { result ≡ can_end self }
    {
        self.takes_turns() || self.is_at(Stage::Seed)
    }
}
