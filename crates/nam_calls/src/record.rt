//! The current version of a record: reading it, and installing the next one.

ghost use Rattle.std.specs.Prelude.{◌≡◌};

use si_model::Value;

/// Where the reading of a current version stands.
#[derive(Debug, Drop)]
pub enum CurrentPoint {
    /// Read the header.
    CurrentHead,
    /// Read the data word after those got.
    CurrentWords { header: u64, got: Value },
    /// Read the header again.
    CurrentAgain { header: u64, value: Value },
}

/// How the reading of a current version ended.
#[derive(Debug, Drop, PartialEq, Eq)]
pub enum CurrentEnd {
    /// The version is visible and whole; a deletion has no value.
    Found(Option<Value>),
    /// It was locked at one of the two looks, so that the words may be those of the next version.
    Unsure { value: Value, header: u64 },
    /// It is not visible, or another took its place: older versions are to be searched.
    GoOld,
}

impl CurrentEnd {
    /// An equal end, made without memory.
    pub fn copy(&self) -> CurrentEnd
        ensures { result ≡ self.now }
    {
        match self {
            CurrentEnd::Found(None) => CurrentEnd::Found(None),
            CurrentEnd::Found(Some(value)) => CurrentEnd::Found(Some(value.copy())),
            CurrentEnd::Unsure { value, header } => CurrentEnd::Unsure {
                value: value.copy(),
                header: *header,
            },
            CurrentEnd::GoOld => CurrentEnd::GoOld,
        }
    }
}

/// Where an install stands.
#[derive(Clone, Copy, Debug, PartialEq, Eq)]
pub enum InstallPoint {
    /// Write a data word.
    InstallWord { nth: u32 },
    /// Write the number of the version.
    InstallCount,
    /// Write the header.
    InstallHead,
}
