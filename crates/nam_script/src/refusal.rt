//! Why a text is no script.

ghost use Rattle.std.specs.Prelude.{◌≡◌};
ghost use Rattle.nam_script.specs.declared.refusal.ParseEnd.TheVariants.{Memory};
ghost use Rattle.nam_script.specs.declared.refusal.LineEnd.TheVariants as line_end;

use std::alloc::{AllocError, AllocFailed};
use thiserror::Error;

/// What is wrong with a line. A line that has several faults is refused by the first of these.
#[derive(Clone, Copy, Debug, PartialEq, Eq)]
pub enum Kind {
    /// No newline ends the line, or the text ends before this line, where a script cannot end.
    Cut,
    /// The line may not stand here, or is misspelt.
    Word,
    /// The table is not known, or is named a second time.
    Name,
    /// A number is outside its limits.
    Range,
    /// A key of a table is loaded a second time.
    Twice,
    /// There are too many of something, or a value does not have its table's width.
    Size,
    /// The line is not of the JSON form.
    Json,
}

/// Why a line was not taken.
#[derive(Debug, Drop)]
pub enum LineEnd {
    Bad(Kind),
    Memory,
}

impl From<Kind> for LineEnd {
    ghost from_gives = { λ k e. e ≡ line_end.Bad k };

    fn from(kind: Kind) -> LineEnd {
        LineEnd::Bad(kind)
    }
}

impl From<AllocError> for LineEnd {
    ghost from_gives = { λ _ e. e ≡ line_end.Memory };

    fn from(_e: AllocError) -> LineEnd {
        LineEnd::Memory
    }
}

/// Why a script was not read.
#[derive(Debug, Drop, PartialEq, Eq, Error)]
pub enum ParseEnd {
    /// The first line, counted from 1, that no script has here, and the first of its faults.
    #[error("a line is not of a script")]
    Bad { line: u32, kind: Kind },
    #[error("out of memory")]
    Memory,
}

impl From<AllocError> for ParseEnd {
    ghost from_gives = { λ _ e. e ≡ Memory };

    fn from(_e: AllocError) -> ParseEnd {
        ParseEnd::Memory
    }
}

impl<T: Drop> From<AllocFailed<T>> for ParseEnd {
    ghost from_gives = { λ _ e. e ≡ Memory };

    fn from(_e: AllocFailed<T>) -> ParseEnd {
        ParseEnd::Memory
    }
}
