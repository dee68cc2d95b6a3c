//! How a call of the program ends.

ghost use Rattle.std.specs.Prelude.{◌≡◌};
ghost use Rattle.std.specs.Process.{exit_status};
ghost use Rattle.namdb.specs.declared.status.Status.TheVariants.{Memory};
ghost use Rattle.namdb.specs.Status.{code_of, kind_word, status_of_read, status_of_parse};

use nam_io::ReadEnd;
use nam_script::{Kind, ParseEnd};
use std::alloc::AllocError;
use std::process::{ExitCode, Termination};

/// How a call of the program ended. Each status but `Done`, `WriteFault` and `Memory` writes a line of its own.
#[derive(Clone, Copy, Debug, PartialEq, Eq)]
pub enum Status {
    /// The report was written.
    Done,
    /// The words are none that the program knows.
    Usage,
    /// The input is no script: its first line, counted from 1, that no script has there, and what is wrong with it.
    BadScript { line: u32, kind: Kind },
    /// The source failed.
    ReadFault,
    /// The sink failed, and took a front of what was to be written.
    WriteFault,
    /// Memory ran out, and nothing was written.
    Memory,
    /// The input has more bytes than are taken.
    TooLong,
}

impl Termination for Status {
    /// The exit code of the process.
    fn report<R: Eprint>(self, _rt: &R) -> ExitCode
        ensures { exit_status result ≡ code_of self }
    {
        let code: u8 = match self {
            Status::Done => 0,
            Status::Usage => 2,
            Status::BadScript { .. } => 3,
            Status::ReadFault => 4,
            Status::WriteFault => 5,
            Status::Memory => 6,
            Status::TooLong => 7,
        };
        ExitCode::from(code)
    }
}

impl From<ReadEnd> for Status {
    ghost from_gives = { λ end status. status ≡ status_of_read end };

    fn from(end: ReadEnd) -> Status {
        match end {
            ReadEnd::ReadFault => Status::ReadFault,
            ReadEnd::TooLong => Status::TooLong,
            ReadEnd::Memory => Status::Memory,
        }
    }
}

impl From<ParseEnd> for Status {
    ghost from_gives = { λ end status. status ≡ status_of_parse end };

    fn from(end: ParseEnd) -> Status {
        match end {
            ParseEnd::Bad { line, kind } => Status::BadScript { line, kind },
            ParseEnd::Memory => Status::Memory,
        }
    }
}

impl From<AllocError> for Status {
    ghost from_gives = { λ _ status. status ≡ Memory };

    fn from(_: AllocError) -> Status {
        Status::Memory
    }
}

/// The word for what is wrong with a line.
pub fn kind_word(kind: Kind) -> &'static str
    ensures { result.now ≡ kind_word kind }
{
    match kind {
        Kind::Cut => "cut",
        Kind::Word => "word",
        Kind::Name => "name",
        Kind::Range => "range",
        Kind::Twice => "twice",
        Kind::Size => "size",
        Kind::Json => "json",
    }
}
