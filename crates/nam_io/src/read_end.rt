//! Why a reading ended early.

ghost use Rattle.std.specs.Prelude.{◌≡◌};
ghost use Rattle.nam_io.specs.declared.read_end.ReadEnd.TheVariants.{ReadFault, Memory};

use crate::failed::Failed;
use std::alloc::AllocError;
use thiserror::Error;

/// Why not all that was left could be given.
#[derive(Clone, Copy, Debug, PartialEq, Eq, Error)]
pub enum ReadEnd {
    #[error("reading failed")]
    ReadFault,
    #[error("the input is too long")]
    TooLong,
    #[error("out of memory")]
    Memory,
}

impl From<Failed> for ReadEnd {
    ghost from_gives = { λ _ end. end ≡ ReadFault };

    fn from(_: Failed) -> ReadEnd {
        ReadEnd::ReadFault
    }
}

impl From<AllocError> for ReadEnd {
    ghost from_gives = { λ _ end. end ≡ Memory };

    fn from(_: AllocError) -> ReadEnd {
        ReadEnd::Memory
    }
}
