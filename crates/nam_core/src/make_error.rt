//! Why a world can't be made.

ghost use Rattle.std.specs.Prelude.{◌≡◌};
ghost use Rattle.nam_core.specs.declared.make_error.MakeError.TheVariants.{Memory};

use nam_catalog::ShapeFault;
use std::alloc::AllocError;
use thiserror::Error;

/// Why a world can't be made.
#[derive(Clone, Copy, Debug, PartialEq, Eq, Error)]
pub enum MakeError {
    /// No store can have the shape.
    #[error("the shape is outside its limits")]
    Shape(ShapeFault),
    /// The table, counted from 0, is the first that has more rows than positions.
    #[error("a table has no space for its rows")]
    NoSpace { table: u32 },
    #[error("out of memory")]
    Memory,
}

impl From<AllocError> for MakeError {
    ghost from_gives = { λ _ error. error ≡ Memory };

    fn from(_: AllocError) -> MakeError {
        MakeError::Memory
    }
}
