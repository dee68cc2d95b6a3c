//! Cells of no bucket.

ghost use Rattle.std.specs.Prelude.{◌≡◌};
ghost use Rattle.nam_upkeep.specs.Cells.{no_cells};

use nam_catalog::Form;
use nam_layout::Cells;

/// The cells of no bucket, under which a call rests.
pub fn no_cells() -> Cells
    ensures { result ≡ no_cells }
{
    Cells {
        bucket: 0,
        first: 0,
        cells: 0,
        form: Form::Narrow,
    }
}
