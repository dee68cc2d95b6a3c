//! What it means that a shape has no fault.

ghost use Rattle.nam_catalog.specs.Fits.{FitsLaw};

/// A shape has no fault exactly where all its numbers and tables are within their limits, no two tables bear one name,
/// and its words are no more than a store can have.
pub fn fits_law()
    ensures { FitsLaw }
{}
