//! What addresses, fields, rows and places have to do with each other.

ghost use Rattle.nam_layout.specs.AddressLaw.{FieldLaw, AddressLaw, DistinctLaw};
ghost use Rattle.nam_layout.specs.RowLaw.{PositionLaw, RowLaw};
ghost use Rattle.nam_layout.specs.PlaceLaw.{PlaceLaw, CellsLaw, WorkersLaw, KnownLaw, IntentLaw};
ghost use Rattle.nam_layout.specs.PlaceLaw.{PlaceWithinLaw, CellsWithinLaw, WorkersWithinLaw};
ghost use Rattle.nam_layout.specs.PlaceFits.{PlaceFitsLaw, CellsFitLaw};

/// The addresses of a shape's fields are distinct and fill 0 to the number of its words, less 1: each field has an
/// address there, of which it is the field, and each address there has a field, of which it is the address.
pub fn address_law()
    ensures field { FieldLaw }
    ensures address { AddressLaw }
    ensures distinct { DistinctLaw }
{}

/// Each position of a table is one row, and each row one position of a table, whose width and ring it has.
pub fn row_law()
    ensures position { PositionLaw }
    ensures row { RowLaw }
{}

/// The fields of a row's place, of a bucket's cells and of workers are fields of the shape, and stand where its
/// addresses say. The words of an intent follow its first.
pub fn place_law()
    ensures place { PlaceLaw }
    ensures cells { CellsLaw }
    ensures workers { WorkersLaw }
    ensures known { KnownLaw }
    ensures intent { IntentLaw }
{}

/// The fields of a place, of cells and of workers stand before the end of the place, of the cells and of the entries.
pub fn within_law()
    ensures place { PlaceWithinLaw }
    ensures cells { CellsWithinLaw }
    ensures workers { WorkersWithinLaw }
{}

/// The places and cells of a shape within its limits have few words, each of which is a word of a store.
pub fn limit_law()
    ensures place { PlaceFitsLaw }
    ensures cells { CellsFitLaw }
{}
