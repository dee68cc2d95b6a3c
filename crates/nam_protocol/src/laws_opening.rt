//! Laws of the words at the opening.

ghost use Rattle.nam_protocol.specs.OpeningLaw.{BlankLaw, OpeningLaw, PathLaw};

/// Blank words are as many as the shape's, and each field has its own: the entries of the vector and of the horizon are
/// at the start, each position has the header of one without a version, each slot the mark, and all others are 0.
pub fn blank_law()
    ensures { BlankLaw }
{}

/// With rows, each of a table and of its width, every position is blank or has one of them under the loader's stamp,
/// and all other fields have their blank words. Each row stands on its key's path, after positions that bear keys, or
/// its table is full.
pub fn opening_law()
    ensures positions { OpeningLaw }
    ensures paths { PathLaw }
{}
