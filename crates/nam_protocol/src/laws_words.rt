//! Words stay below 2^64.

ghost use Rattle.nam_protocol.specs.WordsLaw.{ClientKeepsLaw, ClientWritesLaw, SessionKeepsLaw, NewWorldLaw};
ghost use Rattle.nam_protocol.specs.WordsLaw.{WorldKeepsLaw};

/// All that a client may still write is below 2^64: of a new client, after each call whose values and key are words,
/// and after each found word below 2^64. Its verb writes such a word, or none. So it is with a session whose jobs bring
/// words. All words of a world are below 2^64 at the opening, where those of its rows are, and stay so with each turn
/// of a worker whose client fits, and its medic where it has one.
pub fn words_law()
    ensures client { ClientKeepsLaw }
    ensures writes { ClientWritesLaw }
    ensures session { SessionKeepsLaw }
    ensures opening { NewWorldLaw }
    ensures world { WorldKeepsLaw }
{}
