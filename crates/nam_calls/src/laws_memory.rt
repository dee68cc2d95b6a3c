//! Laws of the words of a shape, as a function of its fields.

ghost use Rattle.nam_calls.specs.Memory.{StoreLaw, MemoryLaw};

/// The words of a shape are a function of its fields. What a verb at a field finds, and what it does, is said by that
/// function alone: it changes the field's word to what it leaves there, and no other field's.
pub fn memory_law()
    ensures store { StoreLaw }
    ensures verb { MemoryLaw }
{}
