//! The room that is reserved for jobs suffices.

ghost use Rattle.nam_protocol.specs.ClientEvents.{ClientEventsLaw};
ghost use Rattle.nam_protocol.specs.EventsLaw.{EventsLaw};
ghost use Rattle.nam_protocol.specs.RoomLaw.{RoomLaw};

/// The room for jobs suffices for all calls of their driver.
///
/// What a driver may still ask is within that room at first, and the next call with what may be asked after it,
/// whatever its answer, is within what might be asked before.
pub fn room_suffices()
    ensures { RoomLaw }
{}

/// A client lists no event while a call runs and at most one with its answer, and as it is closed at most two: the call
/// that was cut, and the tail of a commit that has published.
///
/// So a session, at each moment and however it is closed, has no more events than its jobs have attempts and tidyings,
/// and one more: that tail cut, or how its medic has finished it.
pub fn events_within()
    ensures client { ClientEventsLaw }
    ensures session { EventsLaw }
{}
