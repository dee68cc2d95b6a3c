//! The room that a client reserves.

ghost use Rattle.std.specs.Prelude.{◌≡◌, ◌≤◌, ◌+◌, min, Some, IfSome, OnOk, OnErr};
ghost use Rattle.nam_catalog.specs.declared.bounds.TheConstants.{MOST_CAPACITY};
ghost use Rattle.nam_client.specs.Registers.{client_of};
ghost use Rattle.nam_protocol.specs.Own.{OpenClient};
ghost use Rattle.nam_client.specs.Room.{HasRoom, Holds, StepHolds, greater_spare, owed_keys};

use crate::registers::{Registers, Spare};
use nam_catalog::bounds::MOST_CAPACITY;
use nam_log::LogRoom;
use std::alloc::AllocError;

impl Spare {
    /// Of each number the greater.
    fn max_each(&self, other: &Spare) -> Spare
        ensures { result ≡ greater_spare self.now other.now }
    {
        Spare {
            attempts: self.attempts.max(other.attempts),
            ops: self.ops.max(other.ops),
            tidies: self.tidies.max(other.tidies),
        }
    }
}

/// The room in the log for so many calls, for the keys that an open transaction may still list, for what is owed, and
/// for two events more: a tail that is cut, and how a medic has finished the client. None where it is no number.
fn room_for(a: &Registers, spare: &Spare) -> Option<LogRoom>
    ensures { IfSome result (λ room.
        (spare.now.attempts + spare.now.tidies + 3 ≤ room.events)
        × (spare.now.ops + owed_keys a.now ≤ room.reads)
        × (spare.now.ops + owed_keys a.now ≤ room.locks)
        × (spare.now.ops + owed_keys a.now ≤ room.writes)
        × (spare.now.attempts + spare.now.tidies + 1 ≤ room.snaps)) }
{
    let asked = if a.is_open { a.attempt.ops_so_far } else { 0 };
    let keys = spare.ops.checked_add(asked)?;
    let snaps = spare.attempts.checked_add(spare.tidies)?.checked_add(1)?;
    Some(LogRoom {
        events: snaps.checked_add(2)?,
        reads: keys,
        locks: keys,
        writes: keys,
        snaps,
    })
}

/// Reserves the room for so many calls. Where memory is not found the client stays as it is.
pub fn reserve(a: &mut Registers, asked: &Spare) -> Result<(), AllocError>
    requires { Holds a.old }
    ensures ok { OnOk result (a.new.spare ≡ greater_spare a.old.spare asked.now) }
    ensures err { OnErr result (a.new.spare ≡ a.old.spare) }
    ensures rest { a.new ≡ record a.old {
      log = record a.new.log { log = a.old.log.log };
      spare = a.new.spare;
      closing = a.new.closing;
      scanned = record a.new.scanned { items = a.old.scanned.items };
    } }
    ensures room { HasRoom a.new }
    ensures opened { OpenClient (client_of a.new) }
    ensures at { StepHolds a.new.step a.new }
{
    let spare = a.spare.max_each(asked);
    let room = room_for(a, &spare).ok_or(AllocError)?;
    a.log.reserve(&room)?;
    a.scanned.reserve(MOST_CAPACITY as usize)?;
    a.spare = spare;
    a.closing = 2;
    Ok(())
}
