//! Machines on words that nobody else changes.

ghost use Rattle.std.specs.Prelude.{◌≡◌, ◌≤◌, length, IsSome};
ghost use Rattle.nam_verbs.specs.Running.{end_of};
ghost use Rattle.nam_verbs.specs.Machine.{LeadsTo, driven_out};

use crate::machine::Machine;
use crate::region::Region;

/// Does the verbs of a call one after another, until it has ended.
pub fn drive<R: Region, M: Machine>(region: &mut R, machine: &mut M)
    requires { (M.running machine.old).reach ≤ length (R.words region.old) }
    ensures ended { IsSome (end_of (M.running machine.new)) }
    ensures taken { LeadsTo (M.running machine.old) (M.running machine.new) }
    ensures machine { M.running machine.new ≡ (driven_out (M.running machine.old) (R.words region.old)).0 }
    ensures words { R.words region.new ≡ (driven_out (M.running machine.old) (R.words region.old)).1 }
{
    while let Some(verb) = machine.verb() {
        let found = region.verb(verb);
        machine.take(found);
    }
}
