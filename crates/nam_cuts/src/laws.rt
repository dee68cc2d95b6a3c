//! What a worker's line refused, and how many verbs it passed.

ghost use Rattle.nam_cuts.specs.CutsLaw.{LineCutsLaw, PassedBoundsLaw};

/// In each simulated run, whatever the lines and after any number of rounds, a worker is cut exactly where its line
/// refused a verb that it was asked for. The line passed all before that one, and is asked no more.
///
/// The log of a worker that is cut tells of it. Where the line refused none, the log tells of no cut once the session
/// has no verb to come: no attempt and no move that was cut, no collect or tidying that was stopped, no tail cut, and
/// no finish. So it is of a worker without a line.
///
/// The line was asked for fewer than 2^64 - 1 verbs before the run: a count that stands at its last number no longer
/// tells which verb was refused.
pub fn line_cuts()
    ensures { LineCutsLaw }
{}

/// In each simulated run a worker's line passed at least twice as many verbs as there are workers for each snapshot
/// that the worker lists, as long as its count is below its last number, and no more than the bounds of the jobs that
/// were begun. With the one that it refused it was asked for no more than that.
pub fn passed_bounds()
    ensures { PassedBoundsLaw }
{}
