//! Each script has one simulated run.

ghost use Rattle.nam_scenario.specs.ScenarioLaw.{ScriptFitsLaw, ScriptRunsLaw};

/// Each script within the limits makes a scenario that fits: its shape has no fault, each transaction is tried once at
/// least, and its operations fit the tables, have keys up to 2^64 - 2, and write or guard at most 16 keys.
///
/// What `parse` of `nam_script` reads is such a script.
pub fn scripts_fit()
    ensures { ScriptFitsLaw }
{}

/// Each script within the limits has a simulated run under any lines of its workers, and no other: after the turns of
/// its schedule, rounds go on until each worker has ended or is cut, which is after no more rounds than all its jobs
/// have verbs at the most.
pub fn scripts_run()
    ensures { ScriptRunsLaw }
{}
