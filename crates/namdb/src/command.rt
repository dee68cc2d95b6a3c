//! The commands of the program.

/// What the program is to do with the script.
#[derive(Clone, Copy, Debug, PartialEq, Eq)]
pub enum Command {
    /// Its workers run.
    Run,
    /// Its workers take turns, by the script's schedule.
    Sim,
}
