//! Turns of workers.

/// What is done next in a world.
#[derive(Clone, Copy, Debug, PartialEq, Eq)]
pub enum Turn {
    /// The worker's next verb is done, which is its medic's once it is cut.
    Step { worker: u32 },
    /// The worker is stopped before its next verb.
    Cut { worker: u32 },
}
