/// The present job of one task.
#[derive(Clone, Copy)]
pub struct Slot {
    /// The units since its release.
    pub age: u32,
    /// The units that it may still use.
    pub left: u32,
}

/// The plain memory of a run: a slot for each task, by its number; what stands behind them means nothing.
#[derive(Clone, Copy)]
pub struct Progress {
    pub slots: [Slot; 32],
    /// Whether the run came to a miss. The slots mean the same then: an enum of both cases would hold them twice.
    pub ended: bool,
}
