/// One periodic task, in whole time units. A smaller priority number is more urgent.
#[derive(Clone, Copy, Debug, PartialEq, Eq)]
pub struct Task {
    /// C, the execution budget of a job.
    pub c: u32,
    /// D, the deadline of a job after its release.
    pub d: u32,
    /// T, the period: a job is released every T units.
    pub t: u32,
    /// P1, the priority number before promotion.
    pub p1: u32,
    /// P2, the priority number from the promotion on.
    pub p2: u32,
    /// S, the promotion time after the release.
    pub s: u32,
}
