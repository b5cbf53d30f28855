/// A call on a run: a tick, an early finish, or a question about a task.
#[derive(Clone, Copy, Debug, PartialEq, Eq)]
pub enum Call {
    Tick,
    FinishEarly(u32),
    AskAge(u32),
    AskLeft(u32),
}
