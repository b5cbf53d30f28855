/// Why a task is not added to a table.
#[derive(Clone, Copy, Debug, PartialEq, Eq)]
pub enum AddRefusal {
    /// The table already has 32 tasks.
    TableFull,
    /// Not 1 <= C <= D <= T <= 1,000,000.
    TimesOutOfBounds,
    /// P1 or P2 above 63, or S above D.
    PrioritiesOutOfBounds,
    /// The hyperperiod would be above 1,000,000,000.
    HyperperiodTooLong,
}

/// A field of a table text that is not 1 to 7 digits, bare or within double quotes.
#[derive(Clone, Copy, Debug, PartialEq, Eq)]
pub struct FieldFault {
    /// The number of the record (the header is record 1).
    pub row: u32,
    /// The number of the field within the record, from 1 on.
    pub field: u32,
}

/// What is wrong with a record of a table text. The first value of a case is the record's number.
#[derive(Clone, Copy, Debug, PartialEq, Eq)]
pub enum RecordFault {
    /// One of its fields is no such field; the field's fault says which.
    Field(FieldFault),
    /// A comma or the record's end does not stand where six fields put it.
    Shape(u32),
    /// Its task is not added.
    Adding(u32, AddRefusal),
}

/// Why a table text is not read.
#[derive(Clone, Copy, Debug, PartialEq, Eq)]
pub enum ReadRefusal {
    /// More than 4,096 bytes.
    TextTooLong,
    /// The text does not begin with the header record.
    OtherHeader,
    /// A record after the header is at fault.
    Record(RecordFault),
}

/// Why a task's promotion time is not set.
#[derive(Clone, Copy, Debug, PartialEq, Eq)]
pub enum SetRefusal {
    /// There is no task of that number.
    NoSuchTask,
    /// S above D.
    PromotionOutOfBounds,
}

/// Why a question about a task has no answer.
#[derive(Clone, Copy, Debug, PartialEq, Eq)]
pub enum QuestionRefusal {
    /// There is no task of that number.
    NoSuchTask,
}

/// Why a tick is not made.
#[derive(Clone, Copy, Debug, PartialEq, Eq)]
pub enum TickRefusal {
    /// The run came to a miss before, and has ended.
    RunEnded,
}

/// Why a job is not finished early.
#[derive(Clone, Copy, Debug, PartialEq, Eq)]
pub enum FinishRefusal {
    /// The run came to a miss before, and has ended.
    RunEnded,
    /// There is no task of that number.
    NoSuchTask,
    /// The task's job has no units left.
    NotReady,
}

/// Why promotion times are not set by laxity.
#[derive(Clone, Copy, Debug, PartialEq, Eq)]
pub enum LaxityRefusal {
    /// The task of this number, the lowest of several, has no response time.
    NoResponse(u32),
}

/// Why a table is not written.
#[derive(Clone, Copy, Debug, PartialEq, Eq)]
pub enum WriteRefusal {
    /// The buffer is shorter than the text.
    BufferTooShort,
}

/// Any refusal, by the call that gives it.
#[derive(Clone, Copy, Debug, PartialEq, Eq)]
pub enum Refusal {
    Reading(ReadRefusal),
    Adding(AddRefusal),
    Setting(SetRefusal),
    Asking(QuestionRefusal),
    Ticking(TickRefusal),
    Finishing(FinishRefusal),
    Laxity(LaxityRefusal),
    Writing(WriteRefusal),
}

/// Where in a table text a refusal lies. Field 0 stands for the whole record, record 0 for the whole text.
#[derive(Clone, Copy, Debug, PartialEq, Eq)]
pub struct Place {
    pub row: u32,
    pub field: u32,
}
