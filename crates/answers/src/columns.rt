ghost use Rattle.std.specs.Prelude.{◌≡◌, ◌≤◌, length};
ghost use Rattle.answers.specs.Texts.{word_text};

/// The first field of an answer's record.
#[derive(Clone, Copy)]
pub enum Word {
    Holds,
    Miss,
    Refused,
}

impl Word {
    /// The word as it is printed: at most 7 bytes.
    pub fn text(self) -> &'static str
        ensures bytes { result.now ≡ word_text self }
        ensures short { length result.now ≤ 7 }
    {
        match self {
            Word::Holds => "holds",
            Word::Miss => "miss",
            Word::Refused => "refused",
        }
    }
}

/// The seven fields of an answer's record, in the order of the header; an empty one is `None`.
#[derive(Clone, Copy)]
pub struct Columns {
    pub word: Word,
    pub task: Option<u32>,
    pub instant: Option<u32>,
    pub hyperperiod: Option<u32>,
    pub refusal: Option<u32>,
    pub row: Option<u32>,
    pub field: Option<u32>,
}

impl Columns {
    /// The record of a refusal of which nothing else is said.
    pub const BARE: Columns = Columns {
        word: Word::Refused,
        task: None,
        instant: None,
        hyperperiod: None,
        refusal: None,
        row: None,
        field: None,
    };
}
