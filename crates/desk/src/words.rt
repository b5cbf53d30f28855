ghost use Rattle.std.specs.Prelude.{◌≡◌, map, Some, Err, MatchOption};
ghost use Rattle.std.specs.String.{string_bytes};
ghost use Rattle.std.specs.Option.{ok_or, option_map};
ghost use Rattle.desk.specs.declared.commands.Expected.TheVariants.{AnOrdering, ABase};
ghost use Rattle.desk.specs.Words.{named_text, named_of, base_of, only_word, lone_command, command_by, expected_text};

use crate::commands::{Command, Expected};
use crate::naming::{Base, Named};
use std::error::Error;
use std::fmt;
use std::str::FromStr;

// All orderings that have a name.
const ALL: [Named; 9] = [
    Named::Plain(Base::Fixed),
    Named::Plain(Base::Deadline),
    Named::Plain(Base::TwoPhase),
    Named::Promotion(Base::Fixed),
    Named::Promotion(Base::Deadline),
    Named::Promotion(Base::TwoPhase),
    Named::Background(Base::Fixed),
    Named::Background(Base::Deadline),
    Named::Background(Base::TwoPhase),
];

impl Named {
    /// The name of the ordering.
    #[tactic(auto, unfolding(crate::specs::Words::promotion_text, crate::specs::Words::background_text))]
    pub(crate) fn name(self) -> &'static str
        ensures { result.now ≡ named_text self }
    {
        match self {
            Named::Plain(Base::Fixed) => "fixed",
            Named::Plain(Base::Deadline) => "deadline",
            Named::Plain(Base::TwoPhase) => "two-phase",
            Named::Promotion(Base::Fixed) => "promotion-over-fixed",
            Named::Promotion(Base::Deadline) => "promotion-over-deadline",
            Named::Promotion(Base::TwoPhase) => "promotion-over-two-phase",
            Named::Background(Base::Fixed) => "background-over-fixed",
            Named::Background(Base::Deadline) => "background-over-deadline",
            Named::Background(Base::TwoPhase) => "background-over-two-phase",
        }
    }
}

/// The ordering of a name.
impl FromStr for Named {
    type Err = Expected;

    ghost from_str_gives = { λ word r. r ≡ ok_or (named_of word) AnOrdering };

    fn from_str(word: &str) -> Result<Named, Expected> {
        for named in ALL {
            if word == named.name() {
                return Ok(named);
            }
        }
        Err(Expected::AnOrdering)
    }
}

/// The ordering of a name, where it stands on no other.
impl FromStr for Base {
    type Err = Expected;

    ghost from_str_gives = { λ word r. r ≡ ok_or (base_of word) ABase };

    fn from_str(word: &str) -> Result<Base, Expected> {
        match word.parse() {
            Ok(Named::Plain(base)) => Ok(base),
            _ => Err(Expected::ABase),
        }
    }
}

// The one word, where there is one and no other.
fn only(words: &[String]) -> Option<&str>
    ensures { option_map (λ x. x.now) result ≡ only_word (map string_bytes words.now) }
{
    match words {
        [word] => Some(word.as_str()),
        _ => None,
    }
}

// What the one word is the name of; where there is not one word, `expected` is.
fn one_named<T: FromStr<Err = Expected> + Drop>(
    words: &[String],
    expected: Expected,
) -> Result<T, Expected>
    ensures { MatchOption (only_word (map string_bytes words.now)) (result ≡ Err expected) (λ w. T.from_str_gives w result) }
{
    only(words).ok_or(expected)?.parse()
}

// A command that no word stands behind.
fn alone(command: Command, words: &[String]) -> Result<Command, Expected>
    ensures { result ≡ lone_command command (map string_bytes words.now) }
{
    if words.is_empty() {
        Ok(command)
    } else {
        Err(Expected::NoMore)
    }
}

/// The command that these words ask for, or what is expected in their place.
pub fn command_of(words: &[String]) -> Result<Command, Expected>
    ensures { result ≡ command_by (map string_bytes words.now) }
{
    let Some((word, rest)) = words.split_first() else {
        return Err(Expected::ACommand);
    };
    match word.as_str() {
        "verdict" => Ok(Command::Verdict(one_named(rest, Expected::AnOrdering)?)),
        "search" => Ok(Command::Search(one_named(rest, Expected::ABase)?)),
        "laxity" => alone(Command::Laxity, rest),
        "background" => alone(Command::Background, rest),
        _ => Err(Expected::ACommand),
    }
}

/// What is expected, in words.
#[tactic(auto, unfolding(crate::specs::Words::expected_text))]
pub fn told(expected: Expected) -> &'static str
    ensures { result.now ≡ expected_text expected }
{
    match expected {
        Expected::ACommand => {
            "expected a command: verdict ORDERING, search ORDERING, laxity or background"
        }
        Expected::AnOrdering => {
            "expected one ordering: fixed, deadline or two-phase, alone or behind promotion-over- or background-over-"
        }
        Expected::ABase => "expected one ordering: fixed, deadline or two-phase",
        Expected::NoMore => "expected no word behind laxity or background",
    }
}

// What `told` says of every case, this says only where the writer takes the text, so both stand.
impl fmt::Display for Expected {
    ghost output = { λ expected. Some (expected_text expected) };

    fn fmt<W: fmt::Write>(&self, f: &mut fmt::Formatter<W>) -> fmt::Result {
        f.write_str(told(*self))
    }
}

impl Error for Expected {}
