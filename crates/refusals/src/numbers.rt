ghost use Rattle.std.specs.Prelude.{◌≡◌};
ghost use Rattle.refusals.specs.Numbers.{adding_number, number_of, place_of, task_of};

use crate::kinds::{
    AddRefusal, FinishRefusal, LaxityRefusal, Place, QuestionRefusal, ReadRefusal, RecordFault,
    Refusal, SetRefusal, TickRefusal, WriteRefusal,
};

fn adding_number(e: AddRefusal) -> u32
    ensures { result ≡ adding_number e }
{
    match e {
        AddRefusal::TableFull => 5,
        AddRefusal::TimesOutOfBounds => 6,
        AddRefusal::PrioritiesOutOfBounds => 7,
        AddRefusal::HyperperiodTooLong => 8,
    }
}

impl Refusal {
    /// The refusal's number, by which it is filed.
    pub fn number(&self) -> u32
        ensures { result ≡ number_of self.now }
    {
        match *self {
            Refusal::Reading(ReadRefusal::TextTooLong) => 1,
            Refusal::Reading(ReadRefusal::OtherHeader) => 2,
            Refusal::Reading(ReadRefusal::Record(RecordFault::Field(_))) => 3,
            Refusal::Reading(ReadRefusal::Record(RecordFault::Shape(_))) => 4,
            Refusal::Reading(ReadRefusal::Record(RecordFault::Adding(_, e))) => adding_number(e),
            Refusal::Adding(e) => adding_number(e),
            Refusal::Setting(SetRefusal::NoSuchTask) => 9,
            Refusal::Setting(SetRefusal::PromotionOutOfBounds) => 7,
            Refusal::Asking(QuestionRefusal::NoSuchTask) => 9,
            Refusal::Ticking(TickRefusal::RunEnded) => 11,
            Refusal::Finishing(FinishRefusal::RunEnded) => 11,
            Refusal::Finishing(FinishRefusal::NoSuchTask) => 9,
            Refusal::Finishing(FinishRefusal::NotReady) => 10,
            Refusal::Laxity(LaxityRefusal::NoResponse(_)) => 12,
            Refusal::Writing(WriteRefusal::BufferTooShort) => 13,
        }
    }

    /// The refusal's place in a table text, where it has one.
    pub fn place(&self) -> Option<Place>
        ensures { result ≡ place_of self.now }
    {
        match *self {
            Refusal::Reading(ReadRefusal::TextTooLong) => Some(Place { row: 0, field: 0 }),
            Refusal::Reading(ReadRefusal::OtherHeader) => Some(Place { row: 1, field: 0 }),
            Refusal::Reading(ReadRefusal::Record(RecordFault::Field(f))) => Some(Place {
                row: f.row,
                field: f.field,
            }),
            Refusal::Reading(ReadRefusal::Record(RecordFault::Shape(row))) => Some(Place {
                row,
                field: 0,
            }),
            Refusal::Reading(ReadRefusal::Record(RecordFault::Adding(row, _))) => Some(Place {
                row,
                field: 0,
            }),
            Refusal::Adding(_) => None,
            Refusal::Setting(_) => None,
            Refusal::Asking(_) => None,
            Refusal::Ticking(_) => None,
            Refusal::Finishing(_) => None,
            Refusal::Laxity(_) => None,
            Refusal::Writing(_) => None,
        }
    }

    /// The task that the refusal is about, where it names one.
    pub fn task(&self) -> Option<u32>
        ensures { result ≡ task_of self.now }
    {
        match *self {
            Refusal::Laxity(LaxityRefusal::NoResponse(i)) => Some(i),
            _ => None,
        }
    }
}
