ghost use Rattle.std.specs.Prelude.{◌≡◌};
ghost use Rattle.refusals.specs.declared.kinds.RecordFault.TheVariants.{Field};
ghost use Rattle.refusals.specs.declared.kinds.ReadRefusal.TheVariants.{Record};
ghost use Rattle.refusals.specs.declared.kinds.Refusal.TheVariants.{Reading, Laxity, Writing};

use crate::kinds::{FieldFault, LaxityRefusal, ReadRefusal, RecordFault, Refusal, WriteRefusal};

/// A field's fault is carried whole within its record's fault.
impl From<FieldFault> for RecordFault {
    ghost from_gives = { λ e r. r ≡ Field e };

    fn from(e: FieldFault) -> RecordFault {
        RecordFault::Field(e)
    }
}

/// A record's fault is carried whole within the refusal of the text.
impl From<RecordFault> for ReadRefusal {
    ghost from_gives = { λ e r. r ≡ Record e };

    fn from(e: RecordFault) -> ReadRefusal {
        ReadRefusal::Record(e)
    }
}

/// A refused reading is carried whole within any refusal.
impl From<ReadRefusal> for Refusal {
    ghost from_gives = { λ e r. r ≡ Reading e };

    fn from(e: ReadRefusal) -> Refusal {
        Refusal::Reading(e)
    }
}

/// A refused setting by laxity is carried whole within any refusal.
impl From<LaxityRefusal> for Refusal {
    ghost from_gives = { λ e r. r ≡ Laxity e };

    fn from(e: LaxityRefusal) -> Refusal {
        Refusal::Laxity(e)
    }
}

/// A refused writing is carried whole within any refusal.
impl From<WriteRefusal> for Refusal {
    ghost from_gives = { λ e r. r ≡ Writing e };

    fn from(e: WriteRefusal) -> Refusal {
        Refusal::Writing(e)
    }
}
