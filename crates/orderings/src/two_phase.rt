ghost use Rattle.orderings.specs.TwoPhase.{phase_value};

use crate::keyed::{Key, Keyed};
use tables::task::Task;

/// A job counts with P1 while its age is below S, and with P2 from age S on.
#[derive(Clone, Copy)]
pub struct PhasePriority;

impl Key for PhasePriority {
    ghost value = { phase_value };

    fn of(task: &Task, age: u32) -> i64 {
        i64::from(if age < task.s { task.p1 } else { task.p2 })
    }
}

/// Two-phase priorities.
pub type TwoPhase = Keyed<PhasePriority>;
