#![tactic(auto)]

// Small tables that show what is often believed of such schedules and is false here. docs/misbeliefs.md tells each of them.
#[cfg(test)]
mod tests {
    use by_number::ByNumber;
    use orderings::two_phase::TwoPhase;
    use refusals::kinds::AddRefusal;
    use schedules::verdict::{Miss, Verdict};
    use std::test::Fail;
    use tables::table::Table;
    use tables::task::Task;

    fn two_tasks(first: Task, second: Task) -> Result<Table, AddRefusal> {
        Table::try_from([first, second].as_slice())
    }

    fn verdict(table: &Table) -> Verdict {
        Verdict::of(table, &TwoPhase::new(table))
    }

    // All first jobs are in time, and the second job of task 1 is not.
    #[test]
    fn a_later_job_decides(rt: HostRuntime) -> Result<(), Fail> {
        let table = two_tasks(
            Task {
                c: 2,
                d: 3,
                t: 3,
                p1: 3,
                p2: 0,
                s: 1,
            },
            Task {
                c: 1,
                d: 1,
                t: 4,
                p1: 0,
                p2: 1,
                s: 0,
            },
        )?;
        assert_eq!(rt;
            verdict(&table),
            Verdict::Misses(Miss {
                task: 1,
                instant: 5,
            })
        );
        Ok(())
    }

    // The processor is idle in unit 7, all before is in time, and the miss comes at 10.
    #[test]
    fn a_later_busy_period_decides(rt: HostRuntime) -> Result<(), Fail> {
        let table = two_tasks(
            Task {
                c: 2,
                d: 3,
                t: 4,
                p1: 2,
                p2: 0,
                s: 1,
            },
            Task {
                c: 1,
                d: 1,
                t: 3,
                p1: 5,
                p2: 1,
                s: 0,
            },
        )?;
        assert_eq!(rt;
            verdict(&table),
            Verdict::Misses(Miss {
                task: 1,
                instant: 10,
            })
        );
        Ok(())
    }

    // Task 1 has S = 0 and needs its promotion in the unit that starts at age 0.
    #[test]
    fn promoted_in_the_unit_that_starts_at_s(rt: HostRuntime) -> Result<(), Fail> {
        let table = two_tasks(
            Task {
                c: 1,
                d: 2,
                t: 2,
                p1: 1,
                p2: 0,
                s: 2,
            },
            Task {
                c: 1,
                d: 1,
                t: 2,
                p1: 1,
                p2: 0,
                s: 0,
            },
        )?;
        assert_eq!(rt; verdict(&table), Verdict::Holds);
        Ok(())
    }

    // Both tasks would be released at instant 6, where task 0 has a unit left at its deadline.
    #[test]
    fn a_release_does_not_wipe_out_a_miss(rt: HostRuntime) -> Result<(), Fail> {
        let table = two_tasks(
            Task {
                c: 1,
                d: 2,
                t: 2,
                p1: 1,
                p2: 1,
                s: 0,
            },
            Task {
                c: 2,
                d: 3,
                t: 3,
                p1: 1,
                p2: 0,
                s: 1,
            },
        )?;
        assert_eq!(rt;
            verdict(&table),
            Verdict::Misses(Miss {
                task: 0,
                instant: 6,
            })
        );
        Ok(())
    }

    // An ordering of another crate gives another verdict on the same table.
    #[test]
    fn an_added_ordering_is_judged_too(rt: HostRuntime) -> Result<(), Fail> {
        let table = two_tasks(
            Task {
                c: 1,
                d: 2,
                t: 2,
                p1: 1,
                p2: 1,
                s: 0,
            },
            Task {
                c: 1,
                d: 1,
                t: 2,
                p1: 0,
                p2: 0,
                s: 0,
            },
        )?;
        assert_eq!(rt; verdict(&table), Verdict::Holds);
        assert_eq!(rt;
            Verdict::of(&table, &ByNumber),
            Verdict::Misses(Miss {
                task: 1,
                instant: 1,
            })
        );
        Ok(())
    }
}
