#![tactic(auto)]

pub mod calls;
pub mod search;

#[cfg(test)]
mod tests {
    use crate::search::{Round, Search, Stage};
    use orderings::fixed::Fixed;
    use refusals::kinds::AddRefusal;
    use schedules::verdict::Miss;
    use std::test::Fail;
    use tables::table::Table;
    use tables::task::Task;

    // A task with its deadline at the end of its period, and one priority number for both phases.
    fn task(c: u32, t: u32, p: u32) -> Task {
        Task {
            c,
            d: t,
            t,
            p1: p,
            p2: p,
            s: t,
        }
    }

    // Two tasks that fill the processor.
    fn full_table() -> Result<Table, AddRefusal> {
        let tasks = [
            Task {
                c: 2,
                d: 4,
                t: 4,
                p1: 2,
                p2: 0,
                s: 4,
            },
            Task {
                c: 3,
                d: 6,
                t: 6,
                p1: 3,
                p2: 1,
                s: 6,
            },
        ];
        Table::try_from(tasks.as_slice())
    }

    fn three_tasks() -> Result<Table, AddRefusal> {
        let tasks = [task(21, 28, 0), task(15, 100, 1), task(16, 160, 2)];
        Table::try_from(tasks.as_slice())
    }

    fn four_tasks() -> Result<Table, AddRefusal> {
        let tasks = [
            task(6, 11, 0),
            task(6, 20, 1),
            task(4, 46, 2),
            task(5, 74, 3),
        ];
        Table::try_from(tasks.as_slice())
    }

    fn search_over_fixed(table: &Table) -> Search<Fixed> {
        Search::new(table, Fixed::new(table))
    }

    // The first of 200 rounds that does not lower, by its number from 1, and what it answers.
    fn last_round(search: &mut Search<Fixed>) -> Option<(u32, Round)> {
        for n in 1..201 {
            let round = search.round();
            match round {
                Round::Lowered(_) => {}
                _ => return Some((n, round)),
            }
        }
        None
    }

    #[test]
    fn held_in_the_second_round(rt: HostRuntime) -> Result<(), Fail> {
        let table = full_table()?;
        let mut search = search_over_fixed(&table);
        assert_eq!(rt; search.stage(), Stage::Open);
        assert_eq!(rt; search.round(), Round::Lowered(1));
        assert_eq!(rt; search.stage(), Stage::Open);
        assert_eq!(rt; search.round(), Round::Held);
        assert_eq!(rt; search.stage(), Stage::Held);
        assert_eq!(rt; search.promotion(0)?, 4);
        assert_eq!(rt; search.promotion(1)?, 5);
        assert!(rt; search.promotion(2).is_err());
        assert_eq!(rt; search.round(), Round::Held);
        Ok(())
    }

    #[test]
    fn held_after_many_rounds(rt: HostRuntime) -> Result<(), Fail> {
        let table = three_tasks()?;
        let mut search = search_over_fixed(&table);
        assert_eq!(rt; last_round(&mut search), Some((70, Round::Held)));
        assert_eq!(rt; search.promotion(0)?, 7);
        assert_eq!(rt; search.promotion(1)?, 82);
        assert_eq!(rt; search.promotion(2)?, 130);
        Ok(())
    }

    #[test]
    fn stuck_where_a_task_can_go_no_lower(rt: HostRuntime) -> Result<(), Fail> {
        let table = four_tasks()?;
        let mut search = search_over_fixed(&table);
        let miss = Miss {
            task: 3,
            instant: 814,
        };
        assert_eq!(rt; last_round(&mut search), Some((133, Round::Stuck(miss))));
        assert_eq!(rt; search.promotion(0)?, 5);
        assert_eq!(rt; search.promotion(1)?, 2);
        assert_eq!(rt; search.promotion(2)?, 12);
        assert_eq!(rt; search.promotion(3)?, 0);
        assert_eq!(rt; search.round(), Round::Stuck(miss));
        Ok(())
    }
}
