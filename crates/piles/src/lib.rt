#![tactic(auto)]

// Orderings and piles of layers, on one table: what each of them has run, the verdict that it gives, and a live run.
#[cfg(test)]
mod tests {
    use by_number::ByNumber;
    use orderings::background::BackgroundLayer;
    use orderings::background_list::BackgroundList;
    use orderings::deadline::Deadline;
    use orderings::fixed::Fixed;
    use orderings::promotion::PromotionLayer;
    use orderings::two_phase::TwoPhase;
    use refusals::kinds::{AddRefusal, FinishRefusal, QuestionRefusal, TickRefusal};
    use schedules::run::Run;
    use schedules::verdict::{Miss, Verdict};
    use std::test::Fail;
    use tables::table::Table;
    use tables::task::Task;

    // Two tasks that fill the processor, by the promotion times of both.
    fn table(s0: u32, s1: u32) -> Result<Table, AddRefusal> {
        let tasks = [
            Task {
                c: 2,
                d: 4,
                t: 4,
                p1: 2,
                p2: 0,
                s: s0,
            },
            Task {
                c: 3,
                d: 6,
                t: 6,
                p1: 3,
                p2: 1,
                s: s1,
            },
        ];
        Table::try_from(tasks.as_slice())
    }

    fn miss(task: u32, instant: u32) -> Verdict {
        Verdict::Misses(Miss { task, instant })
    }

    // A task in the background, over promotion, over the ordering given.
    fn pile<O>(table: &Table, task: u32, lowest: O) -> BackgroundLayer<PromotionLayer<O>> {
        let mut list = BackgroundList::new();
        let _ = list.take(task);
        BackgroundLayer::new(&list, PromotionLayer::new(table, lowest))
    }

    #[test]
    fn two_orderings_give_two_verdicts(rt: HostRuntime) -> Result<(), Fail> {
        let table = table(4, 5)?;
        assert_eq!(rt; Verdict::of(&table, &Fixed::new(&table)), miss(1, 6));
        assert_eq!(rt; Verdict::of(&table, &Deadline::new(&table)), Verdict::Holds);
        assert_eq!(rt; Verdict::of(&table, &TwoPhase::new(&table)), Verdict::Holds);
        Ok(())
    }

    // Task 1 is promoted in time at age 5, and too late at age 6.
    #[test]
    fn promotion_over_fixed_priorities(rt: HostRuntime) -> Result<(), Fail> {
        let early = table(4, 5)?;
        let late = table(4, 6)?;
        let over_early = PromotionLayer::new(&early, Fixed::new(&early));
        let over_late = PromotionLayer::new(&late, Fixed::new(&late));
        assert_eq!(rt; Verdict::of(&early, &over_early), Verdict::Holds);
        assert_eq!(rt; Verdict::of(&late, &over_late), miss(1, 6));
        Ok(())
    }

    // There is no task 7, so that promotion and the ordering at the bottom decide.
    #[test]
    fn verdicts_under_a_pile(rt: HostRuntime) -> Result<(), Fail> {
        let table = table(4, 5)?;
        let nobody_behind = pile(&table, 7, Fixed::new(&table));
        let first_behind = pile(&table, 0, Fixed::new(&table));
        assert_eq!(rt; Verdict::of(&table, &nobody_behind), Verdict::Holds);
        assert_eq!(rt; Verdict::of(&table, &first_behind), miss(0, 4));
        Ok(())
    }

    // The ordering at the bottom is of another crate.
    #[test]
    fn an_added_ordering_below_the_layers(rt: HostRuntime) -> Result<(), Fail> {
        let table = table(4, 5)?;
        let nobody_behind = pile(&table, 7, ByNumber);
        let first_behind = pile(&table, 0, ByNumber);
        assert_eq!(rt; Verdict::of(&table, &nobody_behind), Verdict::Holds);
        assert_eq!(rt; Verdict::of(&table, &first_behind), miss(0, 4));
        Ok(())
    }

    // Task 1 runs first where task 0 is in the background.
    #[test]
    fn runs_under_a_pile(rt: HostRuntime) -> Result<(), Fail> {
        let table = table(4, 5)?;
        let over_fixed = pile(&table, 7, Fixed::new(&table));
        let over_numbers = pile(&table, 0, ByNumber);
        let mut one = Run::new(&table, &over_fixed);
        let mut other = Run::new(&table, &over_numbers);
        assert_eq!(rt; one.tick()?.0, Some(0));
        assert_eq!(rt; other.tick()?.0, Some(1));
        Ok(())
    }

    // Where the first job of task 0 finishes at once, task 1 runs from the start.
    #[test]
    fn a_live_run_has_fewer_units_left_than_the_full_schedule(rt: HostRuntime) -> Result<(), Fail> {
        let table = table(4, 5)?;
        let ordering = PromotionLayer::new(&table, Fixed::new(&table));
        let mut live = Run::new(&table, &ordering);
        let mut full = Run::new(&table, &ordering);
        live.finish_early(0)?;
        for _ in 0..3 {
            live.tick()?;
            full.tick()?;
        }
        assert_eq!(rt; live.age(1)?, full.age(1)?);
        assert_eq!(rt; live.left(1)?, 0);
        assert_eq!(rt; full.left(1)?, 2);
        Ok(())
    }

    fn why(answer: Result<(), FinishRefusal>) -> Option<FinishRefusal> {
        answer.err()
    }

    #[test]
    fn an_early_finish_refused(rt: HostRuntime) -> Result<(), Fail> {
        let table = table(4, 6)?;
        let ordering = Fixed::new(&table);
        let mut run = Run::new(&table, &ordering);
        assert_eq!(rt; why(run.finish_early(0)), None);
        assert_eq!(rt; why(run.finish_early(0)), Some(FinishRefusal::NotReady));
        assert_eq!(rt; why(run.finish_early(2)), Some(FinishRefusal::NoSuchTask));
        Ok(())
    }
}
