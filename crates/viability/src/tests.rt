use crate::laxity::set_by_laxity;
use crate::own_list::own_background_list;
use orderings::background_list::BackgroundList;
use refusals::kinds::LaxityRefusal;
use std::test::Fail;
use tables::table::Table;
use tables::task::Task;

// A task by C, D and T; its priorities mean nothing here.
fn task(c: u32, d: u32, t: u32) -> Task {
    Task {
        c,
        d,
        t,
        p1: 0,
        p2: 0,
        s: 0,
    }
}

// The background list of the table with these tasks.
fn list_of(tasks: &[Task]) -> Result<BackgroundList, Fail> {
    Ok(own_background_list(&Table::try_from(tasks)?))
}

// Behind the other, each of the two comes too late.
#[test]
fn no_task_is_viable(rt: HostRuntime) -> Result<(), Fail> {
    let list = list_of(&[task(2, 4, 4), task(3, 6, 6)])?;
    assert_eq!(rt; list.numbers(), [0u32; 0].as_slice());
    Ok(())
}

#[test]
fn one_task_is_viable(rt: HostRuntime) -> Result<(), Fail> {
    let list = list_of(&[task(2, 5, 5), task(4, 7, 7), task(1, 35, 35)])?;
    assert_eq!(rt; list.numbers(), [2].as_slice());
    Ok(())
}

// The longest deadline goes first.
#[test]
fn all_tasks_are_viable(rt: HostRuntime) -> Result<(), Fail> {
    let list = list_of(&[task(1, 4, 4), task(2, 6, 6), task(1, 12, 12)])?;
    assert_eq!(rt; list.numbers(), [2, 1, 0].as_slice());
    Ok(())
}

// Of two equal deadlines the greater task number goes first.
#[test]
fn equal_deadlines(rt: HostRuntime) -> Result<(), Fail> {
    let list = list_of(&[task(1, 8, 8), task(1, 4, 4), task(1, 8, 8)])?;
    assert_eq!(rt; list.numbers(), [2, 0, 1].as_slice());
    Ok(())
}

#[test]
fn no_tasks(rt: HostRuntime) -> Result<(), Fail> {
    assert_eq!(rt; list_of(&[])?.len(), 0);
    Ok(())
}

// A task by C, D = T and P2.
fn promoted(c: u32, d: u32, p2: u32) -> Task {
    Task {
        c,
        d,
        t: d,
        p1: 0,
        p2,
        s: 0,
    }
}

#[test]
fn promotion_times_by_laxity(rt: HostRuntime) -> Result<(), Fail> {
    let mut table = Table::try_from([
        promoted(1, 4, 0),
        promoted(2, 6, 1),
        promoted(1, 12, 2),
    ].as_slice())?;
    assert_eq!(rt; set_by_laxity(&mut table).is_ok(), true);
    assert_eq!(rt;
        table.tasks(),
        [
            Task {
                s: 3,
                ..promoted(1, 4, 0)
            },
            Task {
                s: 3,
                ..promoted(2, 6, 1)
            },
            Task {
                s: 8,
                ..promoted(1, 12, 2)
            },
        ]
        .as_slice()
    );
    Ok(())
}

// Behind the first task, neither of the others is done in time; the lower one is named, and nothing is written.
#[test]
fn no_laxity(rt: HostRuntime) -> Result<(), Fail> {
    let tasks = [promoted(3, 4, 0), promoted(3, 6, 1), promoted(3, 8, 2)];
    let mut table = Table::try_from(tasks.as_slice())?;
    assert_eq!(rt;
        set_by_laxity(&mut table),
        Err(LaxityRefusal::NoResponse(1))
    );
    assert_eq!(rt; table.tasks(), tasks.as_slice());
    Ok(())
}
