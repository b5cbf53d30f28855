ghost use Rattle.std.specs.Prelude.{◌≡◌, [], fold};
ghost use Rattle.tables.specs.Adding.{tasks_after_adding};
ghost use Rattle.tables.specs.Tables.{tasks_of};
ghost use Rattle.examples.specs.Rows.{task, K, M, Q, V, WorkedRows};

use tables::table::Table;
use tables::task::Task;

/// The tables of the worked schedules.
#[derive(Clone, Copy)]
pub struct Examples {
    /// Two tasks that fill the processor.
    pub k: Table,
    /// Two tasks that cannot wait for one another, and one that can wait for both.
    pub m: Table,
    /// Three tasks that can wait.
    pub q: Table,
    /// Two tasks of one period, of which the first cannot wait at all and is ahead by P1.
    pub v: Table,
    /// The same two, with the second ahead.
    pub turned: Table,
}

// The table that adding these tasks makes, one after the other.
fn table_of(tasks: &[Task]) -> Table
    ensures { tasks_of result ≡ fold tasks_after_adding [] tasks.now }
{
    let mut table = Table::new();
    for x in tasks {
        let _ = table.add(*x);
    }
    table
}

// A task by C, D, T, P1 and P2, with S at D.
fn task(c: u32, d: u32, t: u32, p1: u32, p2: u32) -> Task
    ensures { result ≡ task c d t p1 p2 d }
{
    Task {
        c,
        d,
        t,
        p1,
        p2,
        s: d,
    }
}

fn k() -> Table
    ensures { tasks_of result ≡ K 6 }
{
    table_of(&[task(2, 4, 4, 2, 0), task(3, 6, 6, 3, 1)])
}

fn m() -> Table
    ensures { tasks_of result ≡ M }
{
    table_of(&[
        task(2, 5, 5, 0, 0),
        task(4, 7, 7, 0, 0),
        task(1, 35, 35, 0, 0),
    ])
}

fn q() -> Table
    ensures { tasks_of result ≡ Q 4 6 12 }
{
    table_of(&[
        task(1, 4, 4, 0, 0),
        task(2, 6, 6, 0, 1),
        task(1, 12, 12, 0, 2),
    ])
}

fn v() -> Table
    ensures { tasks_of result ≡ V 0 1 }
{
    table_of(&[task(1, 1, 2, 0, 0), task(1, 2, 2, 1, 0)])
}

fn turned() -> Table
    ensures { tasks_of result ≡ V 1 0 }
{
    table_of(&[task(1, 1, 2, 1, 0), task(1, 2, 2, 0, 0)])
}

impl Examples {
    /// Makes the tables. What the definitions say of them stands on this call as a theorem.
    pub fn new() -> Examples
        ensures k { tasks_of result.k ≡ K 6 }
        ensures m { tasks_of result.m ≡ M }
        ensures q { tasks_of result.q ≡ Q 4 6 12 }
        ensures v { tasks_of result.v ≡ V 0 1 }
        ensures turned { tasks_of result.turned ≡ V 1 0 }
        ensures worked_rows { WorkedRows }
    {
        Examples {
            k: k(),
            m: m(),
            q: q(),
            v: v(),
            turned: turned(),
        }
    }
}
