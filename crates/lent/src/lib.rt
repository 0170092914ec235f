// The verdict, the quick question, table building and start over a task list that is lent as a run of records, which are copied
// into a list for the functions on lists. What takes a list by value lends its records.
#![tactic(auto)]

ghost use Rattle.std.specs.Prelude.{◌≡◌};
ghost use Rattle.tasks.specs.List.{list_of};
ghost use Rattle.quick.specs.Quick.{quick_of};
ghost use Rattle.verdict.specs.Verdict.{verdict_of};
ghost use Rattle.verdict.specs.Table.{Built};
ghost use Rattle.start.specs.Start.{Begins};

use quick::Refused;
use run::Mode;
use start::Started;
use tasks::{Task, TaskList};
use verdict::Verdict;

// The first 16 records, by value, and how many there are.
pub fn copied(tasks: &[Task]) -> TaskList
    ensures { result ≡ list_of tasks.now }
{
    let mut places = [Task {
        period: 0,
        runtime: 0,
        memory: 0,
        deadline: 0,
    }; 16];
    let held = tasks.len().min(16);
    places[..held].copy_from_slice(&tasks[..held]);
    TaskList {
        tasks: places,
        count: tasks.len(),
    }
}

// The verdict on a lent list.
pub fn judge_lent(tasks: &[Task], supply: u32) -> Verdict
    ensures { result ≡ verdict_of (list_of tasks.now) supply }
{
    verdict::judge(copied(tasks), supply)
}

// The quick question on a lent list.
pub fn ask_lent(tasks: &[Task], supply: u32) -> Result<(), Refused>
    ensures { result ≡ quick_of (list_of tasks.now) supply }
{
    quick::ask(copied(tasks), supply)
}

// Building the table of a lent list.
pub fn build_lent(tasks: &[Task], supply: u32, table: &mut [u8]) -> Verdict
    ensures { Built (list_of tasks.now) supply table.old table.new result }
{
    verdict::build(copied(tasks), supply, table)
}

// Starting a run of a lent list.
pub fn start_lent(
    tasks: &[Task],
    supply: u32,
    asked: Option<Mode>,
    clock: u32,
    log: &mut [u8],
) -> Started
    ensures { Begins (list_of tasks.now) supply asked clock log.old log.new result }
{
    start::start(copied(tasks), supply, asked, clock, log)
}

// The verdict on a list by value, whose records are lent for it. A count above 16 names more records than there are places:
// none is lent; likewise below.
pub fn judge_list(list: TaskList, supply: u32) -> Verdict
    ensures { result ≡ verdict_of list supply }
{
    match list.tasks.get(..list.count) {
        Some(tasks) => judge_lent(tasks, supply),
        None => verdict::judge(list, supply),
    }
}

// The quick question on a list by value, whose records are lent for it.
pub fn ask_list(list: TaskList, supply: u32) -> Result<(), Refused>
    ensures { result ≡ quick_of list supply }
{
    match list.tasks.get(..list.count) {
        Some(tasks) => ask_lent(tasks, supply),
        None => quick::ask(list, supply),
    }
}

// Building the table of a list by value, whose records are lent for it.
pub fn build_list(list: TaskList, supply: u32, table: &mut [u8]) -> Verdict
    ensures { Built list supply table.old table.new result }
{
    match list.tasks.get(..list.count) {
        Some(tasks) => build_lent(tasks, supply, table),
        None => verdict::build(list, supply, table),
    }
}

// Starting a run of a list by value, whose records are lent for it.
pub fn start_list(
    list: TaskList,
    supply: u32,
    asked: Option<Mode>,
    clock: u32,
    log: &mut [u8],
) -> Started
    ensures { Begins list supply asked clock log.old log.new result }
{
    match list.tasks.get(..list.count) {
        Some(tasks) => start_lent(tasks, supply, asked, clock, log),
        None => start::start(list, supply, asked, clock, log),
    }
}
