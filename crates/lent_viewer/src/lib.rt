// What a logic viewer shows of a task list that is lent as a run of records, which are copied into a list for the functions on
// lists. What takes a list by value lends its records.
#![tactic(auto)]

ghost use Rattle.tasks.specs.List.{list_of};
ghost use Rattle.viewer.specs.Viewer.{Writes, ReadsBack, ExplainsFile};

use explain::Viewed;
use tasks::{Task, TaskList};

// Writing a run of a lent list for the viewer.
pub fn write_lent(tasks: &[Task], supply: u32, run: &[u8], out: &mut [u8]) -> Viewed
    ensures { Writes (list_of tasks.now) supply run.now out.old out.new result }
{
    viewer::write(lent::copied(tasks), supply, run, out)
}

// Reading a run of a lent list back.
pub fn read_lent(tasks: &[Task], supply: u32, file: &[u8], out: &mut [u8]) -> Viewed
    ensures { ReadsBack (list_of tasks.now) supply file.now out.old out.new result }
{
    viewer::read(lent::copied(tasks), supply, file, out)
}

// Explaining a run of a lent list by needs.
pub fn explain_lent(tasks: &[Task], supply: u32, file: &[u8], needs: &mut [u32]) -> Viewed
    ensures { ExplainsFile (list_of tasks.now) supply file.now needs.old needs.new result }
{
    viewer::explain(lent::copied(tasks), supply, file, needs)
}

// Writing a run of a list by value, whose records are lent for it. A count above 16 names more records than there are places:
// none is lent; likewise below.
pub fn write_list(list: TaskList, supply: u32, run: &[u8], out: &mut [u8]) -> Viewed
    ensures { Writes list supply run.now out.old out.new result }
{
    match list.tasks.get(..list.count) {
        Some(tasks) => write_lent(tasks, supply, run, out),
        None => viewer::write(list, supply, run, out),
    }
}

// Reading a run of a list by value back, whose records are lent for it.
pub fn read_list(list: TaskList, supply: u32, file: &[u8], out: &mut [u8]) -> Viewed
    ensures { ReadsBack list supply file.now out.old out.new result }
{
    match list.tasks.get(..list.count) {
        Some(tasks) => read_lent(tasks, supply, file, out),
        None => viewer::read(list, supply, file, out),
    }
}

// Explaining a run of a list by value, whose records are lent for it.
pub fn explain_list(list: TaskList, supply: u32, file: &[u8], needs: &mut [u32]) -> Viewed
    ensures { ExplainsFile list supply file.now needs.old needs.new result }
{
    match list.tasks.get(..list.count) {
        Some(tasks) => explain_lent(tasks, supply, file, needs),
        None => viewer::explain(list, supply, file, needs),
    }
}
