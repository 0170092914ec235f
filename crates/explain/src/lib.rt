// A run of a list that was seen, one entry a slice: its checks, and which needs lead the filling run of the list to it.
#![tactic(auto)]

mod candidate; // what the run gives each job, the only needs that can

ghost use Rattle.std.specs.Prelude.{◌≡◌, length};
ghost use Rattle.explain.specs.Seen.{entries_to, run_number, unless_run_refused, checked_of, Explained, ExplainsRun};
ghost use Rattle.explain.specs.Shapes.{Judged};

use tasks::{Refusal, TaskList};

// What a call comes to: so many bytes, entries or needs are in the lent memory, or would be; none, as no needs lead to the run;
// or refused, by the list's own checks or by the run's.
pub type Viewed = Result<Option<usize>, Refusal>;

// Whether no entry is above the task count.
fn entries_to(run: &[u8], count: usize) -> bool
    ensures { result ≡ entries_to count run.now (length run.now) }
{
    // Every entry is looked at: `all`, which stops at the first above, took twice the time on a run that has none.
    let mut fine = true;
    for &entry in run {
        fine &= usize::from(entry) <= count;
    }
    fine
}

// The first check that a run does not pass: 19, 30 or 31.
fn check(run: &[u8], cycle: u32, count: usize, needed: usize, room: usize) -> Result<(), Refusal>
    ensures { result ≡ unless_run_refused (run_number cycle count run.now needed room) tt }
{
    if run.len() != cycle as usize {
        return Err(Refusal::OtherLength);
    }
    if !entries_to(run, count) {
        return Err(Refusal::EntryAbove);
    }
    if room < needed {
        return Err(Refusal::NoRoom);
    }
    Ok(())
}

// Checks a list and a run of it: the list's own checks, then 19 and 30. Answers the cycle.
pub fn check_run(list: TaskList, supply: u32, run: &[u8]) -> Result<usize, Refusal>
    ensures { result ≡ checked_of list supply run.now }
{
    let accepted = verdict::judge(list, supply)?;
    check(run, accepted.cycle, list.count, 0, 0)?;
    Ok(accepted.cycle as usize)
}

// The same of an accepted list: a run that passes its checks is explained, or it is not.
fn explain(list: TaskList, cycle: u32, jobs: u32, run: &[u8], needs: &mut [u32]) -> Viewed
    requires { Judged list cycle jobs }
    ensures { Explained list run.now needs.old needs.new result cycle jobs }
{
    check(run, cycle, list.count, jobs as usize, needs.len())?;
    if !candidate::leads(list, run, cycle) {
        return Ok(None);
    }
    candidate::give(list, run, cycle, needs);
    Ok(Some(jobs as usize))
}

// Says whether any needs lead the filling run of the list to this run, and if so gives them, one a job in the log's order.
pub fn explain_run(list: TaskList, supply: u32, run: &[u8], needs: &mut [u32]) -> Viewed
    ensures { ExplainsRun list supply run.now needs.old needs.new result }
{
    let accepted = verdict::judge(list, supply)?;
    explain(list, accepted.cycle, accepted.jobs, run, needs)
}
