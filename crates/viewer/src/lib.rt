// What a logic viewer shows of a task list: a run written as a Value Change Dump, one read back, and one explained by needs.
#![tactic(auto)]

ghost use Rattle.std.specs.Prelude.{◌≡◌};
ghost use Rattle.viewer.specs.Viewer.{Writes, ReadsBack, ExplainsFile};
ghost use Rattle.viewer.specs.Shapes.{fitting, without_form, Gives};

use explain::Viewed;
use tasks::{Refusal, TaskList};

// So much is given, if there is room for it.
fn fit(length: usize, room: usize) -> Viewed
    ensures { result ≡ fitting length room }
{
    if length <= room {
        Ok(Some(length))
    } else {
        Err(Refusal::NoRoom)
    }
}

// A file that is the form of no run: the list's own refusal comes before 18.
fn no_form(list: TaskList, supply: u32, place: usize) -> Viewed
    ensures { result ≡ without_form list supply place }
{
    verdict::judge(list, supply)?;
    Err(Refusal::OtherForm { place })
}

// Gives a run that was read, if it is one of the list and there is room for it.
fn give(list: TaskList, supply: u32, run: &[u8], out: &mut [u8]) -> Viewed
    ensures { Gives list supply run.now out.old out.new result }
{
    let cycle = explain::check_run(list, supply, run)?;
    if out.len() < cycle {
        return Err(Refusal::NoRoom);
    }
    out[..cycle].copy_from_slice(run);
    Ok(Some(cycle))
}

// Writes who ran in each slice of a cycle as a Value Change Dump.
pub fn write(list: TaskList, supply: u32, run: &[u8], out: &mut [u8]) -> Viewed
    ensures { Writes list supply run.now out.old out.new result }
{
    explain::check_run(list, supply, run)?;
    let length = dump::write(run, out);
    fit(length, out.len())
}

// Reads a Value Change Dump back into who ran in each slice.
pub fn read(list: TaskList, supply: u32, file: &[u8], out: &mut [u8]) -> Viewed
    ensures { ReadsBack list supply file.now out.old out.new result }
{
    let mut run = [0u8; 4096];
    match readback::read(file, &mut run) {
        Err(other) => no_form(list, supply, other.place),
        Ok(length) => give(list, supply, &run[..length], out),
    }
}

// Says whether any needs lead the filling run of the list to a Value Change Dump, and if so gives them, one a job in the log's
// order.
pub fn explain(list: TaskList, supply: u32, file: &[u8], needs: &mut [u32]) -> Viewed
    ensures { ExplainsFile list supply file.now needs.old needs.new result }
{
    let mut run = [0u8; 4096];
    match readback::read(file, &mut run) {
        Err(other) => no_form(list, supply, other.place),
        Ok(length) => explain::explain_run(list, supply, &run[..length], needs),
    }
}
