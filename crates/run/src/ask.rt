// Who runs in the slice at the position, and refusals 9 to 11.
ghost use Rattle.std.specs.Prelude.{◌≡◌, ℕ, ◌<◌, ◌≤◌, false, slice_index_or};
ghost use Rattle.basis.specs.Bytes.{at};
ghost use Rattle.basis.specs.Choose.{choose};
ghost use Rattle.plan.specs.Plan.{first_of};
ghost use Rattle.run.specs.Who.{of_entry, first_open};
ghost use Rattle.run.specs.Shapes.{OfEntry, table_ask, asked_of};

use crate::{Mode, Refusal, State, sound};
use readings::Entry;

// What a task's jobs are ranked by: smaller first.
fn key_of(deadline: u32) -> u32
    ensures { result ≡ deadline }
{
    deadline
}

// What asking comes to: the job count, and the task that runs, if any.
#[derive(Clone, Copy)]
pub(crate) struct Asked {
    pub(crate) jobs: u32,
    pub(crate) ran: Option<usize>,
}

// The task at place i against the first-ranking open task so far. Of equal keys the earlier stays.
fn better(state: &State, best: Option<usize>, i: usize) -> Option<usize>
    requires { (i < 16) × OfEntry best }
    ensures { (e : ℕ) → best ≡ of_entry e → result ≡ of_entry (first_of (at state.now.deadlines) (choose (slice_index_or state.now.ended i false) 0 1) i e) }
{
    if state.ended[i] {
        return best;
    }
    match best {
        Some(task) => {
            if key_of(state.deadlines[i]) < key_of(state.deadlines[task - 1]) {
                Some(i + 1)
            } else {
                best
            }
        }
        None => Some(i + 1),
    }
}

fn first_open(state: &State) -> Option<usize>
    requires { state.now.count ≤ 16 }
    ensures { result ≡ of_entry (first_open state.now) }
{
    let mut best = None;
    for i in 0..state.count {
        best = better(state, best, i);
    }
    best
}

// By the table: the task of the entry, unless its current job has ended.
fn by_table(state: &State, table: &[u8]) -> Result<Option<usize>, Refusal>
    requires { (state.now.count ≤ 16) × (state.now.position < state.now.cycle) }
    ensures { result ≡ table_ask state.now table.now }
{
    if table.len() < state.cycle as usize {
        return Err(Refusal::NoEntry);
    }
    match readings::read_entry(table[state.position as usize], state.count) {
        Entry::Idle => Ok(None),
        Entry::Task(task) => Ok(if state.ended[task - 1] {
            None
        } else {
            Some(task)
        }),
        Entry::NoEntry(_) => Err(Refusal::NoEntry),
    }
}

// Who runs, in the order of the refusals, whatever the clock. (As a call of its own it is a tenth of what `who` takes.)
#[inline(always)]
pub(crate) fn ask(state: &State, table: &[u8]) -> Result<Asked, Refusal>
    ensures { result ≡ asked_of state.now table.now }
{
    let jobs = sound::jobs_if_sound(state).ok_or(Refusal::Unsound)?;
    if state.position == state.cycle {
        return Err(Refusal::Over);
    }
    let ran = match state.mode {
        Mode::Table => by_table(state, table)?,
        Mode::Filling => first_open(state),
    };
    Ok(Asked { jobs, ran })
}
