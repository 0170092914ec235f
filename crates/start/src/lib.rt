// The start of a run: the list is checked anew, the state is made, and the log is cleared to no result.
#![tactic(auto)]

ghost use Rattle.std.specs.Prelude.{◌≡◌, ◌≤◌};
ghost use Rattle.basis.specs.Bytes.{overwrite};
ghost use Rattle.tasks.specs.List.{task_at, due_of, runtime_of};
ghost use Rattle.start.specs.Start.{mode_of, no_run, Begins};

use run::{Mode, State};
use tasks::{Refusal, TaskList, due_of, runtime_of};

// What a start comes to: a refusal is the list's, as a verdict gives it, or 12.
#[derive(Clone, Copy)]
pub struct Started {
    pub answer: Result<(), Refusal>,
    pub state: State,
}

// A start with no mode named fills freed slices.
#[tactic(auto, unfolding(crate::specs::Start::mode_of))]
fn mode_of(asked: Option<Mode>) -> Mode
    ensures { result ≡ mode_of asked }
{
    asked.unwrap_or(Mode::Filling)
}

// Periods, deadlines and run-times of the tasks; places beyond the task count stay.
fn read(
    list: &TaskList,
    periods: &mut [u32; 16],
    deadlines: &mut [u32; 16],
    runtimes: &mut [u32; 16],
)
    requires { list.now.count ≤ 16 }
    ensures { (periods.new ≡ overwrite (λ i. (task_at list.now.tasks i).period) list.now.count periods.old) × (deadlines.new ≡ overwrite (λ i. due_of (task_at list.now.tasks i)) list.now.count deadlines.old) × (runtimes.new ≡ overwrite (λ i. runtime_of (task_at list.now.tasks i) 0) list.now.count runtimes.old) }
{
    for i in 0..list.count {
        let task = list.tasks[i];
        periods[i] = task.period;
        deadlines[i] = due_of(task);
        runtimes[i] = runtime_of(task);
    }
}

// The state of a refused start.
#[tactic(auto, unfolding(crate::specs::Start::no_run))]
fn no_run() -> State
    ensures { result ≡ no_run }
{
    State {
        periods: [0; 16],
        deadlines: [0; 16],
        runtimes: [0; 16],
        used: [0; 16],
        ended: [false; 16],
        count: 0,
        cycle: 0,
        position: 0,
        clock: 0,
        mode: Mode::Table,
    }
}

// Starts a run of a list, in the mode asked for, at a clock reading, with a lent log.
pub fn start(
    list: TaskList,
    supply: u32,
    asked: Option<Mode>,
    clock: u32,
    log: &mut [u8],
) -> Started
    ensures { Begins list supply asked clock log.old log.new result }
{
    let verdict = verdict::judge(list, supply);
    // a return in each arm: what a match comes to would be copied once more
    match verdict {
        Err(refusal) => {
            return Started {
                answer: Err(refusal),
                state: no_run(),
            };
        }
        Ok(accepted) => {
            let jobs = accepted.jobs as usize;
            if log.len() < jobs {
                return Started {
                    answer: Err(Refusal::ShortLog),
                    state: no_run(),
                };
            }
            log[..jobs].fill(0); // no result
            let mut periods = [0u32; 16];
            let mut deadlines = [0u32; 16];
            let mut runtimes = [0u32; 16];
            read(&list, &mut periods, &mut deadlines, &mut runtimes);
            return Started {
                answer: Ok(()),
                state: State {
                    periods,
                    deadlines,
                    runtimes,
                    used: [0; 16],
                    ended: [false; 16],
                    count: list.count,
                    cycle: accepted.cycle,
                    position: 0,
                    clock,
                    mode: mode_of(asked),
                },
            };
        }
    }
}
