// The border to C for the benchmark in bench/: the list comes as numbers, the answer goes as numbers. It is there to be measured
// and promises nothing of its own; what is called behind it has the contracts.
#![tactic(auto)]

use explain::Viewed;
use run::Mode;
use start::Started;
use tasks::{Refusal, Task, TaskList};
use verdict::{Accepted, Verdict};

// A verdict, a quick answer or a start in numbers: refusal number (0: accepted), margin, cycle, job count, clash and task.
#[repr(C)]
#[derive(Clone, Copy, Default)]
pub struct Answer {
    pub number: u32,
    pub margin: i32,
    pub cycle: u32,
    pub jobs: u32,
    pub reached: u32,
    pub period: u32,
    pub task: usize,
}

// What a call of the viewer's comes to, in numbers: refusal number (0: none), margin, clash, task or place of 18; how much was
// given; and 1 for a no.
#[repr(C)]
#[derive(Clone, Copy, Default)]
pub struct Shown {
    pub number: u32,
    pub margin: i32,
    pub reached: u32,
    pub period: u32,
    pub task: usize,
    pub given: usize,
    pub no: u32,
}

impl From<Accepted> for Answer {
    fn from(accepted: Accepted) -> Answer {
        Answer {
            cycle: accepted.cycle,
            jobs: accepted.jobs,
            task: accepted.task,
            margin: accepted.margin,
            ..Answer::default()
        }
    }
}

impl From<Refusal> for Answer {
    fn from(refusal: Refusal) -> Answer {
        Answer {
            number: refusal.number(),
            task: refusal.task(),
            margin: refusal.margin(),
            reached: refusal.reached(),
            period: refusal.period(),
            ..Answer::default()
        }
    }
}

impl From<Refusal> for Shown {
    fn from(refusal: Refusal) -> Shown {
        Shown {
            number: refusal.number(),
            task: refusal.task(),
            margin: refusal.margin(),
            reached: refusal.reached(),
            period: refusal.period(),
            ..Shown::default()
        }
    }
}

fn of_verdict(verdict: Verdict) -> Answer {
    match verdict {
        Ok(accepted) => Answer::from(accepted),
        Err(refusal) => Answer::from(refusal),
    }
}

fn of_viewed(viewed: Viewed) -> Shown {
    match viewed {
        Ok(Some(given)) => Shown {
            given,
            ..Shown::default()
        },
        Ok(None) => Shown {
            no: 1,
            ..Shown::default()
        },
        Err(refusal) => Shown::from(refusal),
    }
}

// What stands where a list has no task.
const NO_TASK: Task = Task {
    period: 0,
    runtime: 0,
    memory: 0,
    deadline: 0,
};

// The list of numbers: period, run-time, memory and deadline of a task, then of the next.
fn list_of(numbers: &[u32]) -> TaskList {
    let mut list = TaskList {
        tasks: [NO_TASK; 16],
        count: numbers.len() / 4,
    };
    for (task, four) in list.tasks.iter_mut().zip(numbers.chunks_exact(4)) {
        if let &[period, runtime, memory, deadline] = four {
            *task = Task {
                period,
                runtime,
                memory,
                deadline,
            };
        }
    }
    list
}

// Mode 0 is by the table, 1 is filling; of any other, none is named.
fn begin(numbers: &[u32], supply: u32, mode: u32, clock: u32, log: &mut [u8]) -> Started {
    let asked = match mode {
        0 => Some(Mode::Table),
        1 => Some(Mode::Filling),
        _ => None,
    };
    start::start(list_of(numbers), supply, asked, clock, log)
}

// The verdict.
#[unsafe(no_mangle)]
pub extern "C" fn speed_judge(numbers: &[u32], supply: u32) -> Answer {
    of_verdict(verdict::judge(list_of(numbers), supply))
}

// The quick question, which answers a number and a task, and no clash.
#[unsafe(no_mangle)]
pub extern "C" fn speed_quick(numbers: &[u32], supply: u32) -> Answer {
    match quick::ask(list_of(numbers), supply) {
        Ok(()) => Answer::default(),
        Err(refused) => Answer {
            number: refused.number,
            task: refused.task,
            ..Answer::default()
        },
    }
}

// Table building.
#[unsafe(no_mangle)]
pub extern "C" fn speed_build(numbers: &[u32], supply: u32, table: &mut [u8]) -> Answer {
    of_verdict(verdict::build(list_of(numbers), supply, table))
}

// The start, with the cycle of its state: 0 if it is refused.
#[unsafe(no_mangle)]
pub extern "C" fn speed_start(
    numbers: &[u32],
    supply: u32,
    mode: u32,
    clock: u32,
    log: &mut [u8],
) -> Answer {
    let started = begin(numbers, supply, mode, clock, log);
    match started.answer {
        Ok(()) => Answer {
            cycle: started.state.cycle,
            ..Answer::default()
        },
        Err(refusal) => Answer::from(refusal),
    }
}

// Asks who runs in each slice of the cycle, no job having ended, and adds up the tasks.
#[unsafe(no_mangle)]
pub extern "C" fn speed_who(
    numbers: &[u32],
    supply: u32,
    mode: u32,
    table: &[u8],
    log: &mut [u8],
) -> usize {
    let mut state = begin(numbers, supply, mode, 0, log).state;
    let mut sum: usize = 0;
    for position in 0..state.cycle {
        state.position = position;
        if let Ok(Some(task)) = run::who(state, table) {
            sum = sum.wrapping_add(task);
        }
    }
    sum
}

// A run through so many steps in place, one for each report: the number of the first refusal, 0 if there is none.
#[unsafe(no_mangle)]
pub extern "C" fn speed_steps(
    numbers: &[u32],
    supply: u32,
    mode: u32,
    clock: u32,
    table: &[u8],
    log: &mut [u8],
    reports: &[u8],
) -> u32 {
    let mut state = begin(numbers, supply, mode, clock, log).state;
    for &report in reports {
        let reading = state.clock.wrapping_add(1);
        if let Err(refusal) = run::step_in_place(&mut state, table, log, reading, report) {
            return refusal.number();
        }
    }
    0
}

// The same with the state by value.
#[unsafe(no_mangle)]
pub extern "C" fn speed_steps_by_value(
    numbers: &[u32],
    supply: u32,
    mode: u32,
    clock: u32,
    table: &[u8],
    log: &mut [u8],
    reports: &[u8],
) -> u32 {
    let mut state = begin(numbers, supply, mode, clock, log).state;
    let mut reading = clock;
    for &report in reports {
        reading = reading.wrapping_add(1);
        let next = run::step(state, table, log, reading, report);
        if let Err(refusal) = next.answer {
            return refusal.number();
        }
        state = next.state;
    }
    0
}

// A run written as a Value Change Dump.
#[unsafe(no_mangle)]
pub extern "C" fn speed_vcd_write(
    numbers: &[u32],
    supply: u32,
    run: &[u8],
    out: &mut [u8],
) -> Shown {
    of_viewed(viewer::write(list_of(numbers), supply, run, out))
}

// One read back.
#[unsafe(no_mangle)]
pub extern "C" fn speed_vcd_read(
    numbers: &[u32],
    supply: u32,
    file: &[u8],
    out: &mut [u8],
) -> Shown {
    of_viewed(viewer::read(list_of(numbers), supply, file, out))
}

// One explained by needs.
#[unsafe(no_mangle)]
pub extern "C" fn speed_vcd_explain(
    numbers: &[u32],
    supply: u32,
    file: &[u8],
    needs: &mut [u32],
) -> Shown {
    of_viewed(viewer::explain(list_of(numbers), supply, file, needs))
}
