// The caller's side of a run: one cycle driven through the public functions, with a fixed need for each job.
#![tactic(auto)]

ghost use Rattle.std.specs.Prelude.{◌≡◌, ◌≤◌};
ghost use Rattle.run.specs.Sound.{SoundState};
ghost use Rattle.bench.specs.Course.{report_of, report_in, need_in, end_of, noted, SliceClosed, course_at};
ghost use Rattle.bench.specs.Drive.{task_in, Drives};

use run::{Mode, Next, State};
use tasks::{Refusal, Task, TaskList};
use verdict::Verdict;

// The bench's slice, in microseconds;
pub const SLICE: u32 = 500;

// what the tick handler takes of each;
pub const TICK: u32 = 20;

// and its words of sample memory.
pub const SUPPLY: u32 = 65536;

// What a drive comes to: the answers of table building and of the start, and the last state. The run was whole if the last
// position is the cycle.
#[derive(Clone, Copy)]
pub struct Driven {
    pub built: Verdict,
    pub begun: Result<(), Refusal>,
    pub state: State,
}

// A task from microseconds. A refused conversion answers 0.
#[tactic(auto, unfolding(crate::specs::Drive::task_in, units::specs::Conversion::slices_of))]
pub fn task_in(period: u32, runtime: u32, memory: u32, deadline: u32, slice: u32, tick: u32) -> Task
    ensures { result ≡ task_in period runtime memory deadline slice tick }
{
    Task {
        period: units::period_slices(period, slice).unwrap_or(0),
        runtime: units::runtime_slices(runtime, slice, tick).unwrap_or(0),
        memory,
        deadline: units::deadline_slices(deadline, slice).unwrap_or(0),
    }
}

// What the job of a task that runs reports. A job past the end of the needs has need 0.
fn report_of(state: State, ran: usize, needs: &[u32]) -> u8
    requires { SoundState state × (ran ≤ state.count) }
    ensures { result ≡ report_of (need_in needs.now state) state ran }
{
    if ran == 0 {
        return 0;
    }
    let used = state.used[ran - 1];
    let at = run::place(&state.periods, state.cycle, state.position, ran - 1);
    let need = needs.get(at).copied().unwrap_or(0);
    u8::from(used + 1 == need)
}

fn report(state: State, table: &[u8], needs: &[u32]) -> u8
    ensures { result ≡ report_in table.now (need_in needs.now state) state }
{
    match run::who(state, table) {
        Ok(Some(ran)) => report_of(state, ran, needs),
        Ok(None) => 0,
        Err(_) => 0,
    }
}

// A job that is logged and has no end yet ends at this position.
#[tactic(auto, using(basis::specs::Choose::cases), unfolding(crate::specs::Course::end_of))]
fn end_of(position: u32, byte: u8, end: u32) -> u32
    ensures { result ≡ end_of position byte end }
{
    if end != 0 {
        return end;
    }
    if byte == 0 { 0 } else { position }
}

// The jobs that were logged by this position, and not before, end at it. Where the log has no byte none was logged.
fn note(log: &[u8], position: u32, ends: &mut [u32])
    ensures { ends.new ≡ noted log.now position ends.old }
{
    for (i, end) in ends.iter_mut().enumerate() {
        let byte = log.get(i).copied().unwrap_or(0);
        *end = end_of(position, byte, *end);
    }
}

// Closes one slice: asks who runs, reports as the need says, and notes the jobs that end.
pub fn close_slice(
    state: State,
    table: &[u8],
    needs: &[u32],
    log: &mut [u8],
    ends: &mut [u32],
) -> Next
    ensures { SliceClosed table.now (need_in needs.now state) (record { state = state; log = log.old; ends = ends.old }) log.new ends.new result }
{
    let told = report(state, table, needs);
    let clock = state.clock.wrapping_add(1);
    let next = run::step(state, table, log, clock, told);
    let Ok(()) = next.answer else {
        return next;
    };
    note(log, next.state.position, ends);
    next
}

// As many slices as the cycle has. A refused step changes nothing, so the rest are refused likewise.
fn close_slices(
    state: State,
    table: &[u8],
    needs: &[u32],
    log: &mut [u8],
    ends: &mut [u32],
) -> State
    ensures { record { state = result; log = log.new; ends = ends.new } ≡ course_at table.now (need_in needs.now state) (record { state = state; log = log.old; ends = ends.old }) state.cycle }
{
    let mut held = state;
    for _ in 0..state.cycle {
        held = close_slice(held, table, needs, log, ends).state;
    }
    held
}

// Builds the table, starts the run, and drives it through one cycle.
pub fn drive(
    list: TaskList,
    supply: u32,
    asked: Option<Mode>,
    clock: u32,
    needs: &[u32],
    table: &mut [u8],
    log: &mut [u8],
    ends: &mut [u32],
) -> Driven
    ensures { Drives list supply asked clock needs.now table.old table.new log.old log.new ends.old ends.new result }
{
    let built = verdict::build(list, supply, table);
    let started = start::start(list, supply, asked, clock, log);
    ends.fill(0);
    let state = close_slices(started.state, table, needs, log, ends);
    Driven {
        built,
        begun: started.answer,
        state,
    }
}
