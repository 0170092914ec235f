// A run of one cycle: its state, who runs, and the step that closes a slice.
#![tactic(auto)]

mod sound; // when a state is sound
mod ask; // who runs, and refusals 9 to 11
mod close; // refusals 12 to 14, and what a slice does

ghost use Rattle.std.specs.Prelude.{◌≡◌, ◌/◌, ◌<◌, nat_lt};
ghost use Rattle.basis.specs.Choose.{choose};
ghost use Rattle.run.specs.State.{place_in};
ghost use Rattle.run.specs.Who.{number_of, who_of};
ghost use Rattle.run.specs.Step.{SteppedIn, Stepped};

// How a run goes: by the table, or filling freed slices.
#[derive(Clone, Copy)]
pub enum Mode {
    Table,
    Filling,
}

// The state of a run: of each task its period, deadline and run-time, and of its current job the slices that it has used and whether it
// has ended. Anyone may hand in any bits: it is checked, never trusted.
#[derive(Clone, Copy)]
pub struct State {
    pub periods: [u32; 16],
    pub deadlines: [u32; 16],
    pub runtimes: [u32; 16],
    pub used: [u32; 16],
    pub ended: [bool; 16],
    pub count: usize,
    pub cycle: u32,
    pub position: u32,
    pub clock: u32,
    pub mode: Mode,
}

// Why asking who runs, or a step, is refused.
#[derive(Clone, Copy, PartialEq, Eq)]
pub enum Refusal {
    Unsound, // the state is not sound
    Over, // the run is over
    NoEntry, // the table has no entry for the slice
    ShortLog, // the log is shorter than the job count
    ClockJumped, // the clock reading is not one more than the last
    WrongReport, // the report is above 1, or a job finished in an idle slice
}

impl Refusal {
    // The number of refusal.
    #[tactic(auto, unfolding(crate::specs::Who::number_of))]
    pub fn number(self) -> u32
        ensures { result ≡ number_of self }
    {
        match self {
            Refusal::Unsound => 9,
            Refusal::Over => 10,
            Refusal::NoEntry => 11,
            Refusal::ShortLog => 12,
            Refusal::ClockJumped => 13,
            Refusal::WrongReport => 14,
        }
    }
}

// What a step by value comes to.
#[derive(Clone, Copy)]
pub struct Next {
    pub answer: Result<(), Refusal>,
    pub state: State,
}

// So many periods in so many slices; of a period 0, none.
fn times(slices: u32, period: u32) -> usize
    ensures { (result ≡ slices / period) × (result < 4294967296) }
{
    if period == 0 {
        return 0;
    }
    (slices / period) as usize
}

// Where the current job of the task at place i, from 0, stands in the log, and its need among the needs; 0 from place 16 on.
pub fn place(periods: &[u32; 16], cycle: u32, position: u32, i: usize) -> usize
    ensures { result ≡ choose (nat_lt i 16) (place_in periods.now cycle position i) 0 }
{
    if 15 < i {
        return 0;
    }
    let mut jobs: usize = 0;
    for j in 0..i {
        jobs += times(cycle, periods[j]);
    }
    jobs + times(position, periods[i])
}

// Who runs in the next slice: a task by its number, or nobody.
pub fn who(state: State, table: &[u8]) -> Result<Option<usize>, Refusal>
    ensures { result ≡ who_of state table.now }
{
    let asked = ask::ask(&state, table)?;
    Ok(asked.ran)
}

// Closes a slice: the clock reading and the report of the job that ran in it. Refused, nothing has changed.
pub fn step_in_place(
    state: &mut State,
    table: &[u8],
    log: &mut [u8],
    clock: u32,
    report: u8,
) -> Result<(), Refusal>
    ensures { SteppedIn state.old table.now clock report log.old log.new state.new result }
{
    let asked = ask::ask(state, table)?;
    close::check(&asked, log.len(), state.clock, clock, report)?;
    close::serve(state, log, asked.ran, report);
    for i in 0..state.count {
        close::turn(state, log, i);
    }
    state.position += 1;
    state.clock = clock;
    Ok(())
}

// Closes a slice of a state by value. A refused step gives back the state that it got.
pub fn step(mut state: State, table: &[u8], log: &mut [u8], clock: u32, report: u8) -> Next
    ensures { Stepped state table.now clock report log.old log.new result }
{
    let answer = step_in_place(&mut state, table, log, clock, report);
    Next { answer, state }
}
