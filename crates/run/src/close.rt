// What closing a slice does, and refusals 12 to 14.
ghost use Rattle.std.specs.Prelude.{◌≡◌, ℕ, ◌<◌, ◌≤◌, length, slice_set, is_none};
ghost use Rattle.basis.specs.Bytes.{at};
ghost use Rattle.run.specs.State.{place};
ghost use Rattle.run.specs.Who.{of_entry};
ghost use Rattle.run.specs.Step.{answer_of, result_of, with_result};
ghost use Rattle.run.specs.Shapes.{outcome_byte, twelve_on, ended_with, served_one, Serves, served, Turns, turned, late_at};

use crate::ask::Asked;
use crate::{Refusal, State};

// How a job ends.
#[derive(Clone, Copy)]
enum Outcome {
    Done,
    Over,
    Late,
}

impl Outcome {
    // The byte of the log that says so.
    #[tactic(auto, unfolding(crate::specs::Shapes::outcome_byte))]
    fn byte(self) -> u8
        ensures { result ≡ outcome_byte self }
    {
        match self {
            Outcome::Done => 1,
            Outcome::Over => 2,
            Outcome::Late => 3,
        }
    }
}

// Refusals 12 to 14, for a state that is sound.
pub(crate) fn check(
    asked: &Asked,
    length: usize,
    last: u32,
    clock: u32,
    report: u8,
) -> Result<(), Refusal>
    ensures { result ≡ answer_of (twelve_on asked.now.jobs length last clock (is_none asked.now.ran) report) }
{
    if length < asked.jobs as usize {
        return Err(Refusal::ShortLog);
    }
    if clock != std::num::wrapping_add_u32(last, 1) {
        return Err(Refusal::ClockJumped);
    }
    let is_wrong = (1 < report) | ((report == 1) & asked.ran.is_none());
    if is_wrong {
        return Err(Refusal::WrongReport);
    }
    Ok(())
}

// The job of the task at place i ends so.
fn end_job(state: &mut State, log: &mut [u8], i: usize, outcome: Outcome)
    requires { (i < 16) × (place state.old i < length log.old) }
    ensures { (state.new ≡ ended_with state.old i) × (log.new ≡ slice_set log.old (place state.old i) (outcome_byte outcome)) }
{
    let at = crate::place(&state.periods, state.cycle, state.position, i);
    log[at] = outcome.byte();
    state.ended[i] = true;
}

// The task at place i has had the slice, which counts as used also when the job ends in it. The job ends if it finished, or if this
// slice completes its run-time.
fn serve_task(state: &mut State, log: &mut [u8], i: usize, report: u8)
    requires { (i < 16) × (at state.old.used i ≤ 4096) × (place state.old i < length log.old) }
    ensures { (state.new ≡ served_one state.old i report) × (log.new ≡ result_of state.old i report log.old) }
{
    let in_all = state.used[i] + 1;
    state.used[i] = in_all;
    if report == 1 {
        end_job(state, log, i, Outcome::Done);
        return;
    }
    if in_all == state.runtimes[i] {
        end_job(state, log, i, Outcome::Over);
    }
}

// The task that ran, if any, has had the slice.
pub(crate) fn serve(state: &mut State, log: &mut [u8], ran: Option<usize>, report: u8)
    requires { Serves state.old log.old ran }
    ensures { (e : ℕ) → ran ≡ of_entry e → (state.new ≡ served state.old e report) × (log.new ≡ with_result state.old e report log.old) }
{
    if let Some(task) = ran {
        serve_task(state, log, task - 1, report);
    }
}

// The end of the slice for the task at place i: a job that has not ended by its deadline is late, and at a release a fresh job begins,
// which has used nothing.
pub(crate) fn turn(state: &mut State, log: &mut [u8], i: usize)
    requires { Turns state.old log.old i }
    ensures { (state.new ≡ turned state.old i) × (log.new ≡ late_at state.old i log.old) }
{
    let age = state.position % state.periods[i] + 1;
    let is_late = (age == state.deadlines[i]) & !state.ended[i];
    let is_release = age == state.periods[i];
    if is_late {
        end_job(state, log, i, Outcome::Late);
    }
    if is_release {
        state.used[i] = 0;
        state.ended[i] = false;
    }
}
