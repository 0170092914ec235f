// Refusal 9: state not sound.
ghost use Rattle.std.specs.Prelude.{◌≡◌, ◌<◌, ◌≤◌};
ghost use Rattle.run.specs.Shapes.{sound_at, jobs_of, jobs_if_sound};

use crate::State;

fn is_task_sound(state: &State, i: usize) -> bool
    requires { i < 16 }
    ensures { result ≡ sound_at state.now i }
{
    let period = state.periods[i];
    let deadline = state.deadlines[i];
    let runtime = state.runtimes[i];
    let used = state.used[i];
    if period < 1 || 4096 < period {
        return false;
    }
    if state.cycle % period != 0 {
        return false;
    }
    if runtime == 0 {
        return false;
    }
    if deadline < runtime {
        return false;
    }
    if period < deadline {
        return false;
    }
    if runtime < used {
        return false;
    }
    if state.ended[i] {
        return true;
    }
    if used == runtime {
        return false;
    }
    // no job is older than its period: spares a division
    if deadline == period {
        return true;
    }
    state.position % period < deadline
}

// The jobs of all tasks, unless one of them is not sound.
fn count_jobs(state: &State) -> Option<u32>
    requires { (state.now.count ≤ 16) × (state.now.cycle ≤ 4096) }
    ensures { result ≡ jobs_of state.now }
{
    let mut jobs: u32 = 0;
    for i in 0..state.count {
        if !is_task_sound(state, i) {
            return None;
        }
        jobs += state.cycle / state.periods[i];
    }
    Some(jobs)
}

// The job count of a sound state. Places beyond the task count are not looked at.
pub(crate) fn jobs_if_sound(state: &State) -> Option<u32>
    ensures { result ≡ jobs_if_sound state.now }
{
    if state.count < 1 || 16 < state.count {
        return None;
    }
    if state.cycle < 1 || 4096 < state.cycle {
        return None;
    }
    if state.cycle < state.position {
        return None;
    }
    count_jobs(state)
}
