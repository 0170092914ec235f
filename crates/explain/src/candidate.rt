// Which needs lead the filling run of an accepted list to a run: only what the run gives each job can. Whether that does is seen
// slice by slice, walking back from the end: what a job got from a slice on is then at hand, and a slice has to go to the
// first-ranking task whose job is still to get some. Place k of each array is the k-th task's by rank.
ghost use Rattle.std.specs.Prelude.{◌≡◌, ℕ, suc, ◌+◌, ◌*◌, ◌≤◌, ◌<◌, eqb, length};
ghost use Rattle.basis.specs.Bytes.{at};
ghost use Rattle.basis.specs.Choose.{choose};
ghost use Rattle.basis.specs.Sum.{sum};
ghost use Rattle.plan.specs.Plan.{gets};
ghost use Rattle.plan.specs.Order.{FirstIn};
ghost use Rattle.needs.specs.Explained.{given_in};
ghost use Rattle.tasks.specs.List.{plan_of};
ghost use Rattle.tasks.specs.Bounds.{jobs_of};
ghost use Rattle.explain.specs.Seen.{NeedsIn};
ghost use Rattle.explain.specs.Shapes.{SeenRun, Leads, start_then, got_then, fits_at, waits_for, waits_at, CanGoBack, Back, CanWait, Laid};

use ranking::Ranked;
use tasks::TaskList;

// The release of a task's job of slice t, from that of the next slice's.
fn start_then(start: u32, period: u32, t: u32) -> u32
    requires { (t < 4096) × (t + 1 ≡ start → period ≤ start) }
    ensures { result ≡ start_then start period t }
{
    if t + 1 == start {
        return start - period;
    }
    start
}

// What that job gets from the slice behind slice t on: nothing, if slice t is its last.
fn got_before(got: u32, start: u32, t: u32) -> u32
    requires { t < 4096 }
    ensures { result ≡ choose (eqb (t + 1) start) 0 got }
{
    if t + 1 == start {
        return 0;
    }
    got
}

// 1 if the entry is the task's.
#[tactic(auto, unfolding(plan::specs::Plan::gets, basis::specs::Choose::choose))]
fn gets_one(entry: usize, task: usize) -> u32
    requires { task < 16 }
    ensures { result ≡ gets entry task }
{
    u32::from(entry == task + 1)
}

// Whether a job got from 1 slice to its run-time, if it is released at slice t.
fn fits_at(start: u32, got: u32, runtime: u32, t: u32) -> bool
    ensures { result ≡ fits_at start got runtime t }
{
    if start != t {
        return true;
    }
    (1 <= got) & (got <= runtime)
}

// Goes back to slice t, which has this entry, and says whether all jobs released there fit.
fn go_back(
    ranked: &Ranked,
    starts: &mut [u32; 16],
    got: &mut [u32; 16],
    count: usize,
    t: u32,
    entry: usize,
) -> bool
    requires { CanGoBack ranked.now.order ranked.now.periods starts.old got.old count t }
    ensures { Back ranked.now.order ranked.now.periods ranked.now.runtimes starts.old got.old count t entry starts.new got.new result }
{
    let mut fit = true;
    for k in 0..count {
        let last = starts[k];
        let start = start_then(last, ranked.periods[k], t);
        let gets = got_before(got[k], last, t) + gets_one(entry, ranked.order[k]);
        starts[k] = start;
        got[k] = gets;
        fit &= fits_at(start, gets, ranked.runtimes[k], t);
    }
    fit
}

// What a job is still to get at slice t, if its deadline is not past.
fn waits_for(start: u32, due: u32, got: u32, t: u32) -> u32
    requires { start + due ≤ 8192 }
    ensures { result ≡ waits_for start due got t }
{
    if t < start + due {
        return got;
    }
    0
}

// The entry that slice t must have: that of the first-ranking task that waits.
fn next_entry(ranked: &Ranked, starts: &[u32; 16], got: &[u32; 16], count: usize, t: u32) -> usize
    requires { CanWait ranked.now.order ranked.now.dues starts.now count }
    ensures { FirstIn ranked.now.order (waits_at ranked.now.dues starts.now got.now t) count result }
{
    for k in 0..count {
        if waits_for(starts[k], ranked.dues[k], got[k], t) != 0 {
            return ranked.order[k] + 1;
        }
    }
    0
}

// Whether any needs lead the filling run to this run.
pub(crate) fn leads(list: TaskList, run: &[u8], cycle: u32) -> bool
    requires { SeenRun list cycle run.now }
    ensures { Leads list run.now result }
{
    let mut ranked = Ranked::unranked();
    ranking::by_rank(list, &mut ranked);
    let mut starts = [cycle; 16];
    let mut got = [0u32; 16];
    for t in (0..cycle).rev() {
        let entry = usize::from(run[t as usize]);
        if !go_back(&ranked, &mut starts, &mut got, list.count, t, entry) {
            return false;
        }
        if next_entry(&ranked, &starts, &got, list.count, t) != entry {
            return false;
        }
    }
    true
}

// How many of some slices have this entry.
fn count_in(run: &[u8], entry: u8) -> u32
    requires { length run.now ≤ 4096 }
    ensures { (i : ℕ) → entry ≡ suc i → result ≡ sum (λ n. gets (at run.now n) i) (length run.now) }
{
    let mut count = 0;
    for &other in run {
        if other == entry {
            count += 1;
        }
    }
    count
}

// What the run gives each of a task's jobs, from one place on.
fn give_task(run: &[u8], period: usize, jobs: usize, entry: u8, needs: &mut [u32], from: usize)
    requires { (period ≤ 4096) × (jobs * period ≤ length run.now) × (from + jobs ≤ length needs.old) }
    ensures { (i : ℕ) → entry ≡ suc i → Laid (λ k. sum (λ n. gets (at run.now (k * period + n)) i) period) from jobs needs.old needs.new }
{
    for k in 0..jobs {
        let start = k * period;
        needs[from + k] = count_in(&run[start..start + period], entry);
    }
}

// The needs: what the run gives each job, in the log's order.
pub(crate) fn give(list: TaskList, run: &[u8], cycle: u32, needs: &mut [u32])
    requires { SeenRun list cycle run.now × (jobs_of list ≤ length needs.old) }
    ensures { NeedsIn list (given_in (plan_of list) run.now) needs.old needs.new }
{
    let mut from = 0;
    for i in 0..list.count {
        let period = list.tasks[i].period;
        let jobs = (cycle / period) as usize;
        give_task(run, period as usize, jobs, (i + 1) as u8, needs, from);
        from += jobs;
    }
}
