// The verdict on a task list, and its table.
#![tactic(auto)]

mod walk; // the slice rule over a cycle, from event to event

ghost use Rattle.std.specs.Prelude.{◌≡◌, ℕ, ◌≤◌, length};
ghost use Rattle.basis.specs.Bytes.{at};
ghost use Rattle.tasks.specs.Bounds.{cycle_of};
ghost use Rattle.tasks.specs.Kept.{Bounded};
ghost use Rattle.verdict.specs.Verdict.{verdict_of};
ghost use Rattle.verdict.specs.Table.{fitted, tabled, Built};
ghost use Rattle.verdict.specs.Walk.{Shown};
ghost use Rattle.verdict.specs.Settling.{Concluded, Settled};

use ranking::Ranked;
use tasks::{InBounds, Refusal, TaskList};

// What an accepted list comes to: its cycle in slices and the jobs in it, and its tightest task, from 1, with that one's margin.
#[derive(Clone, Copy, PartialEq, Eq)]
pub struct Accepted {
    pub cycle: u32,
    pub jobs: u32,
    pub task: usize,
    pub margin: i32,
}

// The verdict: accepted, or the first refusal that applies. Lateness has its margin below zero.
pub type Verdict = Result<Accepted, Refusal>;

// A missed deadline: the task, from 1, and the slices that its job lacked.
#[derive(Clone, Copy)]
pub struct Late {
    pub task: usize,
    pub short: u32,
}

// Refused for lateness, or accepted. Accepted, the entries are the table's, if there are enough of them.
fn conclude(ranked: &Ranked, count: usize, kept: InBounds, entries: &mut [u8]) -> Verdict
    requires { Shown count kept.cycle ranked.now × ((x : ℕ) → at entries.old x ≡ 0) }
    ensures { (S : Shown count kept.cycle ranked.now) → Concluded S.list kept.cycle kept.jobs (length entries.old) entries.new result }
{
    let ends = match walk::simulate(ranked, count, kept.cycle, entries) {
        Ok(ends) => ends,
        Err(Late { task, short }) => {
            let margin = -(short as i32);
            return Err(Refusal::Late { task, margin });
        }
    };
    let best = walk::tightest(&ranked.dues, &ends, count);
    let margin = walk::margin_at(&ranked.dues, &ends, best);
    Ok(Accepted {
        cycle: kept.cycle,
        jobs: kept.jobs,
        task: ranked.order[best] + 1,
        margin: margin as i32,
    })
}

// Nothing may be written before the verdict, so the entries are written aside, and copied if the list is accepted.
fn with_table(
    ranked: &Ranked,
    count: usize,
    kept: InBounds,
    entries: &mut [u8],
    table: &mut [u8],
) -> Verdict
    requires { Shown count kept.cycle ranked.now × ((x : ℕ) → at entries.old x ≡ 0) × (kept.cycle ≤ length entries.old) × (kept.cycle ≤ length table.old) }
    ensures { (S : Shown count kept.cycle ranked.now) → Settled S.list kept.cycle kept.jobs table.old table.new result }
{
    let accepted = conclude(ranked, count, kept, entries)?;
    let slices = kept.cycle as usize;
    table[..slices].copy_from_slice(&entries[..slices]);
    Ok(accepted)
}

// The slices that a task asks for in a cycle; behind the last task the numbers are 0.
fn asks(period: u32, runtime: u32, cycle: u32) -> u64 {
    if period == 0 {
        return 0;
    }
    u64::from(runtime) * u64::from(cycle / period)
}

// Whether the tasks ask for more slices than the cycle has. Only a hint of what to try first: it promises nothing.
fn asks_too_much(ranked: &Ranked, cycle: u32) -> bool {
    let mut asked: u64 = 0;
    for (&period, &runtime) in ranked.periods.iter().zip(&ranked.runtimes) {
        asked = asked.wrapping_add(asks(period, runtime, cycle));
    }
    u64::from(cycle) < asked
}

// A list that keeps all bounds is refused for lateness, or accepted, with its table if that is long enough.
fn decide(list: TaskList, kept: InBounds, table: &mut [u8]) -> Verdict
    requires { Bounded list × (kept.cycle ≡ cycle_of list) }
    ensures { Settled list kept.cycle kept.jobs table.old table.new result }
{
    let mut ranked = Ranked::unranked();
    ranking::by_rank(list, &mut ranked);
    let count = list.count;
    let slices = kept.cycle as usize;
    if table.len() < slices {
        return conclude(&ranked, count, kept, &mut []);
    }
    // a short cycle has fewer entries, which are sooner made
    if kept.cycle <= 256 {
        let mut entries = [0u8; 256];
        return with_table(&ranked, count, kept, &mut entries, table);
    }
    // a list that asks for too much should be late: it is tried without entries first, which take a while to make
    if asks_too_much(&ranked, kept.cycle) {
        conclude(&ranked, count, kept, &mut [])?;
    }
    let mut entries = [0u8; 4096];
    with_table(&ranked, count, kept, &mut entries, table)
}

// The verdict, and the table of an accepted list if it is long enough.
fn settle(list: TaskList, supply: u32, table: &mut [u8]) -> Verdict
    ensures { (result ≡ verdict_of list supply) × (table.new ≡ tabled list (fitted result (length table.old)) table.old) }
{
    let kept = tasks::check_bounds(list, supply)?;
    decide(list, kept, table)
}

// The verdict on a list.
pub fn judge(list: TaskList, supply: u32) -> Verdict
    ensures { result ≡ verdict_of list supply }
{
    settle(list, supply, &mut [])
}

// The verdict, and where the list is accepted its table in the lent bytes. A table that is too short is refused last.
pub fn build(list: TaskList, supply: u32, table: &mut [u8]) -> Verdict
    ensures { Built list supply table.old table.new result }
{
    let accepted = settle(list, supply, table)?;
    if table.len() < accepted.cycle as usize {
        return Err(Refusal::ShortTable);
    }
    Ok(accepted)
}
