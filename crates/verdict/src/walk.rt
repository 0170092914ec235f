// The slice rule over a cycle. It walks from event to event, an event being a release or a deadline: in between nothing changes
// but that the open jobs run in the order of their ranks, one after the other. Place k of each array is the k-th task's by rank.
ghost use Rattle.std.specs.Prelude.{◌≡◌, ℕ, ◌-◌, ◌<◌, ◌≤◌, length};
ghost use Rattle.basis.specs.Bytes.{at};
ghost use Rattle.tasks.specs.List.{plan_of};
ghost use Rattle.verdict.specs.Shapes.{Fits, HandedOne, HandedOut, Filled, TurnedOne, TurnedAll, margin_at, Tighter, TightestAt, SameEvents};
ghost use Rattle.verdict.specs.Walk.{Shown, Walked};

use crate::Late;
use ranking::Ranked;

// Writes one entry for the slices of a turn, if there are entries up to its end.
fn fill(entries: &mut [u8], from: u32, to: u32, entry: usize)
    requires { (from ≤ to) × (entry ≤ 16) }
    ensures { to ≤ length entries.old → Filled entries.old from to entry entries.new }
{
    let end = to as usize;
    if entries.len() < end {
        return;
    }
    let byte = entry as u8;
    let turn = &mut entries[from as usize..end];
    for held in turn.iter_mut() {
        // a turn is mostly short, and as plain stores the loop would become a call
        if *held != byte {
            *held = byte;
        }
    }
}

// How the tasks by rank stand before a slice: what each lacks, when its current job was released, its next event, and the end of
// its first job so far.
#[derive(Clone, Copy)]
struct Jobs {
    lacks: [u32; 16],
    releases: [u32; 16],
    events: [u32; 16],
    ends: [u32; 16],
}

impl Jobs {
    // The turn of the task at place k begins at a slice and ends where it has what it lacks, at the next event at the latest: the
    // answer. In its first job that is the end of the job so far.
    fn hand_one(
        &mut self,
        ranked: &Ranked,
        entries: &mut [u8],
        k: usize,
        t: u32,
        from: u32,
        next: u32,
    ) -> u32
        requires { (k < 16) × (from < next) × (at ranked.now.order k < 16) }
        ensures { HandedOne ranked.now.order ranked.now.dues self.old.lacks self.old.ends entries.old k t from next self.new.lacks self.new.ends entries.new result × SameEvents self.old self.new }
    {
        let lack = self.lacks[k];
        if lack == 0 {
            return from;
        }
        let take = lack.min(next - from);
        let to = from + take;
        self.lacks[k] = lack - take;
        fill(entries, from, to, ranked.order[k] + 1);
        if ranked.dues[k] <= t {
            return to;
        }
        self.ends[k] = to;
        to
    }

    // Hands out the slices from slice t to the next event: each task in turn takes what it lacks.
    fn hand_out(&mut self, ranked: &Ranked, entries: &mut [u8], count: usize, t: u32, next: u32)
        requires { (count ≤ 16) × (t < next) × ((k : ℕ) → k < count → at ranked.now.order k < 16) }
        ensures { HandedOut ranked.now.order ranked.now.dues self.old.lacks self.old.ends entries.old count t next self.new.lacks self.new.ends entries.new × SameEvents self.old self.new }
    {
        let mut from = t;
        for k in 0..count {
            let to = self.hand_one(ranked, entries, k, t, from, next);
            if to == next {
                return;
            }
            from = to;
        }
    }

    // What slice t brings to the task at place k. The answer is its next event, or none if it misses its deadline there.
    fn turn_one(&mut self, ranked: &Ranked, k: usize, t: u32) -> Option<u32>
        requires { (k < 16) × Fits (at ranked.now.periods k) (at ranked.now.dues k) (at self.old.releases k) (at self.old.events k) t }
        ensures { TurnedOne ranked.now.periods ranked.now.dues ranked.now.runtimes self.old.releases self.old.events self.old.lacks t k self.new.releases self.new.events self.new.lacks result × (self.new.ends ≡ self.old.ends) }
    {
        let event = self.events[k];
        if event != t {
            return Some(event);
        }
        if self.lacks[k] != 0 {
            return None;
        }
        let release = self.releases[k] + ranked.periods[k];
        if t < release {
            self.events[k] = release;
            return Some(release);
        }
        let due = t + ranked.dues[k];
        self.releases[k] = t;
        self.events[k] = due;
        self.lacks[k] = ranked.runtimes[k];
        Some(due)
    }

    // The first task by rank that misses its deadline at slice t; if none does, the next event of all.
    fn turn(&mut self, ranked: &Ranked, count: usize, t: u32) -> Result<u32, Late>
        requires { (count ≤ 16) × ((k : ℕ) → k < count → at ranked.now.order k < 16) × ((k : ℕ) → k < count → Fits (at ranked.now.periods k) (at ranked.now.dues k) (at self.old.releases k) (at self.old.events k) t) }
        ensures { TurnedAll ranked.now.order ranked.now.periods ranked.now.dues ranked.now.runtimes self.old.releases self.old.events self.old.lacks count t self.new.releases self.new.events self.new.lacks result × (self.new.ends ≡ self.old.ends) }
    {
        let mut next: u32 = 8192;
        for k in 0..count {
            let Some(event) = self.turn_one(ranked, k, t) else {
                return Err(Late {
                    task: ranked.order[k] + 1,
                    short: self.lacks[k],
                });
            };
            next = next.min(event);
        }
        Ok(next)
    }
}

// The slice rule over a cycle, up to the first missed deadline: the ends of the first jobs, and the entries if there are enough of
// them. The first event is the first deadline by rank.
pub(crate) fn simulate(
    ranked: &Ranked,
    count: usize,
    cycle: u32,
    entries: &mut [u8],
) -> Result<[u32; 16], Late>
    requires { Shown count cycle ranked.now × ((x : ℕ) → at entries.old x ≡ 0) }
    ensures { (S : Shown count cycle ranked.now) → Walked (plan_of S.list) cycle ranked.now.order (length entries.old) entries.new result }
{
    let mut jobs = Jobs {
        lacks: ranked.runtimes,
        releases: [0; 16],
        events: ranked.dues,
        ends: [0; 16],
    };
    let mut t = 0;
    let mut next = ranked.dues[0];
    while t < cycle {
        jobs.hand_out(ranked, entries, count, t, next);
        let later = jobs.turn(ranked, count, next)?;
        t = next;
        next = later;
    }
    Ok(jobs.ends)
}

// The margin of the task at place k.
pub(crate) fn margin_at(dues: &[u32; 16], ends: &[u32; 16], k: usize) -> u32
    requires { (k < 16) × (at ends.now k ≤ at dues.now k) }
    ensures { result ≡ margin_at dues.now ends.now k }
{
    dues[k] - ends[k]
}

// The place of the tighter of two tasks, of which `best` stands earlier: the smaller margin, then the first-ranking one.
fn tighter(dues: &[u32; 16], ends: &[u32; 16], k: usize, best: usize) -> usize
    requires { (k < 16) × (best < 16) × (at ends.now k ≤ at dues.now k) × (at ends.now best ≤ at dues.now best) }
    ensures { Tighter (margin_at dues.now ends.now) k best result }
{
    if margin_at(dues, ends, k) < margin_at(dues, ends, best) {
        k
    } else {
        best
    }
}

// The place of the tightest task.
pub(crate) fn tightest(dues: &[u32; 16], ends: &[u32; 16], count: usize) -> usize
    requires { (1 ≤ count) × (count ≤ 16) × ((k : ℕ) → k < count → at ends.now k ≤ at dues.now k) }
    ensures { TightestAt (margin_at dues.now ends.now) count result }
{
    let mut best = 0;
    for k in 1..count {
        best = tighter(dues, ends, k, best);
    }
    best
}
