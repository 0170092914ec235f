// The walk from point to point over tasks in rank. The points of a task are the multiples of its period and of those before it,
// up to its deadline, which is itself one. They are not kept: the next one is the smallest next multiple. Where the last point or
// the cycle's end decides, no other is looked at.
ghost use Rattle.std.specs.Prelude.{◌≡◌, ℕ, ◌≤◌, ◌<◌, min};
ghost use Rattle.basis.specs.Slices.{ceil};
ghost use Rattle.quick.specs.Shapes.{inverse_of, Level, ComesRound, Fits, Stands, Begins, Walked, Tried, FirstFails};

use ranking::Ranked;

// A point, and what the tasks of a level ask for by then.
#[derive(Clone, Copy)]
struct Walk {
    point: u32,
    asked: u32,
}

// Of no task: no point, and nothing is asked for. No multiple that a walk comes to is larger.
const NONE_YET: Walk = Walk {
    point: 8192,
    asked: 0,
};

// Dividing for each task at each point would take most of the time, so it is done once a task: the inverse of a period, in parts
// of 2^32, rounded up. That is one more than what goes into 2^32 - 1, which a division in 32 bits tells.
fn inverse_of(period: u32) -> u64
    requires { 0 < period }
    ensures { result ≡ inverse_of period }
{
    u64::from(u32::MAX / period) + 1
}

// The jobs of a task that are released in t slices: t / period, rounded up. That is exact, as the numbers are small.
fn jobs_in(t: u32, inverse: u64) -> u32
    requires { (1 ≤ t) × (t ≤ 4096) × (inverse ≤ 4294967296) }
    ensures { (T : ℕ) → 0 < T → T ≤ 4096 → inverse ≡ inverse_of T → result ≡ ceil t T }
{
    (u64::from(t - 1) * inverse / 4294967296) as u32 + 1
}

// The first point from slice t on, for the tasks before place n: their smallest multiple.
fn point_from(ranked: &Ranked, inverses: &[u64; 16], n: usize, t: u32) -> Walk
    requires { Fits ranked.now.periods inverses.now ranked.now.runtimes n t }
    ensures { Stands ranked.now.periods ranked.now.runtimes n t result }
{
    let mut walk = NONE_YET;
    for k in 0..n {
        let jobs = jobs_in(t, inverses[k]);
        walk.point = walk.point.min(jobs * ranked.periods[k]);
        walk.asked += jobs * ranked.runtimes[k];
    }
    walk
}

// Goes on from the point given, for the task at place n - 1, until a point passes or more is asked for than there are slices
// before its deadline. A point before what is asked for by now cannot pass, as no later one asks for less: it is passed over.
fn walk_on(ranked: &Ranked, inverses: &[u64; 16], n: usize, due: u32, first: Walk) -> Walk
    requires { Begins ranked.now.periods inverses.now ranked.now.runtimes n due first }
    ensures { Walked ranked.now.periods ranked.now.runtimes n due result }
{
    let mut walk = first;
    while (walk.point < walk.asked) & (walk.asked <= due) {
        walk = point_from(ranked, inverses, n, walk.asked);
    }
    walk
}

// Tries the task at place n - 1: where the walk stands; at its last point, the deadline; then whether the cycle is overfull, for
// then no slice passes. Only where none of these decides, the walk goes on. Of periods that divide each other, with deadlines at
// their ends, one always does. None: it passes at none of its points; or else the walk of the next task begins where this one ends.
fn try_task(
    ranked: &Ranked,
    inverses: &[u64; 16],
    n: usize,
    due: u32,
    cycle: u32,
    first: Walk,
) -> Option<Walk>
    requires { Begins ranked.now.periods inverses.now ranked.now.runtimes n due first × ComesRound ranked.now.periods n cycle }
    ensures { Tried ranked.now.periods ranked.now.runtimes n due result }
{
    if due < first.asked {
        return None;
    }
    if first.asked <= first.point {
        return Some(first);
    }
    let by_deadline = point_from(ranked, inverses, n, due);
    if by_deadline.asked <= due {
        return Some(first);
    }
    let by_cycle = point_from(ranked, inverses, n, cycle);
    if cycle < by_cycle.asked {
        return None;
    }
    let last = walk_on(ranked, inverses, n, due, first);
    if due < last.asked {
        return None;
    }
    Some(last)
}

// The first place whose task passes at none of its points. A task that ranks after another asks for more in every slice, so that
// it cannot pass where the other did not: its walk goes on where that one stood last.
pub(crate) fn first_failing(ranked: &Ranked, count: usize, cycle: u32) -> Option<usize>
    requires { Level ranked.now.periods ranked.now.dues ranked.now.runtimes count × ComesRound ranked.now.periods count cycle }
    ensures { FirstFails ranked.now.periods ranked.now.dues ranked.now.runtimes count result }
{
    let mut inverses = [0u64; 16];
    // The walk's two numbers apart: as one value they would be put together anew at each task, which is slower.
    let mut point = NONE_YET.point;
    let mut asked = NONE_YET.asked;
    for k in 0..count {
        inverses[k] = inverse_of(ranked.periods[k]);
        let first = Walk {
            point: point.min(ranked.periods[k]),
            asked: asked + ranked.runtimes[k],
        };
        let Some(last) = try_task(ranked, &inverses, k + 1, ranked.dues[k], cycle, first) else {
            return Some(k);
        };
        point = last.point;
        asked = last.asked;
    }
    None
}
