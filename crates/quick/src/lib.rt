// The quick question, asked after every key: accepted, or the refusal's number and the task that it names.
#![tactic(auto)]

mod walk; // from point to point

ghost use Rattle.std.specs.Prelude.{◌≡◌};
ghost use Rattle.plan.specs.Points.{first_without};
ghost use Rattle.tasks.specs.List.{plan_of};
ghost use Rattle.tasks.specs.Bounds.{cycle_of};
ghost use Rattle.tasks.specs.Kept.{Bounded};
ghost use Rattle.quick.specs.Quick.{named, quick_of, tried};

use ranking::Ranked;
use tasks::{Refusal, TaskList};

// Why a list is refused: the refusal's number and the task that it names. No margin, and not which two periods clash.
#[derive(Clone, Copy, PartialEq, Eq)]
pub struct Refused {
    pub number: u32,
    pub task: usize,
}

#[tactic(auto, unfolding(crate::specs::Quick::named))]
fn named(refusal: Refusal) -> Refused
    ensures { result ≡ named refusal }
{
    Refused {
        number: refusal.number(),
        task: refusal.task(),
    }
}

// A list that keeps all bounds is refused for lateness, or accepted.
fn try_points(list: TaskList, cycle: u32) -> Result<(), Refused>
    requires { Bounded list × (cycle ≡ cycle_of list) }
    ensures { result ≡ tried (first_without (plan_of list)) }
{
    let mut ranked = Ranked::unranked();
    ranking::by_rank(list, &mut ranked);
    match walk::first_failing(&ranked, list.count, cycle) {
        Some(place) => Err(named(Refusal::Fails {
            task: ranked.order[place] + 1,
        })),
        None => Ok(()),
    }
}

// Refusals 1 to 6 and 20 first, then the points.
pub fn ask(list: TaskList, supply: u32) -> Result<(), Refused>
    ensures { result ≡ quick_of list supply }
{
    match tasks::check_bounds(list, supply) {
        Ok(bounds) => try_points(list, bounds.cycle),
        Err(refusal) => Err(named(refusal)),
    }
}
