// The task list by value, its cycle by Euclid's rule, and what bounds it: refusals 1 to 6 and 20.
#![tactic(auto)]

mod refusals; // why a call is refused

ghost use Rattle.std.specs.Prelude.{◌≡◌, ℕ, ◌+◌, ◌≤◌, ◌<◌};
ghost use Rattle.basis.specs.Answer.{first_found};
ghost use Rattle.tasks.specs.List.{due_of, key_of, runtime_of};
ghost use Rattle.tasks.specs.Euclid.{gcd_of, lcm_of};
ghost use Rattle.tasks.specs.Bounds.{of_numbers, of_task, of_memory, of_cycle, job_sum, cycle_of, bounds_of};
ghost use Rattle.tasks.specs.Refusal.{unless_broken};
ghost use Rattle.tasks.specs.Kept.{AllFit};

pub use refusals::Refusal;

// Period, run-time and deadline in slices, the deadline counted from the release; sample memory in words.
#[derive(Clone, Copy)]
pub struct Task {
    pub period: u32,
    pub runtime: u32,
    pub memory: u32,
    pub deadline: u32,
}

// Up to 16 tasks, numbered from 1 in list order. The count may say more, which is then refused.
#[derive(Clone, Copy)]
pub struct TaskList {
    pub tasks: [Task; 16],
    pub count: usize,
}

// The deadline of a task's jobs, counted from the release.
pub fn due_of(task: Task) -> u32
    ensures { result ≡ due_of task }
{
    task.deadline
}

// What its jobs are ranked by, whichever job k: smaller first.
pub fn key_of(task: Task) -> u32
    ensures { (k : ℕ) → result ≡ key_of task k }
{
    task.deadline
}

// The run-time of its jobs, whichever job k.
pub fn runtime_of(task: Task) -> u32
    ensures { (k : ℕ) → result ≡ runtime_of task k }
{
    task.runtime
}

// What a list that keeps all bounds comes to: its cycle in slices, and the jobs in it.
#[derive(Clone, Copy)]
pub struct InBounds {
    pub cycle: u32,
    pub jobs: u32,
}

// The greatest common divisor by Euclid's rule: the second number falls at each call.
fn gcd(a: u32, b: u32) -> u32
    ensures { result ≡ gcd_of a b }
{
    if b == 0 { a } else { gcd(b, a % b) }
}

// The least common multiple, which rests on it; 0 if one of the numbers is. In 64 bits, where the product cannot wrap.
pub fn lcm(a: u32, b: u32) -> u64
    ensures { result ≡ lcm_of a b }
{
    if a == 0 {
        return 0;
    }
    u64::from(a / gcd(a, b)) * u64::from(b)
}

// Refusals 3, 4 and 20 of the task of that number.
fn check_task(task: &Task, number: usize) -> Result<(), Refusal>
    ensures { result ≡ unless_broken (of_numbers task.now.period task.now.runtime task.now.deadline number) tt }
{
    if !(1..=4096).contains(&task.period) {
        return Err(Refusal::PeriodOutside { task: number });
    }
    if !(1..=task.period).contains(&task.runtime) {
        return Err(Refusal::RuntimeOutside { task: number });
    }
    if !(task.runtime..=task.period).contains(&task.deadline) {
        return Err(Refusal::DeadlineOutside { task: number });
    }
    Ok(())
}

// The first task that is refused by 3, 4 or 20.
fn check_tasks(list: &TaskList) -> Result<(), Refusal>
    requires { list.now.count ≤ 16 }
    ensures { result ≡ unless_broken (first_found (of_task list.now.tasks) list.now.count) tt }
{
    for (i, task) in list.tasks[..list.count].iter().enumerate() {
        check_task(task, i + 1)?;
    }
    Ok(())
}

// The first at which the memory exceeds the supply.
fn check_memory(list: &TaskList, supply: u32) -> Result<(), Refusal>
    requires { list.now.count ≤ 16 }
    ensures { result ≡ unless_broken (first_found (of_memory list.now.tasks supply) list.now.count) tt }
{
    let mut sum: u64 = 0;
    for (i, task) in list.tasks[..list.count].iter().enumerate() {
        sum += u64::from(task.memory);
        if u64::from(supply) < sum {
            return Err(Refusal::MemoryExceeded { task: i + 1 });
        }
    }
    Ok(())
}

// The least common multiple of the periods, given up where it rises above 4,096.
fn cycle_of(list: &TaskList) -> Result<u32, Refusal>
    requires { AllFit list.now }
    ensures { result ≡ unless_broken (first_found (of_cycle list.now.tasks) list.now.count) (cycle_of list.now) }
{
    let mut multiple: u32 = 1;
    for (i, task) in list.tasks[..list.count].iter().enumerate() {
        let next = lcm(multiple, task.period);
        if 4096 < next {
            return Err(Refusal::CycleTooLong {
                task: i + 1,
                reached: multiple,
                period: task.period,
            });
        }
        multiple = next as u32;
    }
    Ok(multiple)
}

// The jobs of all tasks in so many slices.
fn count_jobs(list: &TaskList, cycle: u32) -> u32
    requires { AllFit list.now × (cycle ≤ 4096) }
    ensures { result ≡ job_sum list.now.tasks cycle list.now.count }
{
    let mut jobs = 0;
    for task in &list.tasks[..list.count] {
        jobs += cycle / task.period;
    }
    jobs
}

// Refusals 1 to 6 and 20, or the cycle and the job count.
pub fn check_bounds(list: TaskList, supply: u32) -> Result<InBounds, Refusal>
    ensures { result ≡ bounds_of list supply }
{
    if list.count == 0 {
        return Err(Refusal::NoTasks);
    }
    if 16 < list.count {
        return Err(Refusal::TooManyTasks);
    }
    check_tasks(&list)?;
    check_memory(&list, supply)?;
    let cycle = cycle_of(&list)?;
    let jobs = count_jobs(&list, cycle);
    Ok(InBounds { cycle, jobs })
}
