// The lists that the rules paper works by hand and that no theorem states, microseconds, and its run on A: each value found beside
// the paper's.
#![tactic(auto)]

use run::Mode;
use std::{fmt, io};
use tasks::Task;
use verdict::Verdict;

// Prints each comparison, and counts what they come to.
#[derive(Drop)]
struct Tally<'a, R> {
    rt: &'a R,
    agree: u32,
    differ: u32,
}

impl<R: Print> Tally<'_, R> {
    fn compare<T: fmt::Display + PartialEq + Copy>(
        &mut self,
        what: impl fmt::Display + Drop,
        found: T,
        paper: T,
    ) -> io::Result<()> {
        let rt = self.rt;
        print!(rt; "{what} found {found}, paper {paper}: ")?;
        if found == paper {
            self.agree = self.agree.saturating_add(1);
            rt.println("agree")
        } else {
            self.differ = self.differ.saturating_add(1);
            rt.println("DIFFER")
        }
    }

    // A list that the paper has refused, with the task that the refusal names.
    fn compare_refusal(
        &mut self,
        list: &str,
        judged: Verdict,
        number: u32,
        task: usize,
    ) -> io::Result<()> {
        let (found, named) = refusal_of(judged);
        self.compare(format_args!("{list} refusal"), found, number)?;
        self.compare(format_args!("{list} task"), named, task)
    }

    fn compare_runtime(
        &mut self,
        micros: u32,
        slice: u32,
        tick: u32,
        paper: Option<u32>,
    ) -> io::Result<()> {
        let found = units::runtime_slices(micros, slice, tick);
        let what = format_args!("{micros} microseconds in slices of {slice}, tick cost {tick}");
        self.compare(
            format_args!("{what}: refusal"),
            unconverted(found),
            unconverted(paper),
        )?;
        self.compare(
            format_args!("{what}: slices"),
            found.unwrap_or(0),
            paper.unwrap_or(0),
        )
    }
}

// With memory 0.
fn task(period: u32, runtime: u32) -> Task {
    Task {
        period,
        runtime,
        memory: 0,
        deadline: period,
    }
}

fn judge(tasks: &[Task]) -> Verdict {
    lent::judge_lent(tasks, 0)
}

// The number of a refusal and the task that it names, 0 and 0 of an accepted list.
fn refusal_of(judged: Verdict) -> (u32, usize) {
    match judged {
        Ok(_) => (0, 0),
        Err(refusal) => (refusal.number(), refusal.task()),
    }
}

// Why two periods clash: the multiple before the task, and its period; 0 and 0 of any other verdict.
fn clash_of(judged: Verdict) -> (u32, u32) {
    match judged {
        Ok(_) => (0, 0),
        Err(refusal) => (refusal.reached(), refusal.period()),
    }
}

// The cycle and the margin of an accepted list, 0 and 0 of a refused one.
fn accepted_of(judged: Verdict) -> (u32, i32) {
    match judged {
        Ok(accepted) => (accepted.cycle, accepted.margin),
        Err(_) => (0, 0),
    }
}

fn lists_of_one<R: Print>(tally: &mut Tally<R>) -> io::Result<()> {
    let long = judge(&[task(4096, 1)]);
    let (number, _) = refusal_of(long);
    let (_, margin) = accepted_of(long);
    tally.compare("(4096,1) refusal", number, 0)?;
    tally.compare("(4096,1) margin", margin, 4095)?;
    tally.compare_refusal("(4097,1)", judge(&[task(4097, 1)]), 3, 1)?;
    tally.compare_refusal("(0,0)", judge(&[task(0, 0)]), 3, 1)
}

fn lists_of_two<R: Print>(tally: &mut Tally<R>) -> io::Result<()> {
    let wide = judge(&[task(63, 1), task(64, 1)]);
    let (number, _) = refusal_of(wide);
    let (cycle, _) = accepted_of(wide);
    tally.compare("(63,1)(64,1) refusal", number, 0)?;
    tally.compare("(63,1)(64,1) cycle", cycle, 4032)?;
    let wider = judge(&[task(64, 1), task(65, 1)]);
    let (reached, period) = clash_of(wider);
    tally.compare_refusal("(64,1)(65,1)", wider, 6, 2)?;
    tally.compare("(64,1)(65,1) multiple before it", reached, 64)?;
    tally.compare("(64,1)(65,1) its period", period, 65)?;
    tally.compare("(64,1)(65,1) multiple", tasks::lcm(64, 65), 4160)?;
    let over = judge(&[task(3, 4), task(0, 1)]);
    let (reached, _) = clash_of(over);
    tally.compare_refusal("(3,4)(0,1)", over, 4, 1)?;
    tally.compare("(3,4)(0,1) multiple before it", reached, 0)
}

// 1,001 microseconds are no whole number of slices of 500: the conversion is refused, and a period of 0 after it.
fn part_of_a_slice<R: Print>(tally: &mut Tally<R>) -> io::Result<()> {
    let what = "1,001 microseconds in slices of 500:";
    let part = bench::task_in(1001, 500, 0, 1001, 500, 0);
    tally.compare(format_args!("{what} period"), part.period, 0)?;
    tally.compare(format_args!("{what} run-time of 500"), part.runtime, 1)?;
    tally.compare_refusal(what, judge(&[part]), 3, 1)
}

// It takes nothing of a period. So a job that wants all of its 2 slices takes 3, and its list is refused.
fn period_and_runtime<R: Print>(tally: &mut Tally<R>) -> io::Result<()> {
    let what = "1,000 of 1,000 microseconds, tick cost 20:";
    let full = bench::task_in(1000, 1000, 0, 1000, 500, 20);
    let (number, _) = refusal_of(judge(&[full]));
    tally.compare(format_args!("{what} period"), full.period, 2)?;
    tally.compare(format_args!("{what} run-time"), full.runtime, 3)?;
    tally.compare(format_args!("{what} refusal"), number, 4)
}

// The number of a conversion's refusal.
fn unconverted(slices: Option<u32>) -> u32 {
    if slices.is_none() { 17 } else { 0 }
}

// The tick takes its share of every slice of a run-time; to the ends of 32 bits nothing wraps.
fn runtimes<R: Print>(tally: &mut Tally<R>) -> io::Result<()> {
    tally.compare_runtime(1000, 500, 20, Some(3))?;
    tally.compare_runtime(1000, 500, 0, Some(2))?;
    tally.compare_runtime(1000, 500, 500, None)?;
    tally.compare_runtime(1000, 0, 0, None)?;
    let longest = u32::MAX;
    tally.compare_runtime(longest, longest, 0, Some(1))?;
    tally.compare_runtime(longest, longest, 1, Some(2))?;
    tally.compare_runtime(longest, longest, longest - 2, Some(2147483648))?;
    tally.compare_runtime(longest, longest, longest - 1, Some(longest))?;
    tally.compare_runtime(longest, longest, longest, None)
}

// The run on A: task 1 with needs 1 1 1, task 2 with needs 1 5, task 3 with need 3.
fn run_on_a<R: Print>(
    tally: &mut Tally<R>,
    asked: Option<Mode>,
    third_ends: u32,
) -> io::Result<()> {
    let list = lent::copied(&[task(4, 1), task(6, 2), task(12, 3)]);
    let needs = [1, 1, 1, 1, 5, 3];
    let mut table = [0; 4096];
    let mut log = [0; 6];
    let mut ends = [0; 6];
    bench::drive(list, 0, asked, 0, &needs, &mut table, &mut log, &mut ends);
    let jobs = [
        ("task 1, first job", 1),
        ("task 1, second job", 1),
        ("task 1, third job", 1),
        ("task 2, first job", 1),
        ("task 2, second job", 2),
        ("task 3", 1),
    ];
    for (&byte, &(job, paper)) in log.iter().zip(&jobs) {
        tally.compare(format_args!("{job}: log byte"), byte, paper)?;
    }
    tally.compare("task 2, second job: end", ends[4], 8)?;
    tally.compare("task 3: end", ends[5], third_ends)
}

fn main(rt: HostRuntime) -> io::Result<()> {
    let mut tally = Tally {
        rt: &rt,
        agree: 0,
        differ: 0,
    };
    println!(rt; "lists")?;
    lists_of_one(&mut tally)?;
    lists_of_two(&mut tally)?;
    println!(rt; "microseconds")?;
    part_of_a_slice(&mut tally)?;
    runtimes(&mut tally)?;
    period_and_runtime(&mut tally)?;
    println!(rt; "run on A by the table")?;
    run_on_a(&mut tally, Some(Mode::Table), 10)?;
    println!(rt; "run on A filling")?;
    run_on_a(&mut tally, Some(Mode::Filling), 6)?;
    let agree = tally.agree;
    let differ = tally.differ;
    println!(rt; "{agree} agree, {differ} differ")
}
