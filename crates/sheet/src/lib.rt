// The sheet that a drive of the bench's five tasks prints: what list it is, how tight, and how each job ended.
#![tactic(auto)]

use bench::{Driven, SLICE, SUPPLY, TICK};
use readings::{Logged, Refusal as Part};
use run::Mode;
use std::{fmt, io};
use tasks::{Refusal, Task, TaskList};
use verdict::Accepted;

// A text, and a margin after it, which is signed.
pub fn say_margin(rt: &impl Print, text: &[u8], margin: i32) -> io::Result<()> {
    rt.write_all(text)?;
    rt.print(margin)
}

// A task by its number and, if it is one of the bench's five, its name.
#[derive(Clone, Copy)]
struct Named(usize);

impl fmt::Display for Named {
    fn fmt<W: fmt::Write>(&self, f: &mut fmt::Formatter<W>) -> fmt::Result {
        let task = self.0;
        let name = match task {
            1 => " positioner",
            2 => " power meter",
            3 => " sweep",
            4 => " link watch",
            5 => " log writer",
            _ => "",
        };
        write!(f, "{task}{name}")
    }
}

// Which part of the product refuses.
fn part_of(number: u32) -> &'static str {
    match readings::read_refusal(number) {
        Part::Bound(_) => "a bound of the list",
        Part::Lateness => "a deadline missed",
        Part::ShortTable => "table too short",
        Part::Run(_) => "the run",
        Part::Program(_) => "the program",
        Part::Conversion => "a conversion",
        Part::Viewer(_) => "the viewer",
        Part::NoRefusal(_) => "no refusal of ours",
    }
}

// A refusal by its number, with what it names.
#[derive(Clone, Copy)]
struct Refused(Refusal);

impl fmt::Display for Refused {
    fn fmt<W: fmt::Write>(&self, f: &mut fmt::Formatter<W>) -> fmt::Result {
        let refusal = self.0;
        let number = refusal.number();
        let part = part_of(number);
        let task = refusal.task();
        let margin = refusal.margin();
        write!(f, "refusal {number} ({part}), task {task}, margin {margin}")?;
        // why two periods clash
        if let Refusal::CycleTooLong {
            reached,
            period,
            ..
        } = refusal
        {
            write!(f, ", multiple before it {reached}, its period {period}")?;
        }
        Ok(())
    }
}

fn words_of_mode(mode: Mode) -> &'static str {
    match mode {
        Mode::Table => "run by the table",
        Mode::Filling => "run filling freed slices",
    }
}

// The log byte in words. No result is never a pass.
fn words_of_result(byte: u8) -> &'static str {
    match readings::read_logged(byte) {
        Logged::NoResult => "none",
        Logged::Done => "done",
        Logged::Over => "over",
        Logged::Late => "late",
        Logged::Damaged(_) => "damaged",
    }
}

// How many jobs of a task the log is read for: one at least, since in an accepted list every task has a job.
fn jobs_in(cycle: u32, period: u32) -> u32 {
    if period == 0 {
        1
    } else {
        (cycle / period).max(1)
    }
}

// Each job that the log has a byte of, by task and number; an end that is not there is 0.
fn print_jobs(
    rt: &impl Print,
    list: TaskList,
    cycle: u32,
    log: &[u8],
    ends: &[u32],
) -> io::Result<()> {
    let mut bytes = log.iter();
    let mut ends = ends.iter();
    for (i, task) in list.tasks.iter().take(list.count).enumerate() {
        let name = Named(i + 1);
        for job in 0..jobs_in(cycle, task.period) {
            let Some(&byte) = bytes.next() else {
                return Ok(());
            };
            let result = words_of_result(byte);
            let end = ends.next().copied().unwrap_or(0);
            println!(rt; "task {name}, job {job}: {byte} {result}, ended at {end}")?;
        }
    }
    Ok(())
}

// Prints the sheet of a drive.
pub fn print(
    rt: &impl Print,
    name: &[u8],
    list: TaskList,
    driven: Driven,
    log: &[u8],
    ends: &[u32],
) -> io::Result<()> {
    let count = list.count;
    rt.write_all(name)?;
    println!(rt; ": {count} tasks in slices of {SLICE} microseconds, tick cost {TICK}")?;
    let accepted = match driven.built {
        Ok(accepted) => accepted,
        Err(refusal) => return rt.println(Refused(refusal)),
    };
    let Accepted {
        cycle,
        jobs,
        task,
        margin,
    } = accepted;
    let tightest = Named(task);
    print!(rt; "cycle {cycle}, jobs {jobs}; tightest task {tightest}")?;
    say_margin(rt, b", margin ", margin)?;
    rt.println("")?;
    if let Err(refusal) = driven.begun {
        return rt.println(Refused(refusal));
    }
    let mode = words_of_mode(driven.state.mode);
    let position = driven.state.position;
    println!(rt; "{mode}, slices closed {position}")?;
    print_jobs(rt, list, cycle, log, ends)
}

// Drives the list through one cycle in the mode asked for, and prints its sheet. The needs stand as the log does: a task's jobs, then
// the next task's.
pub fn drive_and_print<const N: usize>(
    rt: &impl Print,
    name: &[u8],
    tasks: &[Task],
    asked: Option<Mode>,
    needs: &[u32; N],
) -> io::Result<()> {
    let list = lent::copied(tasks);
    let mut table = [0; 4096];
    let mut log = [0; N];
    let mut ends = [0; N];
    let driven = bench::drive(
        list, SUPPLY, asked, 0, needs, &mut table, &mut log, &mut ends,
    );
    print(rt, name, list, driven, &log, &ends)
}
