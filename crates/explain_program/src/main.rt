// The explaining program: reads a task list and a Value Change Dump, whose file names are its arguments, and prints on standard
// output which needs lead the filling run of the list to that run, or no, or the refusal.
#![tactic(auto)]

ghost use Rattle.std.specs.Prelude.{◌≡◌, ◌≤◌, length, replicate};
ghost use Rattle.basis.specs.Bytes.{overwrite};
ghost use Rattle.tasks.specs.Bounds.{cycle_of, jobs_of};
ghost use Rattle.tasks.specs.Kept.{KeepsBounds};
ghost use Rattle.printing.specs.Text.{needs_text};
ghost use Rattle.printing.specs.Written.{Written};
ghost use Rattle.output.specs.Explain.{jobs_in, ExplainAnswers};

use anyhow::{Context, Result, bail};
use std::env::{Env, FillError};
use std::fs;
use std::fs::Files;
use tasks::TaskList;

// How many jobs each task has in the cycle.
fn count_jobs(list: TaskList, cycle: u32, jobs: &mut [u32; 16])
    requires keeps_bounds { KeepsBounds list 65536 }
    requires cycle_value { cycle ≡ cycle_of list }
    ensures { jobs.new ≡ overwrite (jobs_in list) list.count jobs.old }
{
    for (i, task) in list.tasks[..list.count].iter().enumerate() {
        jobs[i] = cycle / task.period;
    }
}

// The needs of all jobs of a list that keeps its bounds.
fn write_jobs(list: TaskList, needs: &[u32], out: &mut [u8]) -> usize
    requires { KeepsBounds list 65536 }
    ensures written { Written (needs_text needs.now (jobs_in list) list.count) out.old out.new result }
    ensures upper_bound { jobs_of list ≤ 4096 → result ≤ 81935 }
{
    let Ok(bounds) = tasks::check_bounds(list, 65536) else {
        return 0;
    };
    let mut jobs = [0u32; 16];
    count_jobs(list, bounds.cycle, &mut jobs);
    printing::write_needs(&jobs, needs, out)
}

// What is to be printed for a list and a file, and how long it is.
fn answer(input: &[u8], file: &[u8], out: &mut [u8]) -> usize
    ensures explain_answers { ExplainAnswers input.now file.now out.old out.new result }
    ensures upper_bound { result ≤ 81935 }
{
    if 4096 < input.len() {
        return printing::write_refusal(16, 0, 0, out);
    }
    let list = match records::read_list(input) {
        Ok(list) => list,
        Err(bad) => return printing::write_refusal(15, bad.line, 0, out),
    };
    let mut needs = [0u32; 4096];
    match lent_viewer::explain_list(list, 65536, file, &mut needs) {
        Ok(Some(_)) => write_jobs(list, &needs, out),
        Ok(None) => printing::write_no(out),
        Err(refusal) => {
            printing::write_refusal(refusal.number(), refusal.task(), refusal.margin(), out)
        }
    }
}

// Opens the file that an argument names; or says why it cannot be.
fn open_named<R: Env + Files>(rt: &R, i: usize) -> Result<R::File> {
    let mut name = [0u8; 4096];
    let length = match rt.arg(i, &mut name) {
        Ok(length) => length,
        Err(FillError::NotPresent) => bail!("a file name: none is given"),
        Err(FillError::TooLong) => bail!("a file name: longer than 4096 bytes"),
    };
    let name = str::from_utf8(&name[..length]).context("a file name")?;
    fs::open(rt, name).context(format_args!("{name}"))
}

// One byte more than a list or a good file may have is enough to tell that it is too long.
fn main(rt: HostRuntime) -> Result<()> {
    let mut list = open_named(&rt, 1)?;
    let mut file = open_named(&rt, 2)?;
    let mut input = [0u8; 4097];
    let got = streams::read_full(&mut list, &mut input)?;
    let mut dump = [0u8; 61556];
    let had = streams::read_full(&mut file, &mut dump)?;
    let mut out = [0u8; 81935];
    let length = answer(&input[..got], &dump[..had], &mut out);
    rt.stdout().write_all(&out[..length])?;
    Ok(())
}
