// The program: reads a task list from standard input and prints its table, or the refusal, on standard output; which two
// periods clash is said on standard error.
#![tactic(auto)]

ghost use Rattle.std.specs.Prelude.{◌≤◌, length};
ghost use Rattle.tasks.specs.Refusal.{refusal_answer};
ghost use Rattle.printing.specs.Written.{Written};
ghost use Rattle.verdict.specs.Verdict.{verdict_answer};
ghost use Rattle.records.specs.Grammar.{form_answer};
ghost use Rattle.output.specs.Output.{record_of, Answers, note_of, Noted};

use records::BadLine;
use std::io;
use tasks::{Refusal, TaskList};
use verdict::Verdict;

// The refusal record of an input that is not in form.
fn refuse_form(read: Result<TaskList, BadLine>, out: &mut [u8]) -> usize
    ensures written { Written (record_of (form_answer read)) out.old out.new result }
    ensures upper_bound { result ≤ 66 }
{
    match read {
        Err(bad) => printing::write_refusal(15, bad.line, 0, out),
        Ok(_) => printing::write_refusal(0, 0, 0, out),
    }
}

// The refusal record of a list.
fn refuse_list(verdict: Verdict, out: &mut [u8]) -> usize
    ensures written { Written (record_of (verdict_answer verdict)) out.old out.new result }
    ensures upper_bound { result ≤ 66 }
{
    match verdict {
        Err(refusal) => {
            printing::write_refusal(refusal.number(), refusal.task(), refusal.margin(), out)
        }
        Ok(accepted) => printing::write_refusal(0, accepted.task, accepted.margin, out),
    }
}

// What is said beside the record of a refusal: which two periods clash.
fn note_refusal(refusal: Refusal, out: &mut [u8]) -> usize
    ensures written { Written (note_of (refusal_answer refusal)) out.old out.new result }
    ensures upper_bound { result ≤ 39 }
{
    match refusal {
        Refusal::CycleTooLong {
            reached,
            period,
            ..
        } => printing::write_clash(reached, period, out),
        _ => 0,
    }
}

// What is said beside the refusal record of a list.
fn note_list(verdict: Verdict, out: &mut [u8]) -> usize
    ensures written { Written (note_of (verdict_answer verdict)) out.old out.new result }
    ensures upper_bound { result ≤ 39 }
{
    match verdict {
        Err(refusal) => note_refusal(refusal, out),
        Ok(_) => 0,
    }
}

// How long the answer is, and what is said beside it.
#[derive(Clone, Copy)]
struct Lengths {
    answer: usize,
    note: usize,
}

// What is to be printed for an input, what is to be said beside it, and how long both are. The table is worked out in the lent
// bytes.
fn answer(input: &[u8], table: &mut [u8], out: &mut [u8], words: &mut [u8]) -> Lengths
    requires { 4096 ≤ length table.old }
    ensures answers { Answers input.now out.old out.new result.answer }
    ensures noted { Noted input.now words.old words.new result.note }
    ensures answer_bound { (result.answer ≤ 40972) × (result.note ≤ 39) }
{
    if 4096 < input.len() {
        let answer = printing::write_refusal(16, 0, 0, out);
        return Lengths { answer, note: 0 };
    }
    // the rules' form for this place: each answer is taken apart by let .. else, whose else prints the refusal record
    let read = records::read_list(input);
    let Ok(list) = read else {
        let answer = refuse_form(read, out);
        return Lengths { answer, note: 0 };
    };
    let verdict = lent::judge_list(list, 65536);
    let Ok(accepted) = verdict else {
        let answer = refuse_list(verdict, out);
        let note = note_list(verdict, words);
        return Lengths { answer, note };
    };
    let built = lent::build_list(list, 65536, table);
    let Ok(_) = built else {
        let answer = refuse_list(built, out);
        return Lengths { answer, note: 0 };
    };
    let answer = printing::write_table(table, accepted.cycle, out);
    Lengths { answer, note: 0 }
}

// One byte more than an input may have is enough to tell that it is too long.
fn main(rt: HostRuntime) -> io::Result<()> {
    let mut input = [0u8; 4097];
    let got = streams::read_full(&mut rt.stdin(), &mut input)?;
    let mut table = [0u8; 4096];
    let mut out = [0u8; 40972];
    let mut words = [0u8; 39];
    let lengths = answer(&input[..got], &mut table, &mut out, &mut words);
    rt.stdout().write_all(&out[..lengths.answer])?;
    rt.stderr().write_all(&words[..lengths.note])
}
