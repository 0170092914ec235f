// The program's input, from bytes to a task list: three or four decimal fields a line, lines parted by the pair CRLF.
#![tactic(auto)]

ghost use Rattle.std.specs.Prelude.{◌≡◌, [], ◌-◌, ◌≤◌, ◌<◌};
ghost use Rattle.tasks.specs.List.{list_of};
ghost use Rattle.records.specs.Grammar.{read_of, Reads};
ghost use Rattle.records.specs.Shapes.{fresh, with_digit, with_comma, with_byte, task_of, kept, close_line, at_end};

use tasks::{Task, TaskList};

// The first line that is not in form, counted from 1.
#[derive(Clone, Copy, PartialEq, Eq)]
pub struct BadLine {
    pub line: usize,
}

// The field that is open, with the values of those closed before it.
#[derive(Clone, Copy)]
enum Place {
    Period,
    Runtime {
        period: u32,
    },
    Memory {
        period: u32,
        runtime: u32,
    },
    Deadline {
        period: u32,
        runtime: u32,
        memory: u32,
    },
}

// A line as far as it is read: the open field, and what its digits are worth so far. Where a line may be None, it is out of form.
#[derive(Clone, Copy)]
struct Line {
    place: Place,
    value: Option<u32>,
}

fn fresh_line() -> Line
    ensures { result ≡ fresh }
{
    Line {
        place: Place::Period,
        value: None,
    }
}

// No digit may follow where the field is "0", or has nine digits.
fn with_digit(line: Line, digit: u8) -> Option<Line>
    requires { digit ≤ 9 }
    ensures { result ≡ with_digit line digit }
{
    let before = match line.value {
        None => 0,
        Some(0 | 100_000_000..) => return None,
        Some(value) => value,
    };
    Some(Line {
        value: Some(before * 10 + u32::from(digit)),
        ..line
    })
}

// A comma closes the open field, if that has a digit and is not the fourth.
fn with_comma(line: Line) -> Option<Line>
    ensures { result ≡ with_comma line }
{
    let value = line.value?;
    let place = match line.place {
        Place::Period => Place::Runtime { period: value },
        Place::Runtime { period } => Place::Memory {
            period,
            runtime: value,
        },
        Place::Memory { period, runtime } => Place::Deadline {
            period,
            runtime,
            memory: value,
        },
        Place::Deadline { .. } => return None,
    };
    Some(Line { place, value: None })
}

// One byte more in a line.
fn with_byte(line: Option<Line>, byte: u8) -> Option<Line>
    ensures { result ≡ with_byte line byte }
{
    let line = line?;
    match byte {
        b',' => with_comma(line),
        b'0'..=b'9' => with_digit(line, byte - b'0'),
        _ => None,
    }
}

fn no_tasks() -> TaskList
    ensures { result ≡ list_of [] }
{
    TaskList {
        tasks: [Task {
            period: 0,
            runtime: 0,
            memory: 0,
            deadline: 0,
        }; 16],
        count: 0,
    }
}

// The task of a line in form: with three fields its deadline is the period, with four it is the fourth.
fn task_of(line: Line) -> Option<Task>
    ensures { result ≡ task_of line }
{
    match (line.place, line.value) {
        (Place::Memory { period, runtime }, Some(memory)) => Some(Task {
            period,
            runtime,
            memory,
            deadline: period,
        }),
        (
            Place::Deadline {
                period,
                runtime,
                memory,
            },
            Some(deadline),
        ) => Some(Task {
            period,
            runtime,
            memory,
            deadline,
        }),
        _ => None,
    }
}

// The seventeenth task and those after it are counted and not stored.
fn keep(list: TaskList, task: Task) -> TaskList
    requires { list.count < 18446744073709551615 }
    ensures { result ≡ kept list task }
{
    let TaskList { mut tasks, count } = list;
    if count < tasks.len() {
        tasks[count] = task;
    }
    TaskList {
        tasks,
        count: count + 1,
    }
}

// A line ends.
fn close_line(list: TaskList, line: Option<Line>) -> Result<TaskList, BadLine>
    requires { list.count < 18446744073709551615 }
    ensures { result ≡ close_line list line }
{
    match line.and_then(task_of) {
        Some(task) => Ok(keep(list, task)),
        None => Err(BadLine {
            line: list.count + 1,
        }),
    }
}

// What follows the last CRLF is one line more, unless it is nothing.
fn at_end(list: TaskList, line: Option<Line>) -> Result<TaskList, BadLine>
    requires { list.count < 18446744073709551615 }
    ensures { result ≡ at_end list line }
{
    match line {
        Some(
            Line {
                place: Place::Period,
                value: None,
            },
        ) => Ok(list),
        _ => close_line(list, line),
    }
}

// CRLF parts the lines. Either byte alone is one of its line, and out of form.
pub fn read_list(input: &[u8]) -> Result<TaskList, BadLine>
    ensures { Reads input.now (read_of result) }
{
    let mut list = no_tasks();
    let mut line = Some(fresh_line());
    let mut rest = input;
    while let [byte, after @ ..] = rest {
        if let [b'\r', b'\n', behind @ ..] = rest {
            list = close_line(list, line)?;
            line = Some(fresh_line());
            rest = behind;
        } else {
            line = with_byte(line, *byte);
            rest = after;
        }
    }
    at_end(list, line)
}
