// Reads the file of reference cases from standard input (tests/reference/FORMAT.md) and compares every answer of the library
// with it. It says that all agree, with the counts of the calls, or which record does not.
#![tactic(auto)]

mod taken; // numbers, lists and states from standard input
mod held; // bytes of a table or a log, held and lent
mod tags; // the kinds of records
mod asks; // records of the quick question
mod lists; // records of lists and conversions
mod reads; // records of readings
mod tables; // records of the table
mod logs; // records of the log and of starts
mod steps; // records of states and steps
mod drives; // records of drives
mod views; // records of the viewer
mod ends; // the end record

use cases::Answer;
use cases::told::Teller;
use held::Held;
use run::{Mode, State};
use std::io;
use tags::Tag;
use taken::Input;
use tasks::{Task, TaskList};

// What a place of a list holds where no task is given.
const NO_TASK: Task = Task {
    period: 0,
    runtime: 0,
    memory: 0,
    deadline: 0,
};

// What is held between records. The log is held twice: as the library leaves it, and as it should be. `counts` has the records
// so far, by tag.
//
// Each kind of record has a method, which reads what the record gives and expects, and answers whether the library agrees.
#[derive(Drop)]
struct Replay {
    tell: Teller,
    input: Input,
    list: TaskList,
    supply: u32,
    verdict: Answer,
    state: State,
    table: Held<4200>,
    log: Held<66000>,
    expected_log: Held<66000>,
    counts: [u32; 21],
}

impl Replay {
    // What is held before the first record: an empty list, and the state of a refused start.
    fn new(tell: Teller, input: Input) -> Replay {
        Replay {
            tell,
            input,
            list: TaskList {
                tasks: [NO_TASK; 16],
                count: 0,
            },
            supply: 0,
            verdict: Answer::default(),
            state: State {
                periods: [0; 16],
                deadlines: [0; 16],
                runtimes: [0; 16],
                used: [0; 16],
                ended: [false; 16],
                count: 0,
                cycle: 0,
                position: 0,
                clock: 0,
                mode: Mode::Table,
            },
            table: Held::new(),
            log: Held::new(),
            expected_log: Held::new(),
            counts: [0; 21],
        }
    }

    // Whether the record is as the format says.
    fn formed(&mut self, formed: bool) -> bool {
        self.tell.holds("not in the format", formed)
    }

    // Whether the next byte, the next word, the next answer is what is found.
    fn byte_agrees(&mut self, what: &str, found: u32) -> bool {
        let expected = self.input.byte();
        self.tell.agrees(what, u32::from(expected), found)
    }

    fn word_agrees(&mut self, what: &str, found: u32) -> bool {
        let expected = self.input.word();
        self.tell.agrees(what, expected, found)
    }

    fn answer_agrees(&mut self, found: Answer) -> bool {
        let expected = self.input.answer();
        self.tell.answer_agrees(expected, found)
    }

    // Whether a call beside the first one answers the same; if not, the call is named.
    fn call_agrees(&mut self, call: &str, expected: Answer, found: Answer) -> bool {
        let same = self.tell.answer_agrees(expected, found);
        self.tell.holds(call, same)
    }

    fn record(&mut self, tag: Tag) -> bool {
        match tag {
            Tag::End => self.end(),
            Tag::List => self.list(),
            Tag::TableFill => self.table_fill(),
            Tag::TableBytes => self.table_bytes(),
            Tag::TableByte => self.table_byte(),
            Tag::TableLent => self.table_lent(),
            Tag::Build => self.build(),
            Tag::LogFill => self.log_fill(),
            Tag::LogLent => self.log_lent(),
            Tag::LogCheck => self.log_check(),
            Tag::Start => self.start(),
            Tag::State => self.state(),
            Tag::Step => self.step(),
            Tag::Conversion => self.conversion(),
            Tag::Entry => self.entry(),
            Tag::Refusal => self.refusal(),
            Tag::LogByte => self.log_byte(),
            Tag::Drive => self.drive(),
            Tag::Quick => self.quick(),
            Tag::Write => self.write(),
            Tag::File => self.file(),
        }
    }

    // Record after record, up to the end or to one that disagrees: nothing more is read then. Whether all agree.
    fn run(&mut self) -> bool {
        let opens = self.input.opens();
        if !self.formed(opens) {
            return false;
        }
        for number in 1..=u32::MAX {
            self.tell.turn_to(number);
            let Some(tag) = self.input.tag() else {
                return self.formed(false);
            };
            self.count(tag);
            let agrees = self.record(tag);
            if !agrees || tag == Tag::End {
                return agrees;
            }
        }
        false
    }
}

fn main(rt: HostRuntime) -> io::Result<()> {
    let tell = Teller::new(rt.stdout());
    let input = Input::new(rt.stdin());
    let mut replay = Replay::new(tell, input);
    let agreed = replay.run();
    let Replay {
        mut tell,
        input,
        counts,
        ..
    } = replay;
    input.finish()?;
    if agreed {
        ends::summary(&mut tell, &counts);
    }
    tell.finish()
}
