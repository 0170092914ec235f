// What is said of a record that disagrees: its number, and what was expected and found.
ghost use Rattle.std.specs.Prelude.{◌≡◌, ◌↔◌, true};

use crate::Answer;
use std::fmt::Display;
use std::io;
use std::io::{Stdout, Write};

// Where it is said, and the record that it is said of. The first write that fails is kept, and nothing is written after it.
#[derive(Drop)]
pub struct Teller {
    out: Stdout,
    written: io::Result<()>,
    record: u32,
}

impl Teller {
    // Nothing is said yet, and no record is read: that is number 0.
    pub fn new(out: Stdout) -> Teller {
        Teller {
            out,
            written: Ok(()),
            record: 0,
        }
    }

    // From here on it is this record.
    pub fn turn_to(&mut self, record: u32) {
        self.record = record;
    }

    // The error of the write that failed, if one did.
    pub fn finish(self) -> io::Result<()> {
        self.written
    }

    pub fn say<D: Display + Drop>(&mut self, text: D) {
        if self.written.is_ok() {
            self.written = self.out.write_fmt(text);
        }
    }

    // Whether what is found is what is expected. If not, that is told.
    pub fn agrees<T: PartialEq + Display + Copy>(
        &mut self,
        what: &str,
        expected: T,
        found: T,
    ) -> bool
        ensures { result ≡ T.eq expected found }
    {
        let same = expected == found;
        if !same {
            let record = self.record;
            self.say(format_args!("record {record}: {what}, expected {expected}, found {found}\n"));
        }
        same
    }

    // The same of what is or is not so.
    pub fn holds(&mut self, what: &str, fine: bool) -> bool
        ensures { result ≡ fine }
    {
        if !fine {
            let record = self.record;
            self.say(format_args!("record {record}: {what}\n"));
        }
        fine
    }

    // Whether an answer is the expected one, number by number. Of a margin no numbers are told.
    pub fn answer_agrees(&mut self, expected: Answer, found: Answer) -> bool
        ensures { result ≡ true ↔ expected ≡ found }
    {
        let refusal = self.agrees("refusal", expected.refusal, found.refusal);
        let task = self.agrees("task", expected.task, found.task);
        let margin = self.holds("margin", expected.margin == found.margin);
        let cycle = self.agrees("cycle", expected.cycle, found.cycle);
        let jobs = self.agrees("jobs", expected.jobs, found.jobs);
        let reached = self.agrees("multiple", expected.reached, found.reached);
        let period = self.agrees("period", expected.period, found.period);
        refusal & task & margin & cycle & jobs & reached & period
    }
}
