// Records of readings: a table entry, a number of refusal, a log byte.
use crate::Replay;
use readings::{Entry, Logged, Refusal};

impl Replay {
    // The case of a reading in the file's numbers, and the number that it carries, 0 where it carries none.
    fn reading_agrees(&mut self, case: u32, carried: u32) -> bool {
        let same = self.byte_agrees("case", case);
        let carries = self.word_agrees("number", carried);
        same & carries
    }

    pub(crate) fn entry(&mut self) -> bool {
        let byte = self.input.byte();
        let count = self.input.wide_size();
        match readings::read_entry(byte, count) {
            Entry::Idle => self.reading_agrees(0, 0),
            Entry::Task(task) => {
                let same = self.byte_agrees("case", 1);
                let expected = self.input.size();
                let named = self.tell.agrees("task", expected, task);
                same & named
            }
            Entry::NoEntry(other) => self.reading_agrees(2, u32::from(other)),
        }
    }

    pub(crate) fn refusal(&mut self) -> bool {
        let number = self.input.word();
        match readings::read_refusal(number) {
            Refusal::NoRefusal(number) => self.reading_agrees(0, number),
            Refusal::Bound(number) => self.reading_agrees(1, number),
            Refusal::Lateness => self.reading_agrees(2, 0),
            Refusal::ShortTable => self.reading_agrees(3, 0),
            Refusal::Run(number) => self.reading_agrees(4, number),
            Refusal::Program(number) => self.reading_agrees(5, number),
            Refusal::Conversion => self.reading_agrees(6, 0),
            Refusal::Viewer(number) => self.reading_agrees(7, number),
        }
    }

    pub(crate) fn log_byte(&mut self) -> bool {
        let byte = self.input.byte();
        match readings::read_logged(byte) {
            Logged::NoResult => self.reading_agrees(0, 0),
            Logged::Done => self.reading_agrees(1, 0),
            Logged::Over => self.reading_agrees(2, 0),
            Logged::Late => self.reading_agrees(3, 0),
            Logged::Damaged(byte) => self.reading_agrees(4, u32::from(byte)),
        }
    }
}
