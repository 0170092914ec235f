// Records of the log and of starts.
use crate::{Replay, taken};
use cases::{Answer, compared};
use run::Mode;
use start::Started;

impl Replay {
    pub(crate) fn log_fill(&mut self) -> bool {
        let length = self.input.size();
        let first = self.input.byte();
        let fits = self.log.fill(length, first) & self.expected_log.fill(length, first);
        self.formed(fits)
    }

    pub(crate) fn log_lent(&mut self) -> bool {
        let length = self.input.size();
        let is_held = self.log.lend(length) & self.expected_log.lend(length);
        self.formed(is_held)
    }

    pub(crate) fn log_check(&mut self) -> bool {
        let found = checksum::of_bytes(self.log.lent());
        self.word_agrees("log", found)
    }

    // The answer and the state of a start.
    fn started_agrees(&mut self, expected: Answer, sum: u32, found: Started) -> bool {
        let answer = compared::start_answer_of(found.answer, self.verdict);
        let same = self.tell.answer_agrees(expected, answer);
        let state = checksum::of_state(found.state);
        let summed = self.tell.agrees("state", sum, state);
        same & summed
    }

    // A start of the list by value, and with the second log one of the list lent as a run of records. With all bytes that are
    // held.
    fn starts_agree(&mut self, mode: Option<Mode>, clock: u32) -> bool {
        let expected = self.input.answer();
        let sum = self.input.word();
        let first = start::start(self.list, self.supply, mode, clock, self.log.held_mut());
        let start = self.started_agrees(expected, sum, first);
        let found = checksum::of_bytes(self.log.held());
        let logged = self.word_agrees("log", found);
        let second = lent::start_list(
            self.list,
            self.supply,
            mode,
            clock,
            self.expected_log.held_mut(),
        );
        let answer = self.started_agrees(expected, sum, second);
        let same = answer & (self.log.held() == self.expected_log.held());
        let start_list = self.tell.holds("start_list", same);
        self.state = first.state;
        start & logged & start_list
    }

    pub(crate) fn start(&mut self) -> bool {
        let mode = self.input.byte();
        let clock = self.input.word();
        match taken::asked_of(mode) {
            Some(mode) => self.starts_agree(mode, clock),
            None => self.formed(false),
        }
    }
}
