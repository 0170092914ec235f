// Records of drives: one cycle of the list in hand, driven as a caller does it.
use crate::{Replay, taken};
use bench::Driven;
use cases::compared;

impl Replay {
    fn drive_answers_agree(&mut self, found: Driven) -> bool {
        let build = self.answer_agrees(compared::answer_of(found.built));
        let answer = compared::start_answer_of(found.begun, self.verdict);
        let start = self.answer_agrees(answer);
        let summed = self.word_agrees("state", checksum::of_state(found.state));
        build & start & summed
    }

    // Number for number.
    pub(crate) fn words_agree(&mut self, what: &str, found: &[u32]) -> bool {
        let mut same = true;
        for &number in found {
            same &= self.word_agrees(what, number);
        }
        same
    }

    // What a drive left beside what the record expects, byte for byte. Once it agrees, the second log is as it should be.
    fn left_agrees(&mut self, ends: &[u32]) -> bool {
        // a byte that is not there is 0, whatever the library left in its place
        let mut expected = self.table;
        expected.held_mut().fill(0);
        self.input.fill(expected.held_mut());
        let same = self.table.held() == expected.held();
        let entries = self.tell.holds("table", same);
        self.input.fill(self.expected_log.held_mut());
        let same = self.log.held() == self.expected_log.held();
        let logged = self.tell.holds("log", same);
        let ended = self.words_agree("end", ends);
        entries & logged & ended
    }

    // With all bytes that are held.
    pub(crate) fn drive(&mut self) -> bool {
        let mode = taken::asked_of(self.input.byte());
        let clock = self.input.word();
        let count = self.input.few();
        let mut needs = [0; 4200];
        let needs = &mut needs[..count];
        self.input.words(needs);
        let length = self.input.few();
        let mut ends = [7; 4200];
        let ends = &mut ends[..length];
        let found = bench::drive(
            self.list,
            self.supply,
            mode.flatten(),
            clock,
            needs,
            self.table.held_mut(),
            self.log.held_mut(),
            ends,
        );
        self.state = found.state;
        let answers = self.drive_answers_agree(found);
        let formed = self.formed(mode.is_some());
        let left = self.left_agrees(ends);
        answers & formed & left
    }
}
