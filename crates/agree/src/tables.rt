// Records of the table.
use crate::{Replay, held};
use cases::compared;

impl Replay {
    pub(crate) fn table_fill(&mut self) -> bool {
        let length = self.input.size();
        let first = self.input.byte();
        let fits = self.table.fill(length, first);
        self.formed(fits)
    }

    pub(crate) fn table_bytes(&mut self) -> bool {
        let length = self.input.size();
        let fits = self.table.hold(length);
        self.input.fill(self.table.held_mut());
        self.formed(fits)
    }

    pub(crate) fn table_byte(&mut self) -> bool {
        let place = self.input.size();
        let byte = self.input.byte();
        let before = held::put(self.table.held_mut(), place, byte);
        self.formed(before.is_some())
    }

    pub(crate) fn table_lent(&mut self) -> bool {
        let length = self.input.size();
        let is_held = self.table.lend(length);
        self.formed(is_held)
    }

    // The table of the list by value, and in a copy of the bytes that of the list lent as a run of records. Into all bytes that
    // are held.
    pub(crate) fn build(&mut self) -> bool {
        let mut second = self.table;
        let expected = self.input.answer();
        let found = verdict::build(self.list, self.supply, self.table.held_mut());
        let build = self
            .tell
            .answer_agrees(expected, compared::answer_of(found));
        let sum = checksum::of_bytes(self.table.held());
        let entries = self.word_agrees("table", sum);
        let lent = lent::build_list(self.list, self.supply, second.held_mut());
        let answer = self.tell.answer_agrees(expected, compared::answer_of(lent));
        let same = answer & (self.table.held() == second.held());
        let build_list = self.tell.holds("build_list", same);
        build & entries & build_list
    }
}
