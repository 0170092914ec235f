// Records of states and steps. A step's record is two calls: who runs, and then the step.
use crate::{Replay, held};
use run::{Refusal, State};

// Who runs, in the file's numbers: the refusal and the task, both 0 of an idle slice.
fn refusal_and_task(runner: Result<Option<usize>, Refusal>) -> (u32, usize) {
    match runner {
        Ok(task) => (0, task.unwrap_or(0)),
        Err(refusal) => (refusal.number(), 0),
    }
}

fn number_of(closed: Result<(), Refusal>) -> u32 {
    match closed {
        Ok(()) => 0,
        Err(refusal) => refusal.number(),
    }
}

// A log of at most 64 bytes is summed together with the state.
fn sum_of(state: State, log: &[u8]) -> u32 {
    let sum = checksum::of_state(state);
    if 64 < log.len() {
        return sum;
    }
    checksum::with_bytes(sum, log)
}

impl Replay {
    pub(crate) fn state(&mut self) -> bool {
        match self.input.state() {
            Some(state) => {
                self.state = state;
                true
            }
            None => self.formed(false),
        }
    }

    fn runner_agrees(&mut self, runner: Result<Option<usize>, Refusal>) -> bool {
        let (refusal, task) = refusal_and_task(runner);
        let refused = self.byte_agrees("who's refusal", refusal);
        let expected = self.input.byte();
        let named = self.tell.agrees("task", usize::from(expected), task);
        refused & named
    }

    // Whether the log has seen the changes that the record names, places rising, and no others.
    fn log_agrees(&mut self) -> bool {
        let changes = self.input.byte();
        let mut made = true;
        let mut from = 0;
        for _ in 0..changes {
            let place = self.input.size();
            let byte = self.input.byte();
            let before = held::put(self.expected_log.lent_mut(), place, byte);
            let changed = before.is_some_and(|before| before != byte);
            made = made & changed & (from <= place);
            from = place.wrapping_add(1);
        }
        let same = self.log.lent() == self.expected_log.lent();
        self.tell.holds("changes of the log", made & same)
    }

    // With the parts that are lent.
    pub(crate) fn step(&mut self) -> bool {
        let clock = self.input.word();
        let report = self.input.byte();
        let runner = run::who(self.state, self.table.lent());
        let who = self.runner_agrees(runner);
        let next = run::step(
            self.state,
            self.table.lent(),
            self.log.lent_mut(),
            clock,
            report,
        );
        self.state = next.state;
        let refused = self.byte_agrees("refusal", number_of(next.answer));
        let sum = sum_of(next.state, self.log.lent());
        let summed = self.word_agrees("state", sum);
        let logged = self.log_agrees();
        who & refused & summed & logged
    }
}
