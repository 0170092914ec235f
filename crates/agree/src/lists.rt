// Records of lists and conversions.
use crate::Replay;
use cases::{Answer, compared};
use tasks::{InBounds, Refusal, TaskList};

// The bounds do not judge lateness, nor name the tightest task and its margin: there the expected answer stands for theirs.
fn kept_answer(expected: Answer, cycle: u32, jobs: u32) -> Answer {
    if expected.refusal == 7 {
        return expected;
    }
    Answer {
        task: expected.task,
        margin: expected.margin,
        cycle,
        jobs,
        ..Answer::default()
    }
}

fn bounds_answer(bounds: Result<InBounds, Refusal>, expected: Answer) -> Answer {
    match bounds {
        Ok(kept) => kept_answer(expected, kept.cycle, kept.jobs),
        Err(refusal) => compared::refused(refusal),
    }
}

impl Replay {
    // The same list judged by value, lent as a run of records, held to its bounds alone, and asked about quickly.
    fn list_agrees(&mut self, list: TaskList, supply: u32) -> bool {
        let expected = self.input.answer();
        let found = compared::answer_of(verdict::judge(list, supply));
        let judge = self.tell.answer_agrees(expected, found);
        let lent = compared::answer_of(lent::judge_list(list, supply));
        let judge_list = self.call_agrees("judge_list", expected, lent);
        let kept = bounds_answer(tasks::check_bounds(list, supply), expected);
        let check_bounds = self.call_agrees("check_bounds", expected, kept);
        let ask = self.asks_agree_beside(expected, list, supply);
        self.list = list;
        self.supply = supply;
        self.verdict = found;
        judge & judge_list & check_bounds & ask
    }

    pub(crate) fn list(&mut self) -> bool {
        let supply = self.input.word();
        let Some(list) = self.input.list() else {
            return self.formed(false);
        };
        self.list_agrees(list, supply)
    }

    // Kind 0 is a run-time, whose tick cost follows, 1 a period, 2 a deadline.
    pub(crate) fn conversion(&mut self) -> bool {
        let kind = self.input.byte();
        let micros = self.input.word();
        let length = self.input.word();
        let found = match kind {
            0 => {
                let tick = self.input.word();
                units::runtime_slices(micros, length, tick)
            }
            1 => units::period_slices(micros, length),
            2 => units::deadline_slices(micros, length),
            _ => return self.formed(false),
        };
        let (refusal, slices) = match found {
            Some(slices) => (0, slices),
            None => (17, 0),
        };
        let refused = self.byte_agrees("refusal", refusal);
        let counted = self.word_agrees("slices", slices);
        refused & counted
    }
}
