// Records of the quick question, and the same question beside a verdict.
use crate::Replay;
use cases::Answer;
use quick::Refused;
use tasks::TaskList;

// The quick question names a refusal and its task, and no other number.
fn answer_of(answer: Result<(), Refused>) -> Answer {
    match answer {
        Ok(()) => Answer::default(),
        Err(refused) => named(refused.number, refused.task),
    }
}

fn named(refusal: u32, task: usize) -> Answer {
    Answer {
        refusal,
        task,
        ..Answer::default()
    }
}

// What is expected where the verdict is such: accepted, no task is named.
fn without_margin(verdict: Answer) -> Answer {
    if verdict.refusal == 0 {
        Answer::default()
    } else {
        named(verdict.refusal, verdict.task)
    }
}

impl Replay {
    // The question of a list by value, and lent as a run of records.
    fn asks_agree(&mut self, expected: Answer, list: TaskList, supply: u32) -> bool {
        let by_value = answer_of(quick::ask(list, supply));
        let ask = self.call_agrees("ask", expected, by_value);
        let lent = answer_of(lent::ask_list(list, supply));
        let ask_list = self.call_agrees("ask_list", expected, lent);
        ask & ask_list
    }

    // The question of a list whose verdict is expected to be such.
    pub(crate) fn asks_agree_beside(
        &mut self,
        verdict: Answer,
        list: TaskList,
        supply: u32,
    ) -> bool {
        self.asks_agree(without_margin(verdict), list, supply)
    }

    // The question of a list of its own; the list in hand stays.
    pub(crate) fn quick(&mut self) -> bool {
        let supply = self.input.word();
        let Some(list) = self.input.list() else {
            return self.formed(false);
        };
        let refusal = self.input.byte();
        let task = self.input.byte();
        let expected = named(u32::from(refusal), usize::from(task));
        self.asks_agree(expected, list, supply)
    }
}
