// Answers of the library in the file's numbers.
ghost use Rattle.std.specs.Prelude.{◌≡◌};
ghost use Rattle.cases.specs.File.{answer_of, refused, start_answer_of};

use crate::Answer;
use tasks::Refusal;
use verdict::Verdict;

// A refusal by its number, with what it names.
#[tactic(auto, unfolding(crate::specs::File::refused, crate::specs::File::of_values, tasks::specs::Refusal::refusal_answer, basis::specs::Answer::refusal, basis::specs::Answer::clash))]
pub fn refused(refusal: Refusal) -> Answer
    ensures { result ≡ refused refusal }
{
    Answer {
        refusal: refusal.number(),
        task: refusal.task(),
        margin: refusal.margin(),
        reached: refusal.reached(),
        period: refusal.period(),
        ..Answer::default()
    }
}

#[tactic(auto, unfolding(crate::specs::File::answer_of, crate::specs::File::refused, crate::specs::File::of_values, verdict::specs::Verdict::verdict_answer))]
pub fn answer_of(verdict: Verdict) -> Answer
    ensures { result ≡ answer_of verdict }
{
    match verdict {
        Ok(accepted) => Answer {
            task: accepted.task,
            margin: accepted.margin,
            cycle: accepted.cycle,
            jobs: accepted.jobs,
            ..Answer::default()
        },
        Err(refusal) => refused(refusal),
    }
}

// An accepted start answers nothing beside the state; the verdict on the list stands for it.
#[tactic(auto, unfolding(crate::specs::File::start_answer_of))]
pub fn start_answer_of(begun: Result<(), Refusal>, verdict: Answer) -> Answer
    ensures { result ≡ start_answer_of begun verdict }
{
    match begun {
        Ok(()) => verdict,
        Err(refusal) => refused(refusal),
    }
}
