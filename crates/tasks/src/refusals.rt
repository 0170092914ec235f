// Why a call on a task list is refused: the rules' own numbers, and what each refusal names.
ghost use Rattle.std.specs.Prelude.{◌≡◌};
ghost use Rattle.tasks.specs.Refusal.{refusal_answer};

// Of a list 1 to 7 and 20, of its table 8, of a log 12, of a run that was seen 18, 19, 30 and 31. Tasks are numbered from 1.
#[derive(Clone, Copy, PartialEq, Eq)]
pub enum Refusal {
    NoTasks,
    TooManyTasks,
    PeriodOutside {
        task: usize,
    },
    RuntimeOutside {
        task: usize,
    },
    DeadlineOutside {
        task: usize,
    },
    MemoryExceeded {
        task: usize,
    },
    // The multiple reached before the task, and the task's period, which brings it above 4,096.
    CycleTooLong {
        task: usize,
        reached: u32,
        period: u32,
    },
    // A missed deadline, by so many slices below zero;
    Late {
        task: usize,
        margin: i32,
    },
    // or said by the test alone, which knows no margin.
    Fails {
        task: usize,
    },
    ShortTable,
    ShortLog,
    // So many bytes of the file are those of a dump.
    OtherForm {
        place: usize,
    },
    OtherLength,
    EntryAbove,
    NoRoom,
}

impl Refusal {
    #[tactic(auto, unfolding(crate::specs::Refusal::refusal_answer, basis::specs::Answer::refusal, basis::specs::Answer::clash))]
    pub fn number(&self) -> u32
        ensures { result ≡ (refusal_answer self.now).number }
    {
        match *self {
            Refusal::NoTasks => 1,
            Refusal::TooManyTasks => 2,
            Refusal::PeriodOutside { .. } => 3,
            Refusal::RuntimeOutside { .. } => 4,
            Refusal::MemoryExceeded { .. } => 5,
            Refusal::CycleTooLong { .. } => 6,
            Refusal::Late { .. } | Refusal::Fails { .. } => 7,
            Refusal::ShortTable => 8,
            Refusal::ShortLog => 12,
            Refusal::OtherForm { .. } => 18,
            Refusal::OtherLength => 19,
            Refusal::DeadlineOutside { .. } => 20,
            Refusal::EntryAbove => 30,
            Refusal::NoRoom => 31,
        }
    }

    // The task that it names, or 18's place; 0 where it names none.
    #[tactic(auto, unfolding(crate::specs::Refusal::refusal_answer, basis::specs::Answer::refusal, basis::specs::Answer::clash))]
    pub fn task(&self) -> usize
        ensures { result ≡ (refusal_answer self.now).task }
    {
        match *self {
            Refusal::PeriodOutside { task }
            | Refusal::RuntimeOutside { task }
            | Refusal::DeadlineOutside { task }
            | Refusal::MemoryExceeded { task }
            | Refusal::CycleTooLong { task, .. }
            | Refusal::Late { task, .. }
            | Refusal::Fails { task } => task,
            Refusal::OtherForm { place } => place,
            _ => 0,
        }
    }

    // What a late job lacked, below zero; 0 of any other refusal.
    #[tactic(auto, unfolding(crate::specs::Refusal::refusal_answer, basis::specs::Answer::refusal, basis::specs::Answer::clash))]
    pub fn margin(&self) -> i32
        ensures { result ≡ (refusal_answer self.now).margin }
    {
        match *self {
            Refusal::Late { margin, .. } => margin,
            _ => 0,
        }
    }

    // Why two periods clash: the multiple reached before the task, 0 of any refusal but 6;
    #[tactic(auto, unfolding(crate::specs::Refusal::refusal_answer, basis::specs::Answer::refusal, basis::specs::Answer::clash))]
    pub fn reached(&self) -> u32
        ensures { result ≡ (refusal_answer self.now).reached }
    {
        match *self {
            Refusal::CycleTooLong { reached, .. } => reached,
            _ => 0, // no multiple
        }
    }

    // and the task's period.
    #[tactic(auto, unfolding(crate::specs::Refusal::refusal_answer, basis::specs::Answer::refusal, basis::specs::Answer::clash))]
    pub fn period(&self) -> u32
        ensures { result ≡ (refusal_answer self.now).period }
    {
        match *self {
            Refusal::CycleTooLong { period, .. } => period,
            _ => 0,
        }
    }
}
