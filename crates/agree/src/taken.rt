// Numbers from standard input, little-endian, and what they make. Bytes that are not there read as 0.
ghost use Rattle.std.specs.Prelude.{◌≤◌};

use crate::NO_TASK;
use crate::tags::Tag;
use cases::Answer;
use run::{Mode, State};
use std::io;
use std::io::Stdin;
use tasks::{Task, TaskList};

// Where the numbers come from. The first read that fails is kept, and nothing is read after it. `whole` while all the bytes last
// asked for were there.
#[derive(Drop)]
pub(crate) struct Input {
    from: Stdin,
    read: io::Result<()>,
    whole: bool,
}

impl Input {
    pub(crate) fn new(from: Stdin) -> Input {
        Input {
            from,
            read: Ok(()),
            whole: true,
        }
    }

    // The error of the read that failed, if one did.
    pub(crate) fn finish(self) -> io::Result<()> {
        self.read
    }

    // Fills the bytes, as far as there are some.
    pub(crate) fn fill(&mut self, bytes: &mut [u8]) {
        self.whole = false;
        if self.read.is_err() {
            return;
        }
        match streams::read_full(&mut self.from, bytes) {
            Ok(got) => self.whole = got == bytes.len(),
            Err(error) => self.read = Err(error),
        }
    }

    // Whether all the bytes last asked for were there, and no more follow.
    pub(crate) fn is_at_end(&mut self) -> bool {
        let whole = self.whole;
        self.fill(&mut [0]);
        whole & !self.whole
    }

    // Whether the file opens as it has to.
    pub(crate) fn opens(&mut self) -> bool {
        let mut magic = [0; 8];
        self.fill(&mut magic);
        magic == *b"SLICES07"
    }

    // The tag of the next record. None at the end of the input, and where the byte is no tag.
    pub(crate) fn tag(&mut self) -> Option<Tag> {
        let byte = self.byte();
        if self.whole {
            Tag::try_from(byte).ok()
        } else {
            None
        }
    }

    pub(crate) fn byte(&mut self) -> u8 {
        let mut bytes = [0; 1];
        self.fill(&mut bytes);
        bytes[0]
    }

    pub(crate) fn word(&mut self) -> u32 {
        let mut bytes = [0; 4];
        self.fill(&mut bytes);
        u32::from_le_bytes(bytes)
    }

    pub(crate) fn signed(&mut self) -> i32 {
        self.word().cast_signed()
    }

    // A length, a place or a task.
    pub(crate) fn size(&mut self) -> usize {
        self.word() as usize
    }

    // A count of 64 bits.
    pub(crate) fn wide_size(&mut self) -> usize {
        let mut bytes = [0; 8];
        self.fill(&mut bytes);
        usize::from_le_bytes(bytes)
    }

    // How many needs or ends there are. More than 4,200 are not in the format: 0 then, and what follows disagrees.
    pub(crate) fn few(&mut self) -> usize
        ensures { result ≤ 4200 }
    {
        let count = self.size();
        if 4200 < count { 0 } else { count }
    }

    pub(crate) fn words(&mut self, words: &mut [u32]) {
        for word in words {
            *word = self.word();
        }
    }

    pub(crate) fn answer(&mut self) -> Answer {
        Answer {
            refusal: u32::from(self.byte()),
            task: usize::from(self.byte()),
            margin: self.signed(),
            cycle: self.word(),
            jobs: self.word(),
            reached: self.word(),
            period: self.word(),
        }
    }

    // What a call on the viewer comes to, in an answer's numbers: refusal 255 is a no, and the task is what is given, or 18's
    // place.
    pub(crate) fn viewed(&mut self) -> Answer {
        Answer {
            refusal: u32::from(self.byte()),
            task: self.size(),
            margin: self.signed(),
            reached: self.word(),
            period: self.word(),
            ..Answer::default()
        }
    }

    fn task(&mut self) -> Task {
        Task {
            period: self.word(),
            runtime: self.word(),
            memory: self.word(),
            deadline: self.word(),
        }
    }

    // A list: the first 16 tasks are kept, and more are only counted. None if it is longer than the format allows.
    pub(crate) fn list(&mut self) -> Option<TaskList> {
        let count = self.size();
        if 272 < count {
            return None;
        }
        let mut tasks = [NO_TASK; 16];
        for task in tasks.iter_mut().take(count) {
            *task = self.task();
        }
        for _ in tasks.len()..count {
            self.task();
        }
        Some(TaskList { tasks, count })
    }

    // A state. None if the bytes are not those of one; it is read to its end all the same.
    pub(crate) fn state(&mut self) -> Option<State> {
        let count = self.wide_size();
        let cycle = self.word();
        let position = self.word();
        let clock = self.word();
        let mode = mode_of(self.byte());
        let mut periods = [0; 16];
        let mut deadlines = [0; 16];
        let mut runtimes = [0; 16];
        let places = periods.iter_mut().zip(&mut deadlines).zip(&mut runtimes);
        for ((period, deadline), runtime) in places {
            *period = self.word();
            *deadline = self.word();
            *runtime = self.word();
        }
        let mut used = [0; 16];
        let mut ended = [false; 16];
        let mut formed = true;
        for (slices, has_ended) in used.iter_mut().zip(&mut ended) {
            *slices = self.word();
            let said = self.byte();
            *has_ended = said == 1;
            formed &= said <= 1;
        }
        if !formed {
            return None;
        }
        Some(State {
            periods,
            deadlines,
            runtimes,
            used,
            ended,
            count,
            cycle,
            position,
            clock,
            mode: mode?,
        })
    }
}

// A state's mode; None if the byte is none.
fn mode_of(byte: u8) -> Option<Mode> {
    match byte {
        0 => Some(Mode::Table),
        1 => Some(Mode::Filling),
        _ => None,
    }
}

// The mode that a start is asked for, or that none is named; None if the byte says neither.
pub(crate) fn asked_of(byte: u8) -> Option<Option<Mode>> {
    if byte == 2 {
        Some(None)
    } else {
        mode_of(byte).map(Some)
    }
}
