// The counts by tag, the end record, which has them too, and the summary.
use crate::Replay;
use crate::tags::Tag;
use cases::told::Teller;

// What the end record counts, in its order, and what the summary says of each.
const COUNTED: [(Tag, &str); 12] = [
    (Tag::List, " lists, "),
    (Tag::Build, " builds, "),
    (Tag::Start, " starts, "),
    (Tag::Step, " steps, "),
    (Tag::Conversion, " conversions, "),
    (Tag::Entry, " entries, "),
    (Tag::Refusal, " refusals and "),
    (Tag::LogByte, " log bytes read, "),
    (Tag::Drive, " drives, "),
    (Tag::Quick, " quick questions, "),
    (Tag::Write, " runs written, "),
    (Tag::File, " files read back and explained: all agree\n"),
];

impl Replay {
    pub(crate) fn count(&mut self, tag: Tag) {
        let count = &mut self.counts[tag as usize];
        *count = count.wrapping_add(1);
    }

    // The counts, and nothing after them.
    pub(crate) fn end(&mut self) -> bool {
        let mut agree = true;
        for (tag, _) in COUNTED {
            agree &= self.word_agrees("count", self.counts[tag as usize]);
        }
        let ended = self.input.is_at_end();
        agree & self.tell.holds("not the end", ended)
    }
}

pub(crate) fn summary(tell: &mut Teller, counts: &[u32; 21]) {
    for (tag, what) in COUNTED {
        let count = counts[tag as usize];
        tell.say(format_args!("{count}{what}"));
    }
}
