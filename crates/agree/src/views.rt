// Records of the viewer, for the list in hand: a run written; a file read back, and explained by needs.
use crate::{Replay, held};
use cases::{Answer, compared};
use explain::Viewed;

fn answer_of(viewed: Viewed) -> Answer {
    match viewed {
        Ok(Some(count)) => Answer {
            task: count,
            ..Answer::default()
        },
        Ok(None) => Answer {
            refusal: 255,
            ..Answer::default()
        },
        Err(refusal) => compared::refused(refusal),
    }
}

impl Replay {
    fn viewed_agrees(&mut self, call: &str, viewed: Viewed) -> bool {
        let expected = self.input.viewed();
        self.call_agrees(call, expected, answer_of(viewed))
    }

    fn written_agrees(&mut self, run: &[u8], out: &mut [u8]) -> bool {
        let viewed = lent_viewer::write_list(self.list, self.supply, run, out);
        let same = self.viewed_agrees("write_list", viewed);
        let text = self.word_agrees("text", checksum::of_bytes(out));
        same & text
    }

    fn read_agrees(&mut self, file: &[u8], out: &mut [u8]) -> bool {
        let viewed = lent_viewer::read_list(self.list, self.supply, file, out);
        let same = self.viewed_agrees("read_list", viewed);
        let run = self.word_agrees("run", checksum::of_bytes(out));
        same & run
    }

    fn explained_agrees(&mut self, file: &[u8], needs: &mut [u32]) -> bool {
        let viewed = lent_viewer::explain_list(self.list, self.supply, file, needs);
        let same = self.viewed_agrees("explain_list", viewed);
        let given = self.words_agree("need", needs);
        same & given
    }

    // A run or a file. Where there are more bytes than there is room for, which the format has not, what follows disagrees.
    fn taken<'a>(&mut self, all: &'a mut [u8]) -> &'a mut [u8] {
        let count = self.input.size().min(all.len());
        let bytes = &mut all[..count];
        self.input.fill(bytes);
        bytes
    }

    // Bytes that are lent to the viewer, filled.
    fn lent<'a>(&mut self, all: &'a mut [u8]) -> &'a mut [u8] {
        let room = self.input.size().min(all.len());
        let out = &mut all[..room];
        held::count_up(out, self.input.byte());
        out
    }

    pub(crate) fn write(&mut self) -> bool {
        let mut run = [0; 66000];
        let run = self.taken(&mut run);
        let mut out = [0; 66000];
        let out = self.lent(&mut out);
        self.written_agrees(run, out)
    }

    // The same file twice: read back, and explained.
    pub(crate) fn file(&mut self) -> bool {
        let mut file = [0; 66000];
        let file = self.taken(&mut file);
        let mut out = [0; 66000];
        let out = self.lent(&mut out);
        let count = self.input.few();
        let mut needs = [7; 4200];
        let needs = &mut needs[..count];
        let read = self.read_agrees(file, out);
        let explained = self.explained_agrees(file, needs);
        read & explained
    }
}
