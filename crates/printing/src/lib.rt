// Records by RFC 4180 into a lent buffer: a refusal, why two periods clash, the quick answer, a table, and needs.
#![tactic(auto)]

ghost use Rattle.std.specs.Prelude.{[], ◌∷◌, length, get_or, take, ◌≡◌, ◌+◌, ◌^◌, ◌≤◌, ◌<◌};
ghost use Rattle.basis.specs.Sum.{sum};
ghost use Rattle.printing.specs.Text.{decimal, field, signed_decimal, refusal_record, refusal_text, pair_record, clash_text, quick_text, records_to, table_text, need_record, job_records, need_records, needs_text, no_text};
ghost use Rattle.printing.specs.Written.{Written};
ghost use Rattle.printing.specs.Shapes.{Room, Puts};

// The number at a place, 0 past the end.
fn number_at(numbers: &[u32], i: usize) -> u32
    ensures { result ≡ get_or numbers.now i 0 }
{
    numbers.get(i).copied().unwrap_or(0)
}

// Puts texts one after the other from the first of the lent bytes on. Those past the end are dropped, and counted.
#[derive(Drop)]
struct Writer<'a> {
    out: &'a mut [u8],
    at: usize,
}

impl<'a> Writer<'a> {
    // One byte, where there is room for it. All texts are chains of these.
    fn byte(&mut self, byte: u8)
        requires { Room (byte ∷ []) self.old.at }
        ensures { Puts (byte ∷ []) self.old self.new }
    {
        if self.at < self.out.len() {
            self.out[self.at] = byte;
        }
        self.at += 1;
    }

    fn text(&mut self, text: &[u8])
        requires { Room text.now self.old.at }
        ensures { Puts text.now self.old self.new }
    {
        for byte in text {
            self.byte(*byte);
        }
    }

    fn decimal(&mut self, n: u64)
        requires { Room (decimal n) self.old.at }
        ensures { Puts (decimal n) self.old self.new }
    {
        if n < 10 {
            self.byte(48 + n as u8);
        } else {
            self.decimal(n / 10);
            self.byte(48 + (n % 10) as u8);
        }
    }

    fn signed(&mut self, z: i32)
        requires { Room (signed_decimal z) self.old.at }
        ensures { Puts (signed_decimal z) self.old self.new }
    {
        if z.is_negative() {
            self.byte(b'-');
        }
        self.decimal(u64::from(z.unsigned_abs()));
    }

    // A field that another one follows.
    fn field(&mut self, n: u64)
        requires { Room (field n) self.old.at }
        ensures { Puts (field n) self.old self.new }
    {
        self.decimal(n);
        self.byte(b',');
    }

    fn refusal(&mut self, number: u32, task: usize, margin: i32)
        requires { Room (refusal_record number task margin) self.old.at }
        ensures { Puts (refusal_record number task margin) self.old self.new }
    {
        self.field(u64::from(number));
        self.field(task as u64);
        self.signed(margin);
        self.text(b"\r\n");
    }

    fn pair(&mut self, first: u64, second: u64)
        requires { Room (pair_record first second) self.old.at }
        ensures { Puts (pair_record first second) self.old self.new }
    {
        self.field(first);
        self.decimal(second);
        self.text(b"\r\n");
    }

    // A record for each slice of a table, numbered from 0.
    fn slices(&mut self, table: &[u8])
        requires { Room (records_to table.now (length table.now)) self.old.at }
        ensures { Puts (records_to table.now (length table.now)) self.old self.new }
    {
        for (t, entry) in table.iter().enumerate() {
            self.pair(t as u64, u64::from(*entry));
        }
    }

    fn need(&mut self, task: u64, job: u64, need: u64)
        requires { Room (need_record task job need) self.old.at }
        ensures { Puts (need_record task job need) self.old self.new }
    {
        self.field(task);
        self.pair(job, need);
    }

    // A record for each of the first jobs of a task, numbered from 0.
    fn jobs(&mut self, task: u64, count: u32, needs: &[u32], from: usize)
        requires room { Room (job_records needs.now task from count) self.old.at }
        requires count_bound { from + count < 2 ^ 64 }
        ensures { Puts (job_records needs.now task from count) self.old self.new }
    {
        for k in 0..count {
            let need = number_at(needs, from + k as usize);
            self.need(task, u64::from(k), u64::from(need));
        }
    }

    // A record for each job of the first sixteen tasks, numbered from 1. The needs of a task begin where those of the one before
    // it end.
    fn needs(&mut self, jobs: &[u32], needs: &[u32])
        requires { Room (need_records needs.now (λ i. get_or jobs.now i 0) 16) self.old.at }
        ensures { Puts (need_records needs.now (λ i. get_or jobs.now i 0) 16) self.old self.new }
    {
        let mut from: usize = 0;
        for i in 0..16 {
            let count = number_at(jobs, i);
            self.jobs(i as u64 + 1, count, needs, from);
            from += count as usize;
        }
    }
}

// A refusal, as much of it as there is room for: the header, and one record. Answers the length of the whole text.
pub fn write_refusal(number: u32, task: usize, margin: i32, out: &mut [u8]) -> usize
    ensures written { Written (refusal_text number task margin) out.old out.new result }
    ensures upper_bound { result ≤ 66 }
{
    let mut writer = Writer { out, at: 0 };
    writer.text(b"refusal,task,margin\r\n");
    writer.refusal(number, task, margin);
    writer.at
}

// Why two periods clash, as much of it as there is room for: the header, and one record. Answers the length of the whole text.
pub fn write_clash(reached: u32, period: u32, out: &mut [u8]) -> usize
    ensures written { Written (clash_text reached period) out.old out.new result }
    ensures upper_bound { result ≤ 39 }
{
    let mut writer = Writer { out, at: 0 };
    writer.text(b"reached,period\r\n");
    writer.pair(u64::from(reached), u64::from(period));
    writer.at
}

// The quick answer, as much of it as there is room for: the header, and one record. Answers the length of the whole text.
pub fn write_quick(number: u32, task: usize, out: &mut [u8]) -> usize
    ensures written { Written (quick_text number task) out.old out.new result }
    ensures upper_bound { result ≤ 47 }
{
    let mut writer = Writer { out, at: 0 };
    writer.text(b"refusal,task\r\n");
    writer.pair(u64::from(number), task as u64);
    writer.at
}

// A table, as much of it as there is room for: the header, and a record for each slice of the cycle, as far as the table
// reaches. Answers the length of the whole text.
pub fn write_table(table: &[u8], cycle: u32, out: &mut [u8]) -> usize
    ensures written { Written (table_text (take cycle table.now)) out.old out.new result }
    ensures upper_bound { cycle ≤ 4096 → result ≤ 40972 }
{
    let count = table.len().min(cycle as usize);
    let mut writer = Writer { out, at: 0 };
    writer.text(b"slice,task\r\n");
    writer.slices(&table[..count]);
    writer.at
}

// The needs of a run's jobs, in the log's order, as much of it as there is room for: the header, and a record for each job of
// the first sixteen tasks, none past the end of their job counts. Answers the length of the whole text.
pub fn write_needs(jobs: &[u32], needs: &[u32], out: &mut [u8]) -> usize
    ensures written { Written (needs_text needs.now (λ i. get_or jobs.now i 0) 16) out.old out.new result }
    ensures upper_bound { sum (λ i. get_or jobs.now i 0) 16 ≤ 4096 → result ≤ 81935 }
{
    let mut writer = Writer { out, at: 0 };
    writer.text(b"task,job,need\r\n");
    writer.needs(jobs, needs);
    writer.at
}

// That there are no needs, as much of it as there is room for. Answers the length of the whole text.
pub fn write_no(out: &mut [u8]) -> usize
    ensures { Written no_text out.old out.new result }
{
    let mut writer = Writer { out, at: 0 };
    writer.text(b"no\r\n");
    writer.at
}
