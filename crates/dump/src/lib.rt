// Writes a run as a Value Change Dump. Runs of any list; who may run is not looked at here.
#![tactic(auto)]

ghost use Rattle.std.specs.Prelude.{◌≡◌, ◌≤◌, length, take};
ghost use Rattle.printing.specs.Shapes.{Put};
ghost use Rattle.vcd.specs.Form.{time_line, value_line, vcd_text};
ghost use Rattle.dump.specs.Wrote.{Wrote};
ghost use Rattle.dump.specs.Shapes.{RoomIn, changes_to, count_to, text_to};

// ---- how long the text is
// How many slices change the task.
fn count_changes(run: &[u8]) -> usize
    ensures value { result ≡ count_to run.now (length run.now) }
    ensures upper_bound { result ≤ length run.now }
{
    let mut before: u8 = 17; // a number and no `None`: by `no_entry` of the text a first byte of 17 is no change
    let mut count = 0;
    for entry in run {
        count += usize::from(*entry != before);
        before = *entry;
    }
    count
}

// A header of 109 bytes, 15 for each change, and 6 for the end mark.
fn text_length(run: &[u8]) -> usize
    requires { length run.now ≤ 4096 }
    ensures { result ≡ length (text_to run.now (length run.now)) }
{
    115 + 15 * count_changes(run)
}

// ---- the lines
fn time_line(t: u32) -> [u8; 6]
    ensures { result ≡ time_line t }
{
    [
        b'#',
        48 + (t / 1000 % 10) as u8,
        48 + (t / 100 % 10) as u8,
        48 + (t / 10 % 10) as u8,
        48 + (t % 10) as u8,
        b'\n',
    ]
}

fn value_line(entry: u8) -> [u8; 9]
    ensures { result ≡ value_line entry }
{
    [
        b'b',
        48 + entry / 16 % 2,
        48 + entry / 8 % 2,
        48 + entry / 4 % 2,
        48 + entry / 2 % 2,
        48 + entry % 2,
        b' ',
        b'!',
        b'\n',
    ]
}

// ---- texts, put where there is room for them; each answers the place after it
fn put_text(text: &[u8], out: &mut [u8], at: usize) -> usize
    requires { RoomIn text.now at out.old }
    ensures { Put text.now at out.old out.new result }
{
    for (i, byte) in text.iter().enumerate() {
        out[at + i] = *byte; // slower by an eighth with `copy_from_slice`: lines are short
    }
    at + text.len()
}

// The changes of a run.
fn put_changes(run: &[u8], out: &mut [u8], at: usize) -> usize
    requires room_in { RoomIn (changes_to run.now (length run.now)) at out.old }
    requires slices_bound { length run.now ≤ 4096 }
    ensures { Put (changes_to run.now (length run.now)) at out.old out.new result }
{
    let mut before: u8 = 17;
    let mut end = at;
    for (t, entry) in run.iter().enumerate() {
        if *entry != before {
            let next = put_text(&time_line(t as u32), out, end);
            end = put_text(&value_line(*entry), out, next);
            before = *entry;
        }
    }
    end
}

// The text of a run.
fn put_run(run: &[u8], out: &mut [u8]) -> usize
    requires room_in { RoomIn (text_to run.now (length run.now)) 0 out.old }
    requires slices_bound { length run.now ≤ 4096 }
    ensures { Put (text_to run.now (length run.now)) 0 out.old out.new result }
{
    let header =
        b"$timescale 1 us $end\n$scope module ozhmandil $end\n$var wire 5 ! task $end\n$upscope $end\n$enddefinitions $end\n";
    let body = put_text(header, out, 0);
    let end = put_changes(run, out, body);
    put_text(&time_line(run.len() as u32), out, end)
}

// Writes the text of a run, of more than 4,096 slices that of the first 4,096, if there is room for all of it. Answers how long
// the text is.
pub fn write(run: &[u8], out: &mut [u8]) -> usize
    ensures { Wrote (vcd_text (take 4096 run.now)) out.old out.new result }
{
    let slices = run.len().min(4096);
    let first = &run[..slices];
    let needed = text_length(first);
    if out.len() < needed {
        return needed;
    }
    put_run(first, out)
}
