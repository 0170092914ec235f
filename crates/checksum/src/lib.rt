// The checksum of the file of reference cases: FNV-1a of 32 bits, over a run of bytes and over a state.
#![tactic(auto)]

ghost use Rattle.std.specs.Prelude.{◌≡◌, length};
ghost use Rattle.checksum.specs.Checksum.{mix, over_word, over_bytes, over_tasks, over_jobs, mode_byte, of_bytes, of_state};

use run::{Mode, State};

// The sum of no bytes.
const START: u32 = 2166136261;

fn with_byte(h: u32, byte: u8) -> u32
    ensures { result ≡ mix h byte }
{
    (h ^ u32::from(byte)).wrapping_mul(16777619)
}

// Goes on from a checksum over more bytes.
pub fn with_bytes(h: u32, bytes: &[u8]) -> u32
    ensures { result ≡ over_bytes h bytes.now (length bytes.now) }
{
    let mut sum = h;
    for byte in bytes {
        sum = with_byte(sum, *byte);
    }
    sum
}

pub fn of_bytes(bytes: &[u8]) -> u32
    ensures { result ≡ of_bytes bytes.now }
{
    with_bytes(START, bytes)
}

fn with_word(h: u32, w: u32) -> u32
    ensures { result ≡ over_word h w }
{
    with_bytes(h, &w.to_le_bytes())
}

fn with_tasks(h: u32, periods: &[u32; 16], deadlines: &[u32; 16], runtimes: &[u32; 16]) -> u32
    ensures { result ≡ over_tasks h periods.now deadlines.now runtimes.now 16 }
{
    let mut sum = h;
    for i in 0..16 {
        let due = with_word(with_word(sum, periods[i]), deadlines[i]);
        sum = with_word(due, runtimes[i]);
    }
    sum
}

fn with_jobs(h: u32, used: &[u32; 16], ended: &[bool; 16]) -> u32
    ensures { result ≡ over_jobs h used.now ended.now 16 }
{
    let mut sum = h;
    for i in 0..16 {
        sum = with_byte(with_word(sum, used[i]), u8::from(ended[i]));
    }
    sum
}

// The case file's number of a mode; `From` would have to stand in run, which knows no such file.
fn mode_byte(mode: Mode) -> u8
    ensures { result ≡ mode_byte mode }
{
    match mode {
        Mode::Table => 0,
        Mode::Filling => 1,
    }
}

// The 293 bytes of a state, in the format's order.
pub fn of_state(state: State) -> u32
    ensures { result ≡ of_state state }
{
    let count = with_bytes(START, &state.count.to_le_bytes());
    let cycle = with_word(count, state.cycle);
    let position = with_word(cycle, state.position);
    let clock = with_word(position, state.clock);
    let tasks = with_tasks(
        with_byte(clock, mode_byte(state.mode)),
        &state.periods,
        &state.deadlines,
        &state.runtimes,
    );
    with_jobs(tasks, &state.used, &state.ended)
}
