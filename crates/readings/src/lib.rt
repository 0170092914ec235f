// What a table entry, a refusal number and a log byte say, each read by the ranges of its numbers.
#![tactic(auto)]

ghost use Rattle.std.specs.Prelude.{◌≡◌};
ghost use Rattle.readings.specs.Reading.{entry_of, refusal_of, logged_of};

// An entry of a table: idle, a task by its number, or no entry at all, with the byte that stands there.
#[derive(Clone, Copy)]
pub enum Entry {
    Idle,
    Task(usize),
    NoEntry(u8),
}

pub fn read_entry(byte: u8, count: usize) -> Entry
    ensures { result ≡ entry_of byte count }
{
    match byte {
        0 => Entry::Idle,
        1..=16 => {
            let task = byte as usize;
            if task <= count {
                Entry::Task(task)
            } else {
                Entry::NoEntry(byte)
            }
        }
        17..=255 => Entry::NoEntry(byte),
    }
}

// Which part of the product refuses, with the number where it has several.
#[derive(Clone, Copy)]
pub enum Refusal {
    Bound(u32),
    Lateness,
    ShortTable,
    Run(u32),
    Program(u32),
    Conversion,
    Viewer(u32),
    NoRefusal(u32),
}

pub fn read_refusal(number: u32) -> Refusal
    ensures { result ≡ refusal_of number }
{
    match number {
        1..=6 => Refusal::Bound(number),
        7 => Refusal::Lateness,
        8 => Refusal::ShortTable,
        9..=14 => Refusal::Run(number),
        15..=16 => Refusal::Program(number),
        17 => Refusal::Conversion,
        18..=19 => Refusal::Viewer(number),
        20 => Refusal::Bound(number),
        30..=31 => Refusal::Viewer(number),
        _ => Refusal::NoRefusal(number),
    }
}

// What the log says of a job. A byte left as cleared is no result, never a pass.
#[derive(Clone, Copy)]
pub enum Logged {
    NoResult,
    Done,
    Over,
    Late,
    Damaged(u8),
}

pub fn read_logged(byte: u8) -> Logged
    ensures { result ≡ logged_of byte }
{
    match byte {
        0 => Logged::NoResult,
        1 => Logged::Done,
        2 => Logged::Over,
        3 => Logged::Late,
        4..=255 => Logged::Damaged(byte),
    }
}
