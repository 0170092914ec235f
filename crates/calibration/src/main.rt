// The calibration list: one cycle by the table, each job with a need of its own.
#![tactic(auto)]

use bench::{SLICE, TICK};
use run::Mode;
use std::io;

// In slices; the needs stand as the log does.
const NEEDS: [u32; 27] = [
    // positioner
    3, 3, 2, 3, 7, 3,
    // power meter
    5, 3, 3, 3, 5, 3, 3, 3,
    // sweep
    12, 16,
    // link watch
    1, 1, 1, 1, 1, 1, 1, 1, 1, 1,
    // log writer
    5,
];

fn main(rt: HostRuntime) -> io::Result<()> {
    // Positioner, power meter, sweep, link watch, log writer: period and run-time in microseconds, memory in words, and the
    // deadline, which is the end of the period for each.
    let list = [
        bench::task_in(10000, 1900, 128, 10000, SLICE, TICK),
        bench::task_in(7500, 2000, 1024, 7500, SLICE, TICK),
        bench::task_in(30000, 6750, 24576, 30000, SLICE, TICK),
        bench::task_in(6000, 350, 64, 6000, SLICE, TICK),
        bench::task_in(60000, 2700, 4096, 60000, SLICE, TICK),
    ];
    sheet::drive_and_print(&rt, b"calibration", &list, Some(Mode::Table), &NEEDS)
}
