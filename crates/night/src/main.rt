// The night list: one cycle by the table, each job with a need of its own.
#![tactic(auto)]

use bench::{SLICE, TICK};
use run::Mode;
use std::io;

// In slices; the needs stand as the log does.
const NEEDS: [u32; 31] = [
    // positioner
    5, 4, 4, 3,
    // power meter
    3, 3, 3, 3, 3, 6, 3, 3,
    // sweep
    22, 27,
    // link watch
    1, 1, 1, 1, 1, 1, 1, 1, 1, 1, 1, 1, 1, 1, 1, 1,
    // log writer
    9,
];

fn main(rt: HostRuntime) -> io::Result<()> {
    // Positioner, power meter, sweep, link watch, log writer: period and run-time in microseconds, memory in words, and the
    // deadline, which is the end of the period for each.
    let list = [
        bench::task_in(20000, 2800, 128, 20000, SLICE, TICK),
        bench::task_in(10000, 2000, 1024, 10000, SLICE, TICK),
        bench::task_in(40000, 11900, 16384, 40000, SLICE, TICK),
        bench::task_in(5000, 350, 64, 5000, SLICE, TICK),
        bench::task_in(80000, 5800, 8192, 80000, SLICE, TICK),
    ];
    sheet::drive_and_print(&rt, b"night", &list, Some(Mode::Table), &NEEDS)
}
