// The dump program: reads a task list from standard input and writes the filling run in which every job takes its whole
// run-time, which is the list's table, as a Value Change Dump on standard output, or prints the refusal.
#![tactic(auto)]

ghost use Rattle.std.specs.Prelude.{◌≤◌, length};
ghost use Rattle.output.specs.Vcd.{VcdAnswers};

use std::io;

// What is to be printed for an input, and how long it is. There is room for the dump of every table.
fn answer(input: &[u8], out: &mut [u8]) -> usize
    requires { 61555 ≤ length out.old }
    ensures vcd_answers { VcdAnswers input.now out.old out.new result }
    ensures upper_bound { result ≤ 61555 }
{
    if 4096 < input.len() {
        return printing::write_refusal(16, 0, 0, out);
    }
    let list = match records::read_list(input) {
        Ok(list) => list,
        Err(bad) => return printing::write_refusal(15, bad.line, 0, out),
    };
    let mut table = [0u8; 4096];
    match lent::build_list(list, 65536, &mut table) {
        Ok(accepted) => dump::write(&table[..accepted.cycle as usize], out),
        Err(refusal) => {
            printing::write_refusal(refusal.number(), refusal.task(), refusal.margin(), out)
        }
    }
}

// One byte more than an input may have is enough to tell that it is too long.
fn main(rt: HostRuntime) -> io::Result<()> {
    let mut input = [0u8; 4097];
    let got = streams::read_full(&mut rt.stdin(), &mut input)?;
    let mut out = [0u8; 61555];
    let length = answer(&input[..got], &mut out);
    rt.stdout().write_all(&out[..length])
}
