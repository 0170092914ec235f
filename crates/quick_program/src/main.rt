// The quick program: reads a task list from standard input and prints the quick answer on standard output, accepted being 0,0.
#![tactic(auto)]

ghost use Rattle.std.specs.Prelude.{◌≤◌};
ghost use Rattle.output.specs.Quick.{QuickAnswers};

use std::io;

// What is to be printed for an input, and how long it is.
fn answer(input: &[u8], out: &mut [u8]) -> usize
    ensures quick_answers { QuickAnswers input.now out.old out.new result }
    ensures upper_bound { result ≤ 47 }
{
    if 4096 < input.len() {
        return printing::write_quick(16, 0, out);
    }
    let list = match records::read_list(input) {
        Ok(list) => list,
        Err(bad) => return printing::write_quick(15, bad.line, out),
    };
    match lent::ask_list(list, 65536) {
        Ok(()) => printing::write_quick(0, 0, out),
        Err(refused) => printing::write_quick(refused.number, refused.task, out),
    }
}

// One byte more than an input may have is enough to tell that it is too long.
fn main(rt: HostRuntime) -> io::Result<()> {
    let mut input = [0u8; 4097];
    let got = streams::read_full(&mut rt.stdin(), &mut input)?;
    let mut out = [0u8; 47];
    let length = answer(&input[..got], &mut out);
    rt.stdout().write_all(&out[..length])
}
