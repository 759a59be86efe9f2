// tablecheck: for each line of standard input, a protocol's name or a table, whether it is accepted, and what it says.
#![tactic(auto)]

mod lines;
mod reason;
mod report;
mod word;

use lines::Lines;
use report::print_line;
use std::io;
use std::io::Read;

fn main(rt: HostRuntime) -> io::Result<()> {
    let mut input = Vec::new(rt.alloc());
    rt.stdin().read_to_end(&mut input)?;
    print_all(&rt, input.as_slice())
}

// The report of each line in turn; the last one may lack its end.
fn print_all(rt: &impl Print, text: &[u8]) -> io::Result<()> {
    for (number, line) in (1u64..).zip(Lines { text }) {
        print_line(rt, number, line)?;
    }
    Ok(())
}
