// busrun: reads a trace text from standard input, and prints the report of its run.
#![tactic(auto)]

use report::report_text;
use std::io::Read;
use trace::LONGEST;

fn main(rt: HostRuntime) -> anyhow::Result<()> {
    run(&rt)
}

// Reads one byte more than a text may have at most, so that a longer one is known as such.
fn run(rt: &HostRuntime) -> anyhow::Result<()> {
    let mut text = Vec::new(rt.alloc());
    rt.stdin().take(LONGEST as u64 + 1).read_to_end(&mut text)?;
    rt.print(report_text(rt.alloc(), text.as_slice())?)?;
    Ok(())
}
