// sessions: for each name on standard input, runs the text in NAME.in and compares its report with NAME.out.
#![tactic(auto)]

use report::report_text;
use std::alloc::{AllocError, Global};
use std::{fs, io};

fn main(rt: HostRuntime) -> io::Result<()> {
    for line in rt.lines(rt.alloc()) {
        let name = line?;
        print_case(&rt, name.as_str())?;
    }
    Ok(())
}

// One line: the session's name, and whether its report is the expected one.
fn print_case(rt: &HostRuntime, name: &str) -> io::Result<()> {
    let heap = rt.alloc();
    let text = fs::read(rt, format!(in heap; "{name}.in")?)?;
    let expected = fs::read(rt, format!(in heap; "{name}.out")?)?;
    if reports(heap, text.as_slice(), expected.as_slice())? {
        println!(rt; "{name}: as expected")
    } else {
        println!(rt; "{name}: another report")
    }
}

// Whether the report of a text is this one.
fn reports(heap: Global, text: &[u8], expected: &[u8]) -> Result<bool, AllocError> {
    let shown = report_text(heap, text)?;
    Ok(shown.as_bytes() == expected)
}
