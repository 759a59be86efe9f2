// busbench: so many accesses of two workloads on eight seats under seven protocols, what they gave and how long they took.
#![tactic(auto)]

mod measure;
mod mixture;
mod stream;
mod sums;
mod workload;

use measure::measure;
use std::time::{Duration, Instant};
use std::{env, io};
use workload::Workload;

/// The accesses of each workload where no count is given.
const USUAL: u64 = 1_000_000;

fn main(rt: HostRuntime) -> anyhow::Result<()> {
    bench(&rt)
}

// The workload that the second argument picks, or else each in turn.
fn bench(rt: &HostRuntime) -> anyhow::Result<()> {
    let count = match env::args(rt)?.nth(1) {
        Some(word) => word.as_str().parse::<u64>()?,
        None => USUAL,
    };
    match env::args(rt)?.nth(2) {
        Some(word) => bench_one(rt, word.as_str().parse::<Workload>()?, count),
        None => bench_both(rt, count),
    }
}

// Both workloads.
fn bench_both(rt: &HostRuntime, count: u64) -> anyhow::Result<()> {
    bench_one(rt, Workload::Scattered, count)?;
    bench_one(rt, Workload::Local, count)
}

// What a workload gave goes to standard output, the same on every machine, and how long it took to standard error.
fn bench_one(rt: &HostRuntime, workload: Workload, count: u64) -> anyhow::Result<()> {
    let start = Instant::now(rt)?;
    let sums = measure(rt.alloc(), workload, count)?;
    let took = start.elapsed(rt)?;
    println!(rt; "{workload}\n{sums}")?;
    print_time(rt, count, took)?;
    Ok(())
}

// How long the accesses took, and how many that is a second.
fn print_time(rt: &impl Eprint, accesses: u64, took: Duration) -> io::Result<()> {
    let micros = took.as_micros();
    let rate = u128::from(accesses) * 1_000_000 / micros.max(1);
    eprintln!(rt;
        "accesses {accesses} seconds {}.{:06} accesses_per_second {rate}",
        micros / 1_000_000,
        micros % 1_000_000
    )
}
