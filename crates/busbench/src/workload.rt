// The workloads: which addresses are accessed.
use anyhow::anyhow;
use std::fmt;
use std::str::FromStr;

/// Which workload is measured.
#[derive(Clone, Copy)]
pub enum Workload {
    /// Every address alike: nearly every access misses.
    Scattered,
    /// Each seat in sixteen lines of its own but for one access in eight: most accesses hit.
    Local,
}

// The workload of a number.
impl FromStr for Workload {
    type Err = anyhow::Error;

    fn from_str(word: &str) -> anyhow::Result<Workload> {
        match word {
            "1" => Ok(Workload::Scattered),
            "2" => Ok(Workload::Local),
            _ => Err(anyhow!("there are workloads 1 and 2")),
        }
    }
}

// The number of a workload, and its name.
impl fmt::Display for Workload {
    fn fmt<W: fmt::Write>(&self, f: &mut fmt::Formatter<W>) -> fmt::Result {
        f.write_str(match self {
            Workload::Scattered => "workload 1, scattered",
            Workload::Local => "workload 2, local",
        })
    }
}

/// The address that a number of the stream gives, in a scattered workload.
pub fn scattered(x: u64) -> u32 {
    ((x >> 8) & 4095) as u32
}

/// The address that a number of the stream gives, in a local workload.
pub fn local(x: u64) -> u32 {
    if (x >> 20) & 7 == 0 {
        scattered(x)
    } else {
        ((x & 7) * 64 + ((x >> 8) & 63)) as u32
    }
}
