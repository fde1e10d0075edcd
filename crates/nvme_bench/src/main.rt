//! Measures the loop of a device over Rattle's calls of a controller: `loop COUNT` by time, and `counted COUNT` for a
//! program that counts instructions. The figures go to standard error, and the checksums of `loop`, and `ok`, to
//! standard output.
#![tactic(auto)]

mod loops;

use anyhow::{Result, bail};
use std::alloc::Global;
use std::env;
use std::time::CpuClock;

// Makes a measurement by its name.
fn measure<R: CpuClock + Print + Eprint + Alloc<A = Global>>(
    rt: &R,
    name: &str,
    count: u32,
) -> Result<()> {
    match name {
        "loop" => loops::measure(rt, count),
        "counted" => loops::count(rt, count),
        _ => bail!("there is no measurement of this name, but loop and counted"),
    }
}

// The measurement and the count that the words ask for.
fn asked(words: &[String]) -> Result<(&str, u32)> {
    let [_, name, count] = words else {
        bail!("a measurement and a count are wanted, such as loop 1000000")
    };
    match count.as_str().parse::<u32>() {
        Ok(count) if count > 0 => Ok((name.as_str(), count)),
        _ => bail!("the count isn't a number from 1 to 4294967295"),
    }
}

fn main(rt: HostRuntime) -> Result<()> {
    let words: Vec<String> = env::args(&rt)?.collect(rt.alloc())?;
    let (name, count) = asked(words.as_slice())?;
    measure(&rt, name, count)?;
    println!(rt; "ok")?;
    Ok(())
}
