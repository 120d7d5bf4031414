//! Random runs of a flow, and the run law checked on each by direct computation.
#![tactic(auto)]

mod carried;
mod counts;
mod crc;
mod law;
mod noise;
mod noting;
mod planting;
mod random;
mod report;
mod run;
mod scripts;
mod stretch;
mod tape;
mod trial;

use anyhow::anyhow;
use std::env;
use trial::Findings;

/// How many scripts are run where no number is given.
const SCRIPTS: u64 = 10_000;

/// The number of scripts to run: the first argument, if there is one.
fn wanted(rt: &HostRuntime) -> anyhow::Result<u64> {
    match env::args(rt)?.nth(1) {
        Some(word) => Ok(word.as_str().parse::<u64>()?),
        None => Ok(SCRIPTS),
    }
}

fn simulate(rt: &HostRuntime) -> anyhow::Result<()> {
    let mut all = Findings::default();
    let scripts = wanted(rt)?;
    for seed in 0..scripts {
        let before = all.broken;
        all.try_script(rt.alloc(), seed)?;
        if all.broken != before {
            println!(rt; "the law is broken in script {seed}")?;
        }
    }
    println!(rt; "{scripts} scripts")?;
    print!(rt; "{all}")?;
    if all.broken.any() {
        return Err(anyhow!("the law is broken"));
    }
    Ok(())
}

fn main(rt: HostRuntime) -> anyhow::Result<()> {
    simulate(&rt)
}
