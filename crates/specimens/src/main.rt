//! Runs published check vectors of CRC-16 and says of each whether the code agrees.
#![tactic(auto)]

mod edges;
mod examples;
mod vectors;

use std::io;
use vectors::published;

fn main(rt: HostRuntime) -> io::Result<()> {
    examples::worked_examples();
    edges::edges();
    let all = published();
    for vector in all {
        println!(rt; "{vector}")?;
    }
    let agreed = all.iter().filter(|vector| vector.agrees()).count();
    let count = all.len();
    println!(rt; "{agreed} of {count} agree")
}
