//! Runs the vectors of data/ through every form of SHA3-256 and SHAKE128, and ends with an error at the first that fails.
//! Of each vector a damaged twin, with one bit of its message flipped, must give something else.
#![tactic(auto)]

mod forms;
mod records;

use crate::forms::{sha3_gives, shake_gives};
use crate::records::passed;
use std::fs;

fn run(rt: &HostRuntime) -> anyhow::Result<()> {
    let heap = rt.alloc();
    let digests = fs::read_to_string(rt, "sha3_256.txt")?;
    let hashed = passed(heap, &digests, |message, expected| {
        Ok(sha3_gives(message, expected))
    })?;
    println!(rt; "SHA3-256: {hashed} vectors pass, and their damaged twins do not")?;
    let streams = fs::read_to_string(rt, "shake128.txt")?;
    let streamed = passed(heap, &streams, |message, expected| {
        shake_gives(heap, message, expected)
    })?;
    println!(rt; "SHAKE128: {streamed} vectors pass, and their damaged twins do not")?;
    Ok(())
}

fn main(rt: HostRuntime) -> anyhow::Result<()> {
    run(&rt)
}
