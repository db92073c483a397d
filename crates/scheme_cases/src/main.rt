// The test program of signing and verification: both signers side by side, edges, refusals at their place and in their order, and signatures that are wrong in one way.
#![tactic(auto)]

mod dry;
mod example;
mod flips;
mod kit;
mod manners;
mod pairs;
mod sample;
mod short;
mod sign_ask;
mod sign_refusals;
mod sign_rooms;
mod spoiling;
mod stage;
mod vector_cases;
mod verify_ask;
mod verify_lengths;
mod verify_refusals;

use crate::dry::run_dry;
use crate::example::run_example;
use crate::flips::run_flips;
use crate::manners::run_manners;
use crate::pairs::run_pairs;
use crate::sample::run_sample;
use crate::short::run_short;
use crate::sign_refusals::run_sign_refusals;
use crate::sign_rooms::run_sign_rooms;
use crate::vector_cases::run_vectors;
use crate::verify_lengths::run_verify_lengths;
use crate::verify_refusals::run_verify_refusals;
use std::io;
use std::process::ExitCode;
use tally::Tally;

type Cases<'a> = Tally<'a, HostRuntime>;

fn main(rt: HostRuntime) -> io::Result<ExitCode> {
    let mut tally = Tally::new(&rt);
    run_example(&mut tally)?;
    tally.end_group("the worked example")?;
    run_pairs(&mut tally)?;
    tally.end_group("both signers side by side")?;
    run_sample(&mut tally)?;
    tally.end_group("the sample")?;
    run_sign_refusals(&mut tally)?;
    run_sign_rooms(&mut tally)?;
    tally.end_group("refusals of signing")?;
    run_verify_refusals(&mut tally)?;
    run_verify_lengths(&mut tally)?;
    tally.end_group("refusals of verification")?;
    run_short(&mut tally)?;
    run_dry(&mut tally)?;
    tally.end_group("drawings that fall short")?;
    run_vectors(&mut tally)?;
    tally.end_group("elements and pads of signatures")?;
    run_flips(&mut tally)?;
    tally.end_group("changed bits and parts")?;
    run_manners(&mut tally)?;
    tally.end_group("wrong signers")?;
    tally.finish()
}
