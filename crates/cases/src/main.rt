// The test program: edges and refusals of the kit's calls, each at its place and in its order.
#![tactic(auto)]

mod key_cases;
mod suite_cases;

use crate::key_cases::{run_check, run_make};
use crate::suite_cases::{run_draws, run_limits};
use std::io;
use std::process::ExitCode;
use tally::Tally;

type Cases<'a> = Tally<'a, HostRuntime>;

fn main(rt: HostRuntime) -> io::Result<ExitCode> {
    let mut tally = Tally::new(&rt);
    run_limits(&mut tally)?;
    run_draws(&mut tally)?;
    run_make(&mut tally)?;
    run_check(&mut tally)?;
    tally.finish()
}
