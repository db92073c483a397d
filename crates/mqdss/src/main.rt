// The program: `mqdss COMMAND ..`, status 0 where the command says yes, else 1.
#![tactic(auto)]

use console::command::run;
use std::process::ExitCode;
use std::{env, io};

fn main(rt: HostRuntime) -> Result<ExitCode, io::Error> {
    let args: Vec<String> = env::args(&rt)?.skip(1).collect(rt.alloc())?;
    if run(&rt, args.as_slice())? {
        Ok(ExitCode::SUCCESS)
    } else {
        Ok(ExitCode::FAILURE)
    }
}
