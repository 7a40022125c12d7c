//! The program: its words, its streams and its status.
#![tactic(auto)]

use permit_cli::program::run;
use permit_cli::stream::Stream;
use std::process::ExitCode;

fn main(rt: HostRuntime) -> ExitCode {
    let mut out = Stream::Output(rt.stdout());
    let mut err = Stream::Errors(rt.stderr());
    ExitCode::from(run(&rt, rt, &mut out, &mut err))
}
